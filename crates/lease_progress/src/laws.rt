//! What ought to happen does. These functions do nothing: their contracts are the laws.

ghost use Rattle.lease_progress.specs.LeaseHeld.{Acquires, Reacquires};
ghost use Rattle.lease_progress.specs.OneLife.{AgainLifeGoesWell, OneLifeGoesWell};

/// Law of the life of an interface, over every setting, salt and moment, from an opening with carrier. Where turns come
/// no later than asked for, the link takes the frames, the carrier stays, no other host contests what was granted, and
/// servers answer each DISCOVER and each REQUEST in a time of less than 119 seconds, a lease is held after the first
/// delay, two such times and the probing (RFC 2131, sections 3.1 and 4.4); and after one and the probing where a lease
/// was kept that isn't over (section 3.2).
pub fn leases_are_acquired()
    ensures acquires { Acquires }
    ensures reacquires { Reacquires }
{}

/// Law: the premises can be met. A life is written out for which they hold, up to a minute after the lease is held; and
/// one that asks for its kept lease again.
pub fn premises_are_met()
    ensures anew { OneLifeGoesWell }
    ensures again { AgainLifeGoesWell }
{}
