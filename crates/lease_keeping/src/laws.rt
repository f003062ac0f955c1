//! The laws that a granted DHCPv4 lease stays held where turns come in time, the carrier stays, servers answer in
//! time without refusing, no host contests it and each lease is long enough; and that these premises can be met.

ghost use Rattle.lease_keeping.specs.KeptLives.{ReboundLife, RenewedLife};
ghost use Rattle.lease_keeping.specs.LeaseKept.{HoldsMeanwhile};
ghost use Rattle.lease_progress.specs.LeaseStays.{StaysHeld};

/// Law of an interface's life, over every setting, salt and list of turns. Where these come no later than asked for,
/// the carrier stays, no server refuses and no other host contests what was granted, servers answer in time, and each
/// lease lasts long enough for that, one that was granted stays held, at each moment up to the next turn. It is renewed
/// where servers answer each REQUEST, and rebound where they answer only those that are broadcast (RFC 2131, section
/// 4.4.5).
pub fn leases_stay_held()
    ensures stays { StaysHeld }
    ensures meanwhile { HoldsMeanwhile }
{}

/// Law: the premises can be met. Two lives are written out for which they hold: in one the lease is renewed twice, in
/// the other servers are asked in vain at T1, and it is rebound twice.
pub fn keeping_premises_are_met()
    ensures renewed { RenewedLife }
    ensures rebound { ReboundLife }
{}
