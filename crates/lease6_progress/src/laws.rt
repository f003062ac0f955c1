//! These functions do nothing: their contracts are the laws.

ghost use Rattle.lease6_progress.specs.Acquiring.{Acquires, AcquiresAtOnce};
ghost use Rattle.lease6_progress.specs.InterfaceHolds.{ClientsRun, ClientsSpeak, InterfaceAcquires, InterfaceHolds, InterfaceStaysHeld};
ghost use Rattle.lease6_progress.specs.OneLife.{OneLifeGoesWell, RapidLifeGoesWell, RenewedLifeGoesWell, ReboundLifeGoesWell};
ghost use Rattle.lease6_progress.specs.Staying.{HoldsFromThenOn, StaysHeld};

/// Law of a DHCPv6 client, over all settings, salts and moments, from its begin without a lease that is still valid.
/// Where its turns come no later than it asked for, the carrier stays, and each SOLICIT and each REQUEST is answered in
/// time and well, an item is held by the first delay, the first SOLICIT's time and one more answer. Where a Reply
/// answers the SOLICIT, by the first delay and that answer (RFC 8415, sections 18.2.1, 18.2.2 and 18.2.10).
pub fn items_are_held_in_time()
    ensures four_messages { Acquires }
    ensures two_messages { AcquiresAtOnce }
{}

/// Law: the premises can be met. A life is written out for each way in which they hold.
pub fn premises_of_items_are_met()
    ensures by_offers { OneLifeGoesWell }
    ensures at_once { RapidLifeGoesWell }
    ensures renewed { RenewedLifeGoesWell }
    ensures rebound { ReboundLifeGoesWell }
{}

/// Law of such a client that holds a lease with T1 still to come, over all later turns: a valid item is held after
/// each. Either each RENEW is answered before T2 is over; or REBINDs alone are answered, and what is held lasts so
/// long. T1 and T2 are the least of all IAs, and one item of any IA is enough (RFC 8415, sections 14.2, 18.2.4 and
/// 18.2.5). So what a client acquires in time it holds from then on.
pub fn held_items_stay()
    ensures stays { StaysHeld }
    ensures from_then_on { HoldsFromThenOn }
{}

/// Law of an interface on which DHCPv6 runs, from an opening with carrier on, whatever DHCPv4 and link-local do beside:
/// its DHCPv6 client goes through its turns by itself. So the interface holds an item in time, by SOLICIT, Advertise,
/// REQUEST and Reply, and what it holds stays held.
pub fn interfaces_hold_items()
    ensures alone { ClientsRun }
    ensures speaks { ClientsSpeak }
    ensures acquires { InterfaceAcquires }
    ensures stays { InterfaceStaysHeld }
    ensures from_then_on { InterfaceHolds }
{}
