//! The promises of a turn over a host that tells its rows: what is known of them stays true, those of other
//! interfaces stay, and the managed ones are as wanted where no call fails, as none does once failures are past.

ghost use Rattle.host_model.specs.HostLaws.{OfTrueTables, StaysTrue, OthersStay, IsReached, Recovers};

/// Law of one turn over a host that tells its rows and which of its calls fail. What is known of the rows stays true;
/// rows of interfaces that aren't managed stay as they were, whatever fails; where no host call fails, the host has
/// exactly the wanted rows on managed interfaces; and none fails once the calls that fail are past.
pub fn a_turn_brings_the_wanted_rows()
    ensures stays_true { OfTrueTables StaysTrue }
    ensures others_stay { OfTrueTables OthersStay }
    ensures reached { OfTrueTables IsReached }
    ensures recovers { Recovers }
{}
