//! A judge of leased addresses: it tells, a turn at a time, whether an address was granted and probed.
#![tactic(auto)]

mod laws;
mod probes;
mod turns;
mod watch;

pub use laws::{bases_are_judged, grants_are_judged, leases_are_judged, probes_are_judged};
pub use local_judge::{Choice, ChoiceTurn, LocalJudge, goes_on, is_alone};
pub use turns::LeaseJudge;
