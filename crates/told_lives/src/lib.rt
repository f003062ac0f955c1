//! That a life is told in lines which a transcript may have, each in its place. Definitions, and the law about them.
#![tactic(auto)]

mod laws;

pub use laws::lives_are_well_told;
