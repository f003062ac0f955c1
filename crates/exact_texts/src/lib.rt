//! Each variable that is made for a hook's job is what its name says, in every life: laws over whole lives, and over
//! lives up to any moment.
#![tactic(auto)]

mod laws;

pub use laws::{lives_make_exact_variables, unfinished_lives_make_exact_variables};
