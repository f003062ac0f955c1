//! That the lines of a life show no address without its basis. A definition, and the law about it.
#![tactic(auto)]

mod laws;

pub use laws::lines_of_lives_rest_on_evidence;
