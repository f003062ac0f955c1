//! What a row of the table looks at beside the state.

use crate::setup::Site6;

/// The settings, the transaction id of the last exchange, the longest time between two SOLICITs in milliseconds, the
/// moment, and the salt of the turn.
#[derive(Clone, Copy, PartialEq, Eq)]
pub struct Turn6 {
    pub site: Site6,
    pub last: Option<u32>,
    pub sol_max: u64,
    pub at: u64,
    pub salt: u64,
}
