//! What an audit tells of an address that has no basis: which it is, and where in the transcript it is shown.

use world::HostRow;

/// An address without basis, and the life and the turn after which it is shown: lives are counted from 1 and turns too,
/// and an opening is turn 0.
#[derive(Clone, Copy)]
pub struct Unjust {
    pub life: u64,
    pub turn: u64,
    pub row: HostRow,
}
