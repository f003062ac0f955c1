//! Why an address may be held.
use basis_turns::Basis;

/// Why an address may be held on an interface.
#[derive(Clone, Copy)]
pub enum Reason {
    /// By what the life showed of the interface.
    Own(Basis),
    /// By a lease of an earlier life.
    Kept,
    /// As a share of the prefixes of the interface of this number.
    Share(u32),
}
