//! For an address that is held, the turns of its life on which it rests.
#![tactic(auto)]

mod items;
mod laws;
mod leases;
mod locals;
mod probe_walk;
mod probes;
mod shown_turn;
mod statics;
mod walks;

pub use items::{ItemTurns, found_items_are_shown};
pub use laws::{
    found_bases_are_shown, found_leases_are_shown, found_locals_are_shown, shown_bases_are_bases,
    shown_leases_have_bases,
};
pub use leases::{Granting, LeaseTurns};
pub use probes::{ProbedTurns, ThreeProbes};
pub use shown_turn::ShownTurn;
pub use walks::{Basis, basis_in};
