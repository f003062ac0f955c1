//! What a transcript tells of the managed interfaces by the end of an opening: their settings, the host's DUID, their
//! carriers, and the leases that were kept.
#![tactic(auto)]

mod known;
mod managing;
mod opening;
mod reads;
mod sites;

pub use known::Known;
pub use managing::Managing;
pub use opening::Opening;
pub use reads::FileRead;
pub use sites::seats_of;
