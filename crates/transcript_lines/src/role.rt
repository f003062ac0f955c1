//! The parts that lines play in the shape of a transcript: its head, its interfaces, and its lives with their turns
//! and rows.

use net_types::IfSpec;
use world::HostRow;

/// What a line is to the shape of a transcript.
#[derive(Clone, Copy)]
pub enum Role {
    /// A line of the head.
    Head,
    /// An interface of the host.
    Interface(IfSpec),
    /// A life begins; its number.
    Life(u64),
    /// How it begins; the moment, in milliseconds since 1970.
    Start(u64),
    /// A turn; its moment, in milliseconds since 1970.
    Turn(u64),
    /// So many rows follow.
    Listing(u64),
    Row(HostRow),
    /// Another line of a life.
    Other,
    /// The last line of a life.
    End,
}
