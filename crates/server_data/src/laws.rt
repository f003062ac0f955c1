//! The law that a client reads what a server said.

ghost use Rattle.server_data.specs.ReadBack.{ReadsBack};

/// The bytes of a reply are read as that reply: its fields, and its options in their order.
pub fn replies_are_read_back()
    ensures { ReadsBack }
{}
