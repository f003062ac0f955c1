//! The options by which a DHCPv4 server grants terms, spelled by their RFCs, and the law that a client reads what they
//! say.
#![tactic(auto)]

mod laws;

pub use laws::granted_values_are_read_back;
