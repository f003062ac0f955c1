//! A DHCPv6 server's message, spelled by the layouts of RFC 8415, and the law that a client reads what it says.
#![tactic(auto)]

mod laws;

pub use laws::replies6_are_read_back;
