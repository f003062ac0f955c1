//! What one lease or one static address tells the resolver: its name servers and search names, and where these rank.

use net_types::{IfIndex, Ip4, Ip6, Name};

/// The protocol that a part comes from.
#[derive(Clone, Copy, PartialEq, Eq)]
pub enum Family {
    V4,
    V6,
}

/// The address of a name server.
#[derive(Clone, Copy, PartialEq, Eq)]
pub enum Server {
    V4(Ip4),
    V6(Ip6),
}

/// What one lease says of name servers and of names.
#[derive(Drop)]
pub struct Part {
    /// The metric of the interface's routes: parts of a lower one come first.
    pub metric: u32,
    /// The interface that holds the lease, and its name.
    pub index: IfIndex,
    pub name: Name,
    pub family: Family,
    /// The servers, in the order in which they are to be asked.
    pub servers: Vec<Server>,
    /// The names to search in, as they came: what is no domain name isn't written.
    pub names: Vec<String>,
}
