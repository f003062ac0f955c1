//! What a lease says, and the values that came with it.

ghost use Rattle.std.specs.Prelude.{◌≡◌, map, IfOk};
ghost use Rattle.lease_text.specs.Leases.{is_host_address, lease_content, lease_with, terms_of, values_content};

use net_types::{Ip4, Mac, Name, Net4, NoMemory};
use std::alloc::{AllocError, Global};

/// The lease time of a lease that never ends (RFC 2131, section 3.3).
pub const INFINITE_LEASE: u32 = 0xffff_ffff;
/// The length of a network of one address.
pub const LONGEST_PREFIX: u8 = 32;
/// The most bytes of a value that is kept.
pub const VALUE_LIMIT: usize = 2048;

/// The value of an option: the bytes of all its instances, end to end (RFC 3396).
#[derive(Drop)]
pub struct Value {
    pub code: u16,
    pub bytes: Vec<u8>,
}

/// Where a lease comes from.
#[derive(Clone, Copy, Debug, PartialEq, Eq)]
pub struct Origin {
    /// The hardware address of the interface that it was granted to.
    pub mac: Mac,
    /// The moment at which the server's message was heard that confirmed it last, in milliseconds since 1970.
    pub confirmed: u64,
}

/// A lease of an IPv4 address (RFC 2131, section 2).
#[derive(Drop)]
pub struct Lease4 {
    /// Where it comes from; a text of the first version doesn't tell.
    pub origin: Option<Origin>,
    /// The interface that holds it.
    pub name: Name,
    /// The address, with the length of its network.
    pub net: Net4,
    /// The server that granted it (option 54), and the hardware address that the grant came from.
    pub server: Ip4,
    pub server_mac: Mac,
    /// The moment of the first REQUEST of the exchange that granted it, in milliseconds since 1970. All times count
    /// from it.
    pub first: u64,
    /// How long it lasts, in seconds; `INFINITE_LEASE` is forever.
    pub lease: u32,
    /// When it is renewed, and when it is rebound, in seconds.
    pub t1: u32,
    pub t2: u32,
    /// The values that came with it, by rising code.
    pub values: Vec<Value>,
}

/// What a lease says in numbers: `Lease4` without its name and its values.
#[derive(Clone, Copy, PartialEq, Eq)]
pub struct Terms4 {
    pub origin: Option<Origin>,
    pub net: Net4,
    pub server: Ip4,
    pub server_mac: Mac,
    pub first: u64,
    pub lease: u32,
    pub t1: u32,
    pub t2: u32,
}

impl Lease4 {
    /// The lease of an interface with these terms and values.
    pub fn new(name: Name, terms: Terms4, values: Vec<Value>) -> Lease4
        ensures { lease_content result ≡ lease_with name terms (values_content values.items) }
    {
        Lease4 {
            origin: terms.origin,
            name,
            net: terms.net,
            server: terms.server,
            server_mac: terms.server_mac,
            first: terms.first,
            lease: terms.lease,
            t1: terms.t1,
            t2: terms.t2,
            values,
        }
    }

    /// What the lease says in numbers.
    pub fn terms(&self) -> Terms4
        ensures { result ≡ terms_of (lease_content self.now) }
    {
        Terms4 {
            origin: self.origin,
            net: self.net,
            server: self.server,
            server_mac: self.server_mac,
            first: self.first,
            lease: self.lease,
            t1: self.t1,
            t2: self.t2,
        }
    }

    /// Another copy of the lease.
    pub fn copied(&self, alloc: Global) -> Result<Lease4, NoMemory>
        ensures { IfOk result (λ lease. lease_content lease ≡ lease_content self.now) }
    {
        let values = copied_values(alloc, &self.values)?;
        Ok(Lease4::new(self.name, self.terms(), values))
    }
}

/// A copy of the values of a lease.
pub fn copied_values(alloc: Global, values: &[Value]) -> Result<Vec<Value>, AllocError>
    ensures { IfOk result (λ all. values_content all.items ≡ values_content values.now) }
{
    let mut all = Vec::with_capacity(alloc, values.len())?;
    for value in values {
        all.push(Value {
            code: value.code,
            bytes: value.bytes.to_vec(alloc)?,
        })?;
    }
    Ok(all)
}

/// Whether an address is one that a host may have: its first byte is 1 to 223 and isn't 127 (RFC 1122, section
/// 3.2.1.3).
pub fn is_host_address(address: Ip4) -> bool
    ensures { result ≡ is_host_address address }
{
    let first = address.number >> 24;
    1 <= first && first <= 223 && first != 127
}
