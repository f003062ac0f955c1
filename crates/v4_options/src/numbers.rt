//! Values that are numbers and addresses.

ghost use Rattle.std.specs.Prelude.{◌≡◌, length, IfOk};
ghost use Rattle.std.specs.Option.{option_map};
ghost use Rattle.v4_options.specs.Numbers.{address, addresses, addr_in, addrs_in, u16_in, u32_in};

use byteorder::{BigEndian, ByteOrder};
use net_types::{Ip4, NoMemory};
use std::alloc::{AllocError, Global};

/// The address that is the value: options 1, 28 and 54. None unless it has 4 bytes.
pub fn addr_of(value: &[u8]) -> Option<Ip4>
    ensures { result ≡ addr_in value.now }
{
    if value.len() != 4 {
        return None;
    }
    Some(address_at(value))
}

/// The number that is the value: option 26. None unless it has 2 bytes.
pub fn u16_of(value: &[u8]) -> Option<u16>
    ensures { result ≡ u16_in value.now }
{
    if value.len() != 2 {
        return None;
    }
    Some(BigEndian::read_u16(value))
}

/// The number that is the value: options 51, 58 and 59. None unless it has 4 bytes.
pub fn u32_of(value: &[u8]) -> Option<u32>
    ensures { result ≡ u32_in value.now }
{
    if value.len() != 4 {
        return None;
    }
    Some(BigEndian::read_u32(value))
}

/// The addresses that are the value: options 3, 6 and 42. None unless it is one address or more.
pub fn addrs_of(alloc: Global, value: &[u8]) -> Result<Option<Vec<Ip4>>, NoMemory>
    ensures { IfOk result (λ all. option_map (λ v. v.items) all ≡ addrs_in value.now) }
{
    if value.is_empty() {
        return Ok(None);
    }
    if value.len() % 4 != 0 {
        return Ok(None);
    }
    match addresses(alloc, value) {
        Ok(all) => Ok(Some(all)),
        Err(_) => Err(NoMemory),
    }
}

fn addresses(alloc: Global, value: &[u8]) -> Result<Vec<Ip4>, AllocError>
    ensures { IfOk result (λ all. all.items ≡ addresses value.now) }
{
    let mut all = Vec::with_capacity(alloc, value.len() / 4)?;
    let mut rest = value;
    'addresses: while rest.len() >= 4 {
        let (octets, others) = rest.split_at(4);
        all.push(address_at(octets))?;
        rest = others;
    }
    Ok(all)
}

/// The address of four bytes.
pub(crate) fn address_at(octets: &[u8]) -> Ip4
    requires { length octets.now ≡ 4 }
    ensures { result ≡ address octets.now }
{
    Ip4 {
        number: BigEndian::read_u32(octets),
    }
}
