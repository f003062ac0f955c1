//! Addresses whose prefix length need not be written.
ghost use Rattle.std.specs.Prelude.{◌≡◌};
ghost use Rattle.conf_values.specs.Nets.{class_len, own_net, server_net};

use crate::words::Word;
use net_types::{Ip4, Net4, NoMemory, ip4_of, net4_of};
use std::alloc::Global;

/// The length of a net of one address.
const HOST_LEN: u8 = 32;

/// The length of an address by its class (RFC 791, section 3.2).
fn class_len(address: Ip4) -> u8
    ensures { result ≡ class_len address }
{
    let first = address.number >> 24;
    if first < 128 {
        8
    } else if first < 192 {
        16
    } else {
        24
    }
}

/// A net of servers: an address alone is that of one.
fn server_net(text: &[u8]) -> Option<Net4>
    ensures { result ≡ server_net text.now }
{
    if let Some(net) = net4_of(text) {
        return Some(net);
    }
    let ip = ip4_of(text)?;
    Some(Net4 { ip, len: HOST_LEN })
}

/// The address of an interface: alone, its length is that of its class.
pub fn own_net(text: &[u8]) -> Option<Net4>
    ensures { result ≡ own_net text.now }
{
    if let Some(net) = net4_of(text) {
        return Some(net);
    }
    let ip = ip4_of(text)?;
    let len = class_len(ip);
    Some(Net4 { ip, len })
}

impl Word for Ip4 {
    ghost use Rattle.net_types.specs.AddressText.{ip4_at};

    ghost spelled = { ip4_at };

    fn of_word(_alloc: Global, word: &[u8]) -> Result<Option<Ip4>, NoMemory> {
        Ok(ip4_of(word))
    }
}

impl Word for Net4 {
    ghost use Rattle.conf_values.specs.Nets.{server_net};

    ghost spelled = { server_net };

    fn of_word(_alloc: Global, word: &[u8]) -> Result<Option<Net4>, NoMemory> {
        Ok(server_net(word))
    }
}
