//! The host's interfaces.

ghost use Rattle.std.specs.Prelude.{◌≡◌, IfOk};
ghost use Rattle.made_script.specs.MadeHosts.{own_mac, own_name, iface_of, made_ifaces};

use net_types::{IfIndex, IfSpec, Mac, Name, NoMemory, name_of};
use std::alloc::Global;

/// How many interfaces the host has.
pub(crate) const INTERFACES: u8 = 64;
/// What stands in front of an interface's number in its hardware address.
pub(crate) const MAC_FRONT: [u8; 5] = [0x02, 0x00, 0x00, 0x00, 0x01];

/// The hardware address of an interface.
pub(crate) fn own_mac(index: u8) -> Mac
    ensures { result ≡ own_mac index }
{
    let [a, b, c, d, e] = MAC_FRONT;
    Mac {
        bytes: [a, b, c, d, e, index],
    }
}

/// The name of an interface: `eth` and its number.
fn own_name(alloc: Global, index: u8) -> Result<Name, NoMemory>
    ensures { IfOk result (λ name. name ≡ own_name index) }
{
    let text = format!(in alloc; "eth{index}")?;
    match name_of(text.as_bytes()) {
        Some(name) => Ok(name),
        None => unreachable!(),
    }
}

/// The interface with this number.
fn own_iface(alloc: Global, index: u8) -> Result<IfSpec, NoMemory>
    ensures { IfOk result (λ iface. iface ≡ iface_of index) }
{
    Ok(IfSpec {
        index: IfIndex {
            number: u32::from(index),
        },
        name: own_name(alloc, index)?,
        mac: own_mac(index),
    })
}

/// The interfaces, by their numbers.
pub(crate) fn made_ifaces(alloc: Global) -> Result<Vec<IfSpec>, NoMemory>
    ensures { IfOk result (λ ifaces. ifaces.items ≡ made_ifaces) }
{
    let mut ifaces = Vec::with_capacity(alloc, usize::from(INTERFACES))?;
    for index in 1..=INTERFACES {
        ifaces.push(own_iface(alloc, index)?)?;
    }
    Ok(ifaces)
}
