//! Ethernet frames, ARP packets and datagrams of UDP.

use crate::asking::{ip4, ip6, mac, word};
use frame_link::{arp_frame, arp_of, eth_of};
use net_types::{Hex, NoMemory};
use std::alloc::Global;
use udp_frame::{Ends4, Ends6, build_udp4, build_udp6, link_local_of, udp4_of, udp6_of};

/// The ends of a frame, its kind and how long its body is.
fn eth_said(alloc: Global, frame: &[u8]) -> Result<String, NoMemory> {
    match eth_of(frame) {
        Some(eth) => Ok(format!(in alloc;
            "{} to {} kind {} of {} bytes",
            eth.from,
            eth.to,
            eth.kind,
            eth.body.len()
        )?),
        None => Ok("none".to_string(alloc)?),
    }
}

/// The ARP packet of a frame.
fn arp_said(alloc: Global, frame: &[u8]) -> Result<String, NoMemory> {
    let Some(eth) = eth_of(frame) else {
        return Ok("no frame".to_string(alloc)?);
    };
    match arp_of(eth.body) {
        Some(packet) => Ok(format!(in alloc;
            "operation {} of {} {} for {}",
            packet.op, packet.sender_mac, packet.sender, packet.target
        )?),
        None => Ok("no packet".to_string(alloc)?),
    }
}

/// The frame of an ARP request.
fn arp_request(alloc: Global, arguments: &[Vec<u8>]) -> Result<Option<String>, NoMemory> {
    let [from, sender, target] = arguments else {
        return Ok(None);
    };
    let (Some(from), Some(sender), Some(target)) = (mac(from), ip4(sender), ip4(target)) else {
        return Ok(None);
    };
    Ok(Some(format!(in alloc; "{}", Hex(&arp_frame(from, sender, target)))?))
}

/// The datagram of a packet of IPv4.
fn udp4_said(alloc: Global, body: &[u8]) -> Result<String, NoMemory> {
    match udp4_of(body) {
        Some(heard) => Ok(format!(in alloc;
            "{} port {} to {} port {}: {}",
            heard.from,
            heard.from_port,
            heard.to,
            heard.to_port,
            Hex(heard.payload)
        )?),
        None => Ok("none".to_string(alloc)?),
    }
}

/// The datagram of a packet of IPv6.
fn udp6_said(alloc: Global, body: &[u8]) -> Result<String, NoMemory> {
    match udp6_of(body) {
        Some(heard) => Ok(format!(in alloc;
            "{} port {} to {} port {}: {}",
            heard.from,
            heard.from_port,
            heard.to,
            heard.to_port,
            Hex(heard.payload)
        )?),
        None => Ok("none".to_string(alloc)?),
    }
}

/// The two ends of a frame: each a hardware address, an address and a port.
fn ends4(from: &[Vec<u8>], to: &[Vec<u8>]) -> Option<(Ends4, u16, u16)> {
    let ([from_mac, from, from_port], [to_mac, to, to_port]) = (from, to) else {
        return None;
    };
    let ends = Ends4 {
        from_mac: mac(from_mac)?,
        to_mac: mac(to_mac)?,
        from: ip4(from)?,
        to: ip4(to)?,
    };
    Some((ends, word(from_port)?, word(to_port)?))
}

/// The same of IPv6.
fn ends6(from: &[Vec<u8>], to: &[Vec<u8>]) -> Option<(Ends6, u16, u16)> {
    let ([from_mac, from, from_port], [to_mac, to, to_port]) = (from, to) else {
        return None;
    };
    let ends = Ends6 {
        from_mac: mac(from_mac)?,
        to_mac: mac(to_mac)?,
        from: ip6(from)?,
        to: ip6(to)?,
    };
    Some((ends, word(from_port)?, word(to_port)?))
}

/// How many bytes a datagram may carry.
const PAYLOAD_MAX: usize = 1472;

/// The frame of a datagram between two ends.
fn udp4_frame(alloc: Global, arguments: &[Vec<u8>]) -> Result<Option<String>, NoMemory> {
    let Some((payload, ends)) = arguments.split_last() else {
        return Ok(None);
    };
    if ends.len() != 6 || payload.len() > PAYLOAD_MAX {
        return Ok(None);
    }
    let (from, to) = ends.split_at(3);
    let Some((ends, from_port, to_port)) = ends4(from, to) else {
        return Ok(None);
    };
    let frame = build_udp4(alloc, &ends, from_port, to_port, payload)?;
    Ok(Some(format!(in alloc; "{}", Hex(&frame))?))
}

/// The same of IPv6.
fn udp6_frame(alloc: Global, arguments: &[Vec<u8>]) -> Result<Option<String>, NoMemory> {
    let Some((payload, ends)) = arguments.split_last() else {
        return Ok(None);
    };
    if ends.len() != 6 || payload.len() > PAYLOAD_MAX {
        return Ok(None);
    }
    let (from, to) = ends.split_at(3);
    let Some((ends, from_port, to_port)) = ends6(from, to) else {
        return Ok(None);
    };
    let frame = build_udp6(alloc, &ends, from_port, to_port, payload)?;
    Ok(Some(format!(in alloc; "{}", Hex(&frame))?))
}

/// The answer to a vector of frames.
pub(crate) fn answer(
    alloc: Global,
    word: &str,
    arguments: &[Vec<u8>],
) -> Result<Option<String>, NoMemory> {
    match (word, arguments) {
        ("eth", [frame]) => Ok(Some(eth_said(alloc, frame)?)),
        ("arp", [frame]) => Ok(Some(arp_said(alloc, frame)?)),
        ("udp4", [body]) => Ok(Some(udp4_said(alloc, body)?)),
        ("udp6", [body]) => Ok(Some(udp6_said(alloc, body)?)),
        ("link-local", [address]) => match mac(address) {
            Some(address) => Ok(Some(format!(in alloc; "{}", link_local_of(address))?)),
            None => Ok(None),
        },
        ("arp-request", _) => arp_request(alloc, arguments),
        ("udp4-frame", _) => udp4_frame(alloc, arguments),
        ("udp6-frame", _) => udp6_frame(alloc, arguments),
        _ => Ok(None),
    }
}
