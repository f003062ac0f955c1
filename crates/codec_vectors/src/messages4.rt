//! DHCPv4 messages, and their frames.

use crate::asking::{ip4, long, mac, text, word};
use net_types::{Hex, Ip4, Mac, NoMemory};
use server_data::{Reply, ReplyKind, server_data};
use std::alloc::Global;
use udp_frame::Ends4;
use v4_frames::{EVERY_MAC, Sent4, Speaker, build4, heard4_of};
use v4_message::{Ask4, Bad4, Kind4, Said4, read4, write4};
use v4_options::{code, value};

/// The hardware address of the client.
const MAC: Mac = Mac {
    bytes: [2, 0, 0, 0, 0, 1],
};

/// The codes that it wants.
const LIST: [u8; 11] = [1, 121, 3, 6, 15, 28, 51, 54, 58, 59, 119];

/// Why bytes are no message.
fn fault_said(alloc: Global, fault: Bad4) -> Result<String, NoMemory> {
    match fault {
        Bad4::Malformed { place } => Ok(format!(in alloc; "{fault} at {place}")?),
        _ => Ok(format!(in alloc; "{fault}")?),
    }
}

/// A server's message, with its servers of names.
fn read_said(alloc: Global, payload: &[u8]) -> Result<String, NoMemory> {
    let message = match read4(payload) {
        Ok(message) => message,
        Err(fault) => return fault_said(alloc, fault),
    };
    let servers = match value(alloc, &message.options, code::DOMAIN_NAME_SERVERS)? {
        Some(servers) => format!(in alloc; "{}", Hex(&servers))?,
        None => "none".to_string(alloc)?,
    };
    let (kind, xid) = (message.kind, message.xid);
    let (yiaddr, chaddr) = (message.yiaddr, message.chaddr);
    Ok(format!(in alloc; "{kind:?} {xid} {yiaddr} for {chaddr}, servers of names {servers}")?)
}

/// The kind of a client's message.
fn kind_of(argument: &[u8]) -> Option<Kind4> {
    match text(argument) {
        "discover" => Some(Kind4::Discover),
        "request" => Some(Kind4::Request),
        "decline" => Some(Kind4::Decline),
        "release" => Some(Kind4::Release),
        _ => None,
    }
}

/// What the client says in the exchange 1: a kind, the address that it has, the one that it asks for, and the server.
fn said_of(kind: &[u8], ciaddr: &[u8], asked: &[u8], server: &[u8]) -> Option<Said4> {
    Some(Said4 {
        kind: kind_of(kind)?,
        xid: 1,
        secs: 0,
        flags: 0,
        ciaddr: ip4(ciaddr)?,
        mac: MAC,
        asked: ip4(asked),
        server: ip4(server),
    })
}

/// The longest vendor and host name.
const TEXT_MAX: usize = 255;

/// The bytes of a client's message, or of its frame to all hosts.
fn written(
    alloc: Global,
    arguments: &[Vec<u8>],
    is_framed: bool,
) -> Result<Option<String>, NoMemory> {
    let [kind, ciaddr, asked, server, vendor, host] = arguments else {
        return Ok(None);
    };
    let Some(said) = said_of(kind, ciaddr, asked, server) else {
        return Ok(None);
    };
    if vendor.len() > TEXT_MAX || host.len() > TEXT_MAX {
        return Ok(None);
    }
    let ask = Ask4 {
        client_id: Vec::from_slice(alloc, &[1, 2, 0, 0, 0, 0, 1])?,
        vendor: vendor.to_vec(alloc)?,
        host: host.to_vec(alloc)?,
        list: Vec::from_slice(alloc, &LIST)?,
    };
    let bytes = if is_framed {
        build4(alloc, &sent_from(Ip4::UNSPECIFIED, said), &ask)?
    } else {
        write4(alloc, &said, &ask)?
    };
    Ok(Some(format!(in alloc; "{}", Hex(&bytes))?))
}

/// A message of the client to all hosts.
fn sent_from(from: Ip4, said: Said4) -> Sent4 {
    Sent4 {
        ends: Ends4 {
            from_mac: MAC,
            to_mac: EVERY_MAC,
            from,
            to: Ip4::BROADCAST,
        },
        said,
    }
}

/// A message to all hosts: its kind, flags, seconds, the address that the client has, and the one that it goes from.
fn sent_of(arguments: &[Vec<u8>]) -> Option<Sent4> {
    let [kind, flags, secs, ciaddr, from] = arguments else {
        return None;
    };
    let said = Said4 {
        flags: word(flags)?,
        secs: word(secs)?,
        ..said_of(kind, ciaddr, &[], &[])?
    };
    Some(sent_from(ip4(from)?, said))
}

/// Whether a client that asks for no broadcast may say such a message.
fn ours_said(alloc: Global, arguments: &[Vec<u8>]) -> Result<Option<String>, NoMemory> {
    let Some(sent) = sent_of(arguments) else {
        return Ok(None);
    };
    let speaker = Speaker {
        mac: MAC,
        broadcast: false,
    };
    Ok(Some(format!(in alloc; "{}", speaker.is_ours(&sent))?))
}

/// What a frame has for the client at a hardware address.
fn heard_said(alloc: Global, at: &[u8], frame: &[u8]) -> Result<Option<String>, NoMemory> {
    let Some(at) = mac(at) else {
        return Ok(None);
    };
    match heard4_of(at, frame) {
        Some(heard) => {
            let (kind, source) = (heard.message.kind, heard.source);
            Ok(Some(format!(in alloc; "{kind:?} from {source}")?))
        }
        None => Ok(Some("none".to_string(alloc)?)),
    }
}

/// A server's message: its kind, the client, the exchange, the client's address, the server and the lease time.
fn reply_of(arguments: &[Vec<u8>]) -> Option<Reply> {
    let [kind, chaddr, xid, yiaddr, server, lease] = arguments else {
        return None;
    };
    let kind = match text(kind) {
        "offer" => ReplyKind::Offer,
        "ack" => ReplyKind::Ack,
        "nak" => ReplyKind::Nak,
        _ => return None,
    };
    Some(Reply {
        kind,
        chaddr: mac(chaddr)?,
        xid: long(xid)?,
        yiaddr: ip4(yiaddr)?,
        server: ip4(server)?,
        lease: long(lease)?,
    })
}

/// The answer to a vector of messages.
pub(crate) fn answer(
    alloc: Global,
    word: &str,
    arguments: &[Vec<u8>],
) -> Result<Option<String>, NoMemory> {
    match (word, arguments) {
        ("read4", [payload]) => Ok(Some(read_said(alloc, payload)?)),
        ("write4", _) => written(alloc, arguments, false),
        ("frame4", _) => written(alloc, arguments, true),
        ("ours", _) => ours_said(alloc, arguments),
        ("heard4", [at, frame]) => heard_said(alloc, at, frame),
        ("server", _) => match reply_of(arguments) {
            Some(reply) => {
                let data = server_data(alloc, &reply)?;
                Ok(Some(format!(in alloc; "{}", Hex(&data))?))
            }
            None => Ok(None),
        },
        _ => Ok(None),
    }
}
