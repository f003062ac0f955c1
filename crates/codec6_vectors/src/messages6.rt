//! DHCPv6 messages, and their frames.

ghost use Rattle.std.specs.Prelude.{◌≤◌, length, IfOk};

use crate::asking::{long, mac, text, word};
use net_types::{Hex, Mac, Net6, NoMemory, append_text, read_net6};
use std::alloc::Global;
use v6_frames::{build6, heard6_of};
use v6_message::{Bad6, IaAsked, Kind6, Msg6, Said6, ias_of, read6, write6};
use v6_options::{Duid, IaKind, IaSaid, dns6_of, search6_of};

/// The hardware address of the client.
const MAC: Mac = Mac {
    bytes: [2, 0, 0, 0, 0, 1],
};

/// Its DUID: DUID-LL, Ethernet, 02:00:00:00:00:01 (RFC 8415, section 11.4).
const CLIENT: [u8; 10] = *b"\x00\x03\x00\x01\x02\x00\x00\x00\x00\x01";

/// Why bytes are no message.
fn fault_said(alloc: Global, fault: Bad6) -> Result<String, NoMemory> {
    match fault {
        Bad6::Malformed { place } => Ok(format!(in alloc; "{fault} at {place}")?),
        _ => Ok(format!(in alloc; "{fault}")?),
    }
}

/// An IA with its addresses or prefixes.
fn ia_said(alloc: Global, ia: &IaSaid) -> Result<String, NoMemory> {
    let (kind, iaid, status) = (ia.kind, ia.iaid, ia.status.number);
    let mut said = format!(in alloc;
        "; {kind:?} {iaid} t1 {} t2 {} status {status}",
        ia.t1, ia.t2
    )?;
    for item in &ia.items {
        let (net, preferred, valid) = (item.net, item.preferred, item.valid);
        append_text(format_args!(", {net} {preferred} {valid}"), &mut said)?;
    }
    Ok(said)
}

/// The DUID of an end.
fn end_said(alloc: Global, duid: Option<&[u8]>) -> Result<String, NoMemory> {
    match duid {
        Some(duid) => Ok(format!(in alloc; "{}", Hex(duid))?),
        None => Ok("none".to_string(alloc)?),
    }
}

/// How many servers of names and how many names a message has.
fn lists_said(alloc: Global, message: &Msg6<'_>) -> Result<String, NoMemory> {
    let servers = dns6_of(alloc, message.dns)?.map(|servers| servers.len());
    let names = search6_of(alloc, message.search)?.map(|names| names.len());
    Ok(format!(in alloc; "servers {servers:?} names {names:?}")?)
}

/// A server's message.
fn message_said(alloc: Global, message: &Msg6<'_>) -> Result<String, NoMemory> {
    let (client, server) = (
        end_said(alloc, message.client)?,
        end_said(alloc, message.server)?,
    );
    let lists = lists_said(alloc, message)?;
    let (kind, xid, status) = (message.kind, message.xid, message.status.number);
    let (preference, rapid) = (message.preference, message.rapid);
    let mut said = format!(in alloc;
        "{kind:?} {xid} of {server} for {client} status {status} preference {preference} rapid {rapid} {lists}"
    )?;
    for ia in &ias_of(alloc, message)? {
        said.push_str(ia_said(alloc, ia)?.as_str())?;
    }
    Ok(said)
}

/// What bytes are as a server's message.
fn read_said(alloc: Global, payload: &[u8]) -> Result<String, NoMemory> {
    match read6(payload) {
        Ok(message) => message_said(alloc, &message),
        Err(fault) => fault_said(alloc, fault),
    }
}

/// A client's IA_NA of IAID 1 with an address, or without one.
fn asked_for(alloc: Global, address: Option<Net6>) -> Result<Vec<IaAsked>, NoMemory>
    ensures { IfOk result (λ ias. length ias.items ≤ 1) }
{
    let mut items = Vec::new(alloc);
    if let Some(address) = address {
        items.push(address)?;
    }
    let mut ias = Vec::new(alloc);
    ias.push(IaAsked {
        kind: IaKind::Na,
        iaid: 1,
        items,
    })?;
    Ok(ias)
}

/// What the client says: a kind, the exchange, the elapsed time, the server's DUID and an address.
fn said_of(alloc: Global, arguments: &[Vec<u8>]) -> Result<Option<Said6>, NoMemory> {
    let [kind, xid, elapsed, server, address] = arguments else {
        return Ok(None);
    };
    let kind = match text(kind) {
        "solicit" => Kind6::Solicit,
        "decline" => Kind6::Decline,
        _ => return Ok(None),
    };
    let (Some(xid), Some(elapsed)) = (long(xid), word(elapsed)) else {
        return Ok(None);
    };
    Ok(Some(Said6 {
        kind,
        xid,
        elapsed,
        server: Duid::new(alloc, server)?,
        rapid: false,
        ias: asked_for(alloc, read_net6(text(address)).ok())?,
    }))
}

/// The bytes of a client's message, or of its frame.
fn written(
    alloc: Global,
    arguments: &[Vec<u8>],
    is_framed: bool,
) -> Result<Option<String>, NoMemory> {
    let Some(said) = said_of(alloc, arguments)? else {
        return Ok(None);
    };
    let Some(client) = Duid::new(alloc, &CLIENT)? else {
        return Ok(None);
    };
    let bytes = if is_framed {
        build6(alloc, MAC, &said, &client)?
    } else {
        write6(alloc, &said, &client)?
    };
    Ok(Some(format!(in alloc; "{}", Hex(&bytes))?))
}

/// What a frame has for the client at a hardware address.
fn heard_said(alloc: Global, at: &[u8], frame: &[u8]) -> Result<Option<String>, NoMemory> {
    let Some(at) = mac(at) else {
        return Ok(None);
    };
    match heard6_of(at, frame) {
        Some(heard) => {
            let (kind, source) = (heard.message.kind, heard.source);
            let preference = heard.message.preference;
            Ok(Some(format!(in alloc; "{kind:?} of preference {preference} from {source}")?))
        }
        None => Ok(Some("none".to_string(alloc)?)),
    }
}

/// The answer to a vector of messages.
pub(crate) fn answer(
    alloc: Global,
    asked: &str,
    arguments: &[Vec<u8>],
) -> Result<Option<String>, NoMemory> {
    match (asked, arguments) {
        ("read6", [payload]) => Ok(Some(read_said(alloc, payload)?)),
        ("write6", _) => written(alloc, arguments, false),
        ("frame6", _) => written(alloc, arguments, true),
        ("heard6", [at, frame]) => heard_said(alloc, at, frame),
        _ => Ok(None),
    }
}
