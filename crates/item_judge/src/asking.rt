//! The DHCPv6 exchange that an interface has open.

ghost use Rattle.std.specs.Prelude.{◌≡◌, Some, IfOk};
ghost use Rattle.std.specs.Option.{option_map};
ghost use Rattle.v6_message.specs.Shown.{message_shown};
ghost use Rattle.own_frames6.specs.Shown.{said_shown};
ghost use Rattle.lease6_evidence.specs.Exchanges6 as exchanges;
ghost use Rattle.lease6_evidence.specs.Replies6 as replies;
ghost use Rattle.item_judge.specs.Asking as states;
ghost use Rattle.item_judge.specs.Kept.{asking_content, named_content};

use net_types::NoMemory;
use own_frames6::SaidView;
use std::alloc::Global;
use v6_client::is_duid;
use v6_message::{Kind6, ServerKind6};

/// The server that the messages of an exchange name.
#[derive(Drop)]
pub(crate) enum Named {
    Nobody,
    One(Vec<u8>),
    /// They name unlike ones: none may answer.
    Unlike,
}

/// An exchange (RFC 8415, section 16): its transaction id, the server that its messages name, whether one of them is a
/// SOLICIT, and whether a good Reply came in it.
#[derive(Drop)]
pub(crate) struct Asking {
    pub xid: u32,
    pub named: Named,
    pub solicits: bool,
    pub answered: bool,
}

fn copied(alloc: Global, bytes: &[u8]) -> Result<Vec<u8>, NoMemory>
    ensures { IfOk result (λ copy. copy.items ≡ bytes.now) }
{
    match Vec::from_slice(alloc, bytes) {
        Ok(copy) => Ok(copy),
        Err(_) => Err(NoMemory),
    }
}

fn names_too(alloc: Global, named: Named, server: &[u8]) -> Result<Named, NoMemory>
    ensures { IfOk result (λ both. named_content both ≡ states.names_too server.now (named_content named)) }
{
    match named {
        Named::Nobody => Ok(Named::One(copied(alloc, server)?)),
        Named::One(other) => {
            if server == other.as_slice() {
                return Ok(Named::One(other));
            }
            Ok(Named::Unlike)
        }
        Named::Unlike => Ok(Named::Unlike),
    }
}

fn with_server(alloc: Global, server: Option<&[u8]>, named: Named) -> Result<Named, NoMemory>
    ensures { IfOk result
        (λ both. named_content both ≡ states.with_server (option_map (λ v. v.now) server.entry) (named_content named)) }
{
    match server {
        Some(server) => names_too(alloc, named, server),
        None => Ok(named),
    }
}

fn is_named(named: &Named, server: &[u8]) -> bool
    ensures { result ≡ states.is_named (named_content named.now) server.now }
{
    match named {
        Named::Nobody => true,
        Named::One(other) => server == other.as_slice(),
        Named::Unlike => false,
    }
}

/// Whether a message is of a server that may answer.
pub(crate) fn is_from(named: &Named, server: Option<&[u8]>) -> bool
    ensures { result ≡ states.is_from (named_content named.now) (option_map (λ v. v.now) server.entry) }
{
    match server {
        Some(server) => is_duid(server) && is_named(named, server),
        None => false,
    }
}

fn is_solicit(kind: Kind6) -> bool
    ensures { result ≡ exchanges.is_solicit kind }
{
    match kind {
        Kind6::Solicit => true,
        Kind6::Request | Kind6::Renew | Kind6::Rebind | Kind6::Release | Kind6::Decline => false,
    }
}

/// Whether a message asks for a Reply (RFC 8415, section 18.2.1).
fn asks_reply(kind: Kind6, rapid: bool) -> bool
    ensures { result ≡ exchanges.asks_reply kind rapid }
{
    match kind {
        Kind6::Solicit => rapid,
        Kind6::Request | Kind6::Renew | Kind6::Rebind => true,
        Kind6::Release | Kind6::Decline => false,
    }
}

pub(crate) fn is_reply(kind: ServerKind6) -> bool
    ensures { result ≡ replies.is_reply kind }
{
    match kind {
        ServerKind6::Advertise => false,
        ServerKind6::Reply => true,
    }
}

/// The exchange that a message opens.
fn begun(alloc: Global, said: &SaidView) -> Result<Asking, NoMemory>
    ensures { IfOk result (λ asking. asking_content asking ≡ states.begun (said_shown said.now)) }
{
    Ok(Asking {
        xid: said.xid,
        named: with_server(alloc, said.server, Named::Nobody)?,
        solicits: is_solicit(said.kind),
        answered: false,
    })
}

/// The exchange with one more message.
fn joined(alloc: Global, said: &SaidView, asking: Asking) -> Result<Asking, NoMemory>
    ensures { IfOk result (λ both. asking_content both ≡ states.joined (said_shown said.now) (asking_content asking)) }
{
    Ok(Asking {
        xid: asking.xid,
        named: with_server(alloc, said.server, asking.named)?,
        solicits: asking.solicits || is_solicit(said.kind),
        answered: asking.answered,
    })
}

fn asked(alloc: Global, said: &SaidView, asking: Option<Asking>) -> Result<Asking, NoMemory>
    ensures { IfOk result
        (λ next. asking_content next ≡ states.asked (said_shown said.now) (option_map asking_content asking)) }
{
    match asking {
        Some(asking) => {
            if said.xid == asking.xid {
                return joined(alloc, said, asking);
            }
            begun(alloc, said)
        }
        None => begun(alloc, said),
    }
}

/// The open exchange after one of the interface's own messages.
pub(crate) fn said_next(
    alloc: Global,
    said: &SaidView,
    asking: Option<Asking>,
) -> Result<Option<Asking>, NoMemory>
    ensures { IfOk result (λ next. option_map asking_content next
        ≡ states.said_next (said_shown said.now) (option_map asking_content asking)) }
{
    if !asks_reply(said.kind, said.rapid) {
        return Ok(None);
    }
    Ok(Some(asked(alloc, said, asking)?))
}
