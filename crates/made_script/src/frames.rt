//! What the server says.

ghost use Rattle.std.specs.Prelude.{◌≡◌, IfOk};
ghost use Rattle.replay_text.specs.ScriptContent.{given_of};
ghost use Rattle.made_script.specs.MadeReplies.{reply_to, reply_given};

use crate::hosts::own_mac;
use net_types::{Ip4, NoMemory};
use replay_text::TurnLine;
use server_data::{Reply, ReplyKind, SERVER, server_frame};
use std::alloc::Global;
use world::{Event, Wake};

/// 10.0.0.100: interface `i` gets the address that is `i` beyond it.
pub(crate) const ADDRESS_BASE: Ip4 = Ip4 {
    number: 0x0a00_0064,
};
/// How long a lease lasts, in seconds.
pub(crate) const LEASE: u32 = 3600;
/// The random word of each turn, and of the beginning.
pub(crate) const SALT: u64 = 0;

/// A message to an interface.
#[derive(Clone, Copy, PartialEq, Eq)]
pub(crate) struct ReplyTo {
    pub(crate) index: u8,
    pub(crate) kind: ReplyKind,
    pub(crate) xid: u32,
}

/// What the server says in a message to an interface.
fn reply_to(to: ReplyTo) -> Reply
    ensures { result ≡ reply_to to }
{
    Reply {
        kind: to.kind,
        chaddr: own_mac(to.index),
        xid: to.xid,
        yiaddr: Ip4 {
            number: ADDRESS_BASE.number + u32::from(to.index),
        },
        server: SERVER,
        lease: LEASE,
    }
}

/// The turn in which the frame of a message comes in.
pub(crate) fn reply_turn(alloc: Global, at: u64, to: ReplyTo) -> Result<TurnLine, NoMemory>
    ensures { IfOk result (λ turn. given_of turn ≡ reply_given at to) }
{
    let bytes = server_frame(alloc, &reply_to(to))?;
    let event = Event::Frame {
        iface: u32::from(to.index),
        len: bytes.len(),
    };
    Ok(TurnLine {
        wake: Wake {
            at,
            salt: SALT,
            event,
        },
        bytes,
    })
}
