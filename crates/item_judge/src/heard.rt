//! Good Replies, and the turn that they come in.

ghost use Rattle.std.specs.Prelude.{◌≡◌, IfOk};
ghost use Rattle.std.specs.Option.{option_map};
ghost use Rattle.v6_message.specs.Shown.{message_shown};
ghost use Rattle.v6_items.specs.Reading.{serves};
ghost use Rattle.evidence_words.specs.Inputs as inputs;
ghost use Rattle.audit_words.specs.Shown.{entry_shown, site_shown};
ghost use Rattle.lease6_evidence.specs.Replies6.{asks_at, message6_at};
ghost use Rattle.lease6_judge.specs.Terms.{stays};
ghost use Rattle.item_judge.specs.Asking as states;
ghost use Rattle.item_judge.specs.Kept.{asking_content, heard_content};
ghost use Rattle.item_judge.specs.Turns.{reported_at};

use crate::asking::{Asking, is_from, is_reply};
use audit_words::{Entry, Site};
use iface_machines::asks_of;
use net_types::{Ip6, NoMemory};
use std::alloc::Global;
use v6_client::has_bytes;
use v6_frames::heard6_of;
use v6_items::serves;
use v6_message::Msg6;
use world::Event;

/// A good Reply, and whether it is the first one of its exchange.
#[derive(Clone, Copy)]
pub(crate) struct Heard<'a> {
    pub message: Msg6<'a>,
    pub is_new: bool,
}

/// Whether the interface has carrier after an input.
pub(crate) fn carrier_after(index: u32, event: Event, before: bool) -> bool
    ensures { result ≡ inputs.carrier_after index event before }
{
    match event {
        Event::Carrier { iface, up } if index == iface => up,
        _ => before,
    }
}

/// Whether no carrier is taken from an interface that has it, nothing of it is given back, and no stop comes.
pub(crate) fn stays(up: bool, index: u32, event: Event) -> bool
    ensures { result ≡ stays up index event }
{
    match event {
        Event::Carrier { iface, up: now } => !(index == iface && up) || now,
        Event::Release { iface } => index != iface,
        Event::Stop => false,
        Event::Frame { .. }
        | Event::Duplicate { .. }
        | Event::Rebind { .. }
        | Event::Quiet
        | Event::End => true,
    }
}

/// The address that another host is reported to use on the interface.
pub(crate) fn reported_at(index: u32, event: Event) -> Option<Ip6>
    ensures { result ≡ reported_at index event }
{
    match event {
        Event::Duplicate { iface, addr } if index == iface => Some(addr),
        _ => None,
    }
}

/// The server's message that came in on the interface.
pub(crate) fn message6_at<'a>(site: &Site, entry: &'a Entry) -> Option<Msg6<'a>>
    ensures { option_map message_shown result ≡ message6_at (site_shown site.now) (entry_shown entry.now) }
{
    match entry.event {
        Event::Frame { iface, .. } if site.index() == iface => {
            let heard = heard6_of(site.managed.spec.mac, &entry.bytes)?;
            Some(heard.message)
        }
        _ => None,
    }
}

fn serves_site(alloc: Global, site: &Site, message: &Msg6) -> Result<bool, NoMemory>
    ensures { IfOk result (λ serving. serving ≡ serves (asks_at (site_shown site.now)) (message_shown message.now)) }
{
    match asks_of(alloc, &site.managed.conf.dhcp6.ias) {
        Ok(asks) => Ok(serves(&asks, message)),
        Err(_) => Err(NoMemory),
    }
}

/// Whether a message is a Reply of an exchange.
fn answers(site: &Site, asking: &Asking, message: &Msg6) -> bool
    ensures { result ≡ states.answers_in (site_shown site.now) (asking_content asking.now) (message_shown message.now) }
{
    is_reply(message.kind)
        && message.xid == asking.xid
        && has_bytes(message.client, site.duid.as_slice())
        && is_from(&asking.named, message.server)
        && (message.rapid || !asking.solicits)
}

/// Whether a message is a good Reply in an exchange.
fn is_good(alloc: Global, site: &Site, asking: &Asking, message: &Msg6) -> Result<bool, NoMemory>
    ensures { IfOk result (λ good. good
        ≡ states.is_good (site_shown site.now) (asking_content asking.now) (message_shown message.now)) }
{
    if !answers(site, asking, message) {
        return Ok(false);
    }
    serves_site(alloc, site, message)
}

fn heard_in<'a>(
    alloc: Global,
    site: &Site,
    asking: &Asking,
    message: Msg6<'a>,
) -> Result<Option<Heard<'a>>, NoMemory>
    ensures { IfOk result (λ heard. option_map heard_content heard
        ≡ states.heard_in (site_shown site.now) (asking_content asking.now) (message_shown message.entry)) }
{
    if !is_good(alloc, site, asking, &message)? {
        return Ok(None);
    }
    Ok(Some(Heard {
        message,
        is_new: !asking.answered,
    }))
}

/// The good Reply that came, where an exchange is open.
pub(crate) fn heard_by<'a>(
    alloc: Global,
    site: &Site,
    asking: &Option<Asking>,
    came: Option<Msg6<'a>>,
) -> Result<Option<Heard<'a>>, NoMemory>
    ensures { IfOk result (λ heard. option_map heard_content heard
        ≡ states.heard_by (site_shown site.now) (option_map asking_content asking.now)
        (option_map message_shown came.entry)) }
{
    let Some(asking) = asking else {
        return Ok(None);
    };
    match came {
        Some(message) => heard_in(alloc, site, asking, message),
        None => Ok(None),
    }
}
