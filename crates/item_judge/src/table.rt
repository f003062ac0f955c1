//! The items that are held of one IA which an interface asks for.

ghost use Rattle.std.specs.Prelude.{◌≡◌, ◌<◌, ◌^◌, IfOk, OnOk};
ghost use Rattle.std.specs.Option.{option_map};
ghost use Rattle.net_types.specs.declared.address.Net6.{Net6};
ghost use Rattle.v6_message.specs.Shown.{message_shown};
ghost use Rattle.lease6_judge.specs.HeardTerms.{heard_from, if_unrevised};
ghost use Rattle.lease6_judge.specs.Terms.{if_left, is_held, names, not_held, revises};
ghost use Rattle.item_judge.specs.Kept.{heard_content};
ghost use Rattle.item_judge.specs.Tables.{term_at};
ghost use Rattle.item_judge.specs.Telling.{term_next};
ghost use Rattle.item_judge.specs.Turns.{FitsKind, IsTurned, alone_by};
ghost use Rattle.item_judge.specs.Walks.{if_revised};

use crate::heard::Heard;
use crate::reading::hold_all;
use crate::terms::Terms;
use net_types::{Ip6, Net6, NoMemory};
use std::alloc::Global;
use v6_items::{IaAsk, ia_for, is_unbound, saids_of};
use v6_message::Msg6;
use v6_options::{IaKind, ItemSaid};

/// The length of an address, in bits.
pub(crate) const ADDRESS_BITS: u8 = 128;

/// What a turn is to the items that are held.
#[derive(Clone, Copy)]
pub(crate) struct Turn<'a> {
    /// Whether what is held may stay.
    pub stays: bool,
    /// The address that another host is reported to use.
    pub reported: Option<Ip6>,
    /// Milliseconds since 1970.
    pub came: u64,
    /// The good Reply that came.
    pub heard: Option<Heard<'a>>,
}

/// An IA that the interface asks for, and how long each item of it is held.
#[derive(Drop)]
pub(crate) struct ItemTable {
    pub ask: IaAsk,
    pub terms: Terms,
}

/// Lets the items of a list go.
fn remove_all(terms: &mut Terms, saids: &[ItemSaid])
    ensures { (net : Net6) → term_at terms.new net ≡ if_revised (names net saids.now) (term_at terms.old net) }
{
    'saids: for said in saids {
        terms.remove(said.net);
    }
}

/// Lets go what the first good Reply of an exchange revises: the items that it names, or all of an IA of which its
/// server knows nothing.
fn take_back(terms: &mut Terms, alloc: Global, ask: IaAsk, message: &Msg6) -> Result<(), NoMemory>
    ensures { OnOk result ((net : Net6)
        → term_at terms.new net ≡ if_revised (revises ask net (message_shown message.now)) (term_at terms.old net)) }
{
    let ia = ia_for(ask, message.options);
    if is_unbound(ia) {
        *terms = Terms::new(alloc);
        return Ok(());
    }
    let saids = saids_of(alloc, ia)?;
    remove_all(terms, &saids);
    Ok(())
}

/// Lets go what a good Reply revises, if it is the first one of its exchange.
fn revise(terms: &mut Terms, alloc: Global, ask: IaAsk, heard: &Heard) -> Result<(), NoMemory>
    ensures { OnOk result ((net : Net6) → term_at terms.new net
        ≡ if_unrevised heard.now.is_new ask net (message_shown heard.now.message) (term_at terms.old net)) }
{
    if heard.is_new {
        return take_back(terms, alloc, ask, &heard.message);
    }
    Ok(())
}

/// What a good Reply makes of the items.
fn hear_one(
    terms: &mut Terms,
    alloc: Global,
    ask: IaAsk,
    came: u64,
    heard: &Heard,
) -> Result<(), NoMemory>
    requires { came < 10 ^ 15 }
    ensures { OnOk result ((net : Net6) → term_at terms.new net
        ≡ heard_from came heard.now.is_new ask net (message_shown heard.now.message) (term_at terms.old net)) }
{
    revise(terms, alloc, ask, heard)?;
    hold_all(terms, came, ask, heard.message.options)?;
    Ok(())
}

fn hear(
    terms: &mut Terms,
    alloc: Global,
    ask: IaAsk,
    came: u64,
    heard: Option<Heard>,
) -> Result<(), NoMemory>
    requires { came < 10 ^ 15 }
    ensures { OnOk result ((net : Net6) → term_at terms.new net
        ≡ term_next came ask net (option_map heard_content heard.entry) (term_at terms.old net)) }
{
    match heard {
        Some(heard) => hear_one(terms, alloc, ask, came, &heard),
        None => Ok(()),
    }
}

/// Whether a good Reply gives an item of an IA by itself, for a time that isn't over at a moment.
pub(crate) fn gives_alone(
    alloc: Global,
    ask: IaAsk,
    came: u64,
    heard: Option<Heard>,
    net: Net6,
    now: u64,
) -> Result<bool, NoMemory>
    requires { came < 10 ^ 15 }
    ensures { IfOk result
        (λ gives. gives ≡ is_held now (term_next came ask net (option_map heard_content heard.entry) not_held)) }
{
    let mut terms = Terms::new(alloc);
    hear(&mut terms, alloc, ask, came, heard)?;
    Ok(terms.holds(net, now))
}

/// What stays of the items, or nothing.
fn left(alloc: Global, terms: Terms, stays: bool) -> Terms
    ensures { (net : Net6) → term_at result net ≡ if_left stays (term_at terms net) }
{
    if stays { terms } else { Terms::new(alloc) }
}

/// Lets an address go that another host is reported to use.
fn remove_reported(terms: &mut Terms, kind: IaKind, reported: Option<Ip6>)
    ensures { (net : Net6) → FitsKind kind net
        → term_at terms.new net ≡ if_left (alone_by kind net.ip reported) (term_at terms.old net) }
{
    if let (IaKind::Na, Some(ip)) = (kind, reported) {
        terms.remove(Net6 {
            ip,
            len: ADDRESS_BITS,
        });
    }
}

impl ItemTable {
    /// The table after a turn.
    pub(crate) fn turned(self, alloc: Global, turn: &Turn) -> Result<ItemTable, NoMemory>
        requires { turn.now.came < 10 ^ 15 }
        ensures { IfOk result (λ next. IsTurned turn.now self next) }
    {
        let mut terms = left(alloc, self.terms, turn.stays);
        remove_reported(&mut terms, self.ask.kind, turn.reported);
        hear(&mut terms, alloc, self.ask, turn.came, turn.heard)?;
        Ok(ItemTable {
            ask: self.ask,
            terms,
        })
    }
}
