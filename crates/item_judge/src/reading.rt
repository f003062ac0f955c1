//! The items that a client may read of a server's message, of each IA of a kind and an IAID and without a limit.

ghost use Rattle.std.specs.Prelude.{◌≡◌, ◌<◌, ◌^◌, OnOk};
ghost use Rattle.net_types.specs.declared.address.Net6.{Net6};
ghost use Rattle.v6_options.specs.IaViews.{ia_shown, items_left};
ghost use Rattle.v6_options.specs.Ias.{ias_in};
ghost use Rattle.v6_items.specs.Reading as reading;
ghost use Rattle.lease6_judge.specs.HeardTerms.{all_items, items_if_of};
ghost use Rattle.item_judge.specs.Tables.{term_at};
ghost use Rattle.item_judge.specs.Walks.{front_all, with_read, with_said, with_saids};

use crate::terms::{Terms, term_of};
use net_types::NoMemory;
use v6_items::{IaAsk, is_for, is_readable, read_item};
use v6_options::{IaKind, IaView, ItemSaid, ia_views};

/// Holds an item for what its valid lifetime is, unless that is 0.
fn hold(terms: &mut Terms, came: u64, said: ItemSaid) -> Result<(), NoMemory>
    requires { came < 10 ^ 15 }
    ensures { OnOk result ((net : Net6) → term_at terms.new net ≡ with_said came net said (term_at terms.old net)) }
{
    if said.valid == 0 {
        return Ok(());
    }
    terms.extend(said.net, term_of(came, said.valid))
}

/// Holds the item of an IA, if it is read.
fn hold_read(terms: &mut Terms, came: u64, kind: IaKind, said: ItemSaid) -> Result<(), NoMemory>
    requires { came < 10 ^ 15 }
    ensures { OnOk result ((net : Net6)
        → term_at terms.new net ≡ with_read came net (reading.read_item kind said) (term_at terms.old net)) }
{
    match read_item(kind, said) {
        Some(read) => hold(terms, came, read),
        None => Ok(()),
    }
}

/// Holds the items of an IA that are read.
fn hold_items(terms: &mut Terms, came: u64, ia: IaView) -> Result<(), NoMemory>
    requires { came < 10 ^ 15 }
    ensures { OnOk result ((net : Net6)
        → term_at terms.new net ≡ with_saids came net (front_all (ia_shown ia.entry)) (term_at terms.old net)) }
{
    'items: for said in ia.items() {
        hold_read(terms, came, ia.kind, said)?;
    }
    Ok(())
}

/// Holds those of an IA, if it is of the kind and the IAID and may be read.
fn hold_ia(terms: &mut Terms, came: u64, ask: IaAsk, ia: IaView) -> Result<(), NoMemory>
    requires { came < 10 ^ 15 }
    ensures { OnOk result ((net : Net6)
        → term_at terms.new net ≡ with_saids came net (items_if_of ask (ia_shown ia.entry)) (term_at terms.old net)) }
{
    if !is_for(ask, ia) {
        return Ok(());
    }
    if !is_readable(ia) {
        return Ok(());
    }
    hold_items(terms, came, ia)
}

/// Holds all items that a message has for a kind and an IAID, beside what is held.
pub(crate) fn hold_all(
    terms: &mut Terms,
    came: u64,
    ask: IaAsk,
    options: &[u8],
) -> Result<(), NoMemory>
    requires { came < 10 ^ 15 }
    ensures { OnOk result ((net : Net6)
        → term_at terms.new net ≡ with_saids came net (all_items ask (ias_in options.now)) (term_at terms.old net)) }
{
    'ias: for ia in ia_views(options) {
        hold_ia(terms, came, ask, ia)?;
    }
    Ok(())
}
