//! The turn on which an address of a DHCPv6 lease rests (RFC 8415, section 18.2.10). Turns are counted from 0, which is
//! the opening.

ghost use Rattle.std.specs.Prelude.{◌≡◌, [], ◌∷◌, length, List, IfOk, if◌then◌else◌};
ghost use Rattle.evidence_words.specs.Entries as told;
ghost use Rattle.audit_words.specs.Shown.{entry_shown, site_shown};
ghost use Rattle.item_judge.specs.Judging as items;
ghost use Rattle.basis_turns.specs.ItemFinds.{item_found, reply_in};
ghost use Rattle.basis_turns.specs.ItemLaws.{FoundItemsAreShown};
ghost use Rattle.basis_turns.specs.ItemWalks.{Tells};
ghost use Rattle.basis_turns.specs.Turns.{shown_after};
ghost use Rattle.basis_turns.specs.declared.items.Held.{Held};

use crate::shown_turn::ShownTurn;
use audit_words::Site;
use item_judge::ItemJudge;
use net_types::{Net6, NoMemory};
use std::alloc::Global;
use v6_items::IaAsk;

/// The IAID of the IA_NA that has an address, and the turn of the newest Reply that gives it.
#[derive(Clone, Copy)]
pub struct ItemTurns {
    pub iaid: u32,
    pub reply: usize,
}

/// An item of an IA, and the moment at which it is to be held, in milliseconds since 1970.
#[derive(Clone, Copy)]
struct Held {
    ask: IaAsk,
    net: Net6,
    at: u64,
}

/// What is kept of an item turn by turn: the judge of the interface's items, and the turn of the newest Reply that
/// gives this one.
#[derive(Drop)]
struct ItemWalk {
    judge: ItemJudge,
    reply: usize,
}

/// The turn of the newest Reply, after a turn that may have one.
fn newest(hears: bool, number: usize, reply: usize) -> usize
    ensures { result ≡ (if hears then number else reply) }
{
    if hears { number } else { reply }
}

impl ItemWalk {
    /// Before all turns.
    fn first(alloc: Global, site: &Site) -> Result<ItemWalk, NoMemory>
        ensures { IfOk result (λ walk. (held : Held) → Tells held (site_shown site.now) [] walk) }
    {
        Ok(ItemWalk {
            judge: ItemJudge::first(alloc, site)?,
            reply: 0,
        })
    }

    /// After the turn of a number.
    fn turned(
        self,
        alloc: Global,
        site: &Site,
        turn: &ShownTurn,
        held: Held,
        number: usize,
    ) -> Result<ItemWalk, NoMemory>
        ensures { IfOk result
            (λ next. (past : List told.Entry)
            → number ≡ length past
            → Tells held (site_shown site.now) past self
            → Tells held (site_shown site.now) (entry_shown turn.now.entry ∷ past) next) }
    {
        let judge = self.judge.turned(alloc, site, &turn.entry)?;
        let hears = judge.hears(alloc, site, &turn.entry, held.ask, held.net, held.at)?;
        let reply = newest(hears, number, self.reply);
        Ok(ItemWalk { judge, reply })
    }
}

/// The turn of the newest Reply that gives an item for a time that isn't over.
fn reply_turn(
    alloc: Global,
    site: &Site,
    turns: &[ShownTurn],
    held: Held,
) -> Result<usize, NoMemory>
    ensures { IfOk result
        (λ reply. reply ≡ reply_in (site_shown site.now) held.ask held.net held.at (shown_after [] turns.now)) }
{
    let mut walk = ItemWalk::first(alloc, site)?;
    'turns: for (number, turn) in turns.iter().enumerate() {
        let next = walk.turned(alloc, site, turn, held, number)?;
        walk = next;
    }
    Ok(walk.reply)
}

/// The judge of an interface's items after some turns.
fn judge_after(alloc: Global, site: &Site, turns: &[ShownTurn]) -> Result<ItemJudge, NoMemory>
    ensures { IfOk result (λ judge. items.Tells judge (site_shown site.now) (shown_after [] turns.now)) }
{
    let mut judge = ItemJudge::first(alloc, site)?;
    'turns: for turn in turns {
        let next = judge.turned(alloc, site, &turn.entry)?;
        judge = next;
    }
    Ok(judge)
}

/// The IA_NA that holds an address after some turns, at a moment in milliseconds since 1970, and the turn on which that
/// rests.
pub fn item_found(
    alloc: Global,
    site: &Site,
    turns: &[ShownTurn],
    net: Net6,
    at: u64,
) -> Result<Option<ItemTurns>, NoMemory>
    ensures { IfOk result
        (λ found. found ≡ item_found (site_shown site.now) net at (shown_after [] turns.now)) }
{
    let judge = judge_after(alloc, site, turns)?;
    let Some(ask) = judge.holder(net, at) else {
        return Ok(None);
    };
    let reply = reply_turn(alloc, site, turns, Held { ask, net, at })?;
    Ok(Some(ItemTurns {
        iaid: ask.iaid,
        reply,
    }))
}

/// Law: a turn is found exactly where the address has its basis by the Replies, and that is the turn of one of these.
pub fn found_items_are_shown()
    ensures { FoundItemsAreShown }
{}
