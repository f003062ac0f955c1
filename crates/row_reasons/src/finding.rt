//! Which reason an address has.
ghost use Rattle.std.specs.Prelude.{◌≡◌, [], ◌∷◌, map, List, IfOk};
ghost use Rattle.audit_words.specs.EvidenceWords.Entries.{Entry};
ghost use Rattle.audit_words.specs.EvidenceWords.IfaceLives.{now_in};
ghost use Rattle.audit_words.specs.Shown.{entry_shown, site_shown};
ghost use Rattle.transcript_audit.specs.AuditSeats.Seats.{AllTell, sites_of};
ghost use Rattle.transcript_audit.specs.IfaceJudges.Telling.{Tells};
ghost use Rattle.basis_turns.specs.Turns.{shown_after};
ghost use Rattle.row_reasons.specs.Judging.{IsAfter};
ghost use Rattle.row_reasons.specs.Finding.{first_given, kept_reason, own_at, own_reason, reason_among, row_reason, share_at};

use crate::reason::Reason;
use basis_turns::{ShownTurn, basis_in};
use net_types::{Net, NoMemory};
use std::alloc::Global;
use transcript_audit::{IfaceJudge, Judge, Seat, Watched, all_first, all_turned};
use world::HostRow;

/// The interfaces of a life, each with what is judged of it after some turns, and the moment of the last of these.
#[derive(Drop)]
pub struct Judged {
    pub watched: Vec<Watched<IfaceJudge>>,
    pub moment: u64,
}

impl Judged {
    /// Before all turns.
    fn first(alloc: Global, seats: Vec<Seat>) -> Result<Judged, NoMemory>
        ensures sites { IfOk result (λ judged. sites_of judged.watched.items ≡ map site_shown seats.items) }
        ensures after { IfOk result (IsAfter []) }
    {
        Ok(Judged {
            watched: all_first(alloc, seats)?,
            moment: 0,
        })
    }

    /// After a turn more.
    fn turned(self, alloc: Global, turn: &ShownTurn) -> Result<Judged, NoMemory>
        ensures sites { IfOk result (λ next. sites_of next.watched.items ≡ sites_of self.watched.items) }
        ensures after { IfOk result
            (λ next. (past : List Entry) → IsAfter past self → IsAfter (entry_shown turn.now.entry ∷ past) next) }
    {
        let watched = all_turned(alloc, self.watched, &turn.entry)?;
        Ok(Judged {
            watched,
            moment: turn.entry.moment,
        })
    }

    /// After some turns.
    pub fn after(alloc: Global, seats: Vec<Seat>, turns: &[ShownTurn]) -> Result<Judged, NoMemory>
        ensures sites { IfOk result (λ judged. sites_of judged.watched.items ≡ map site_shown seats.items) }
        ensures after { IfOk result (IsAfter (shown_after [] turns.now)) }
    {
        let mut judged = Judged::first(alloc, seats)?;
        'turns: for turn in turns {
            let next = judged.turned(alloc, turn)?;
            judged = next;
        }
        Ok(judged)
    }
}

/// Whether an address rests on a lease of an earlier life, if on anything.
fn kept_reason(one: &Watched<IfaceJudge>, net: Net, moment: u64) -> Option<Reason>
    ensures { (past : List Entry)
        → moment ≡ now_in past
        → Tells one.now.judge (site_shown one.now.seat) past
        → result ≡ kept_reason (site_shown one.now.seat) net past }
{
    if one.judge.owns(one.seat.site(), net, moment) {
        Some(Reason::Kept)
    } else {
        None
    }
}

/// Why an address may be held on an interface itself after some turns, at the moment of the last.
fn own_reason(
    alloc: Global,
    one: &Watched<IfaceJudge>,
    turns: &[ShownTurn],
    net: Net,
    moment: u64,
) -> Result<Option<Reason>, NoMemory>
    requires last { moment ≡ now_in (shown_after [] turns.now) }
    requires tells { Tells one.now.judge (site_shown one.now.seat) (shown_after [] turns.now) }
    ensures { IfOk result
        (λ found. found ≡ own_reason (site_shown one.now.seat) net (shown_after [] turns.now)) }
{
    match basis_in(alloc, one.seat.site(), turns, net, moment)? {
        Some(basis) => Ok(Some(Reason::Own(basis))),
        None => Ok(kept_reason(one, net, moment)),
    }
}

/// The same, if it is the interface of a number.
fn own_at(
    alloc: Global,
    one: &Watched<IfaceJudge>,
    turns: &[ShownTurn],
    number: u32,
    net: Net,
    moment: u64,
) -> Result<Option<Reason>, NoMemory>
    requires last { moment ≡ now_in (shown_after [] turns.now) }
    requires tells { Tells one.now.judge (site_shown one.now.seat) (shown_after [] turns.now) }
    ensures { IfOk result
        (λ found. found ≡ own_at number net (shown_after [] turns.now) (site_shown one.now.seat)) }
{
    if one.seat.site().index() == number {
        own_reason(alloc, one, turns, net, moment)
    } else {
        Ok(None)
    }
}

/// The first such reason.
fn first_own(
    alloc: Global,
    watched: &[Watched<IfaceJudge>],
    turns: &[ShownTurn],
    number: u32,
    net: Net,
    moment: u64,
) -> Result<Option<Reason>, NoMemory>
    requires last { moment ≡ now_in (shown_after [] turns.now) }
    requires tell { AllTell Tells (shown_after [] turns.now) watched.now }
    ensures { IfOk result
        (λ found. found ≡ first_given (own_at number net (shown_after [] turns.now)) (sites_of watched.now)) }
{
    for one in watched {
        let found = own_at(alloc, one, turns, number, net, moment)?;
        if found.is_some() {
            return Ok(found);
        }
    }
    Ok(None)
}

/// Whether an interface shares an address out to the one of a number.
fn share_at(one: &Watched<IfaceJudge>, number: u32, net: Net, moment: u64) -> Option<Reason>
    ensures { (past : List Entry)
        → moment ≡ now_in past
        → Tells one.now.judge (site_shown one.now.seat) past
        → result ≡ share_at number net past (site_shown one.now.seat) }
{
    let site = one.seat.site();
    if one.judge.shares(site, number, net, moment) {
        Some(Reason::Share(site.index()))
    } else {
        None
    }
}

/// The first interface that does.
fn first_share(
    watched: &[Watched<IfaceJudge>],
    number: u32,
    net: Net,
    moment: u64,
) -> Option<Reason>
    ensures { (past : List Entry)
        → moment ≡ now_in past
        → AllTell Tells past watched.now
        → result ≡ first_given (share_at number net past) (sites_of watched.now) }
{
    for one in watched {
        let found = share_at(one, number, net, moment);
        if found.is_some() {
            return found;
        }
    }
    None
}

/// Why an address on the interface of a number may be held.
fn reason_among(
    alloc: Global,
    watched: &[Watched<IfaceJudge>],
    turns: &[ShownTurn],
    number: u32,
    net: Net,
    moment: u64,
) -> Result<Option<Reason>, NoMemory>
    requires last { moment ≡ now_in (shown_after [] turns.now) }
    requires tell { AllTell Tells (shown_after [] turns.now) watched.now }
    ensures { IfOk result
        (λ found. found ≡ reason_among (sites_of watched.now) number net (shown_after [] turns.now)) }
{
    match first_own(alloc, watched, turns, number, net, moment)? {
        Some(reason) => Ok(Some(reason)),
        None => Ok(first_share(watched, number, net, moment)),
    }
}

/// Why the address that a row is may be held. A route has no reason.
pub fn row_reason(
    alloc: Global,
    judged: &Judged,
    turns: &[ShownTurn],
    row: HostRow,
) -> Result<Option<Reason>, NoMemory>
    requires { IsAfter (shown_after [] turns.now) judged.now }
    ensures { IfOk result
        (λ found. found ≡ row_reason (sites_of judged.now.watched.items) (shown_after [] turns.now) row) }
{
    match row {
        HostRow::Addr { iface, net } => reason_among(
            alloc,
            &judged.watched,
            turns,
            iface.number,
            net,
            judged.moment,
        ),
        HostRow::Route { .. } => Ok(None),
    }
}
