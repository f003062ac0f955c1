//! The interfaces that are judged, each with its judge.
ghost use Rattle.std.specs.Prelude.{◌≡◌, ◌==◌, ◌<◌, ◌^◌, true, [], ◌∷◌, List, length, map, IfOk, OnOk};
ghost use Rattle.std.specs.List.{list_any};
ghost use Rattle.audit_words.specs.EvidenceWords.Entries as told;
ghost use Rattle.audit_words.specs.EvidenceWords.IfaceLives.{now_in};
ghost use Rattle.audit_words.specs.EvidenceWords.Inputs.{index_at};
ghost use Rattle.audit_words.specs.Shown.{entry_shown, site_shown};
ghost use Rattle.audit_seats.specs.Seats.{AllTell, IsTurnedAt, sites_of};
ghost use Rattle.audit_seats.specs.Tests.{rests_at};

use crate::judge::Judge;
use crate::seat::Seat;
use audit_words::Entry;
use net_types::{Net, NoMemory};
use std::alloc::Global;

/// An interface that is judged, and its judge.
#[derive(Drop)]
pub struct Watched<J> {
    pub seat: Seat,
    pub judge: J,
}

impl<J: Judge + Drop> Watched<J> {
    /// Before all turns.
    pub fn first(alloc: Global, seat: Seat) -> Result<Watched<J>, NoMemory>
        ensures seat { IfOk result (λ w. w.seat ≡ seat) }
        ensures tells { IfOk result (λ w. J.Tells w.judge (site_shown w.seat) []) }
    {
        let judge = J::first(alloc, seat.site())?;
        Ok(Watched { seat, judge })
    }

    /// After a turn more.
    fn turned(self, alloc: Global, entry: &Entry) -> Result<Watched<J>, NoMemory>
        requires { entry.now.moment < 10 ^ 15 }
        ensures seat { IfOk result (λ w. w.seat ≡ self.seat) }
        ensures tells { IfOk result
            (λ w. (past : List told.Entry)
            → J.Tells self.judge (site_shown self.seat) past
            → J.Tells w.judge (site_shown w.seat) (entry_shown entry.now ∷ past)) }
    {
        let Watched { seat, judge } = self;
        let judge = judge.turned(alloc, seat.site(), entry)?;
        Ok(Watched { seat, judge })
    }

    /// Whether its judge stays as it is in a turn more.
    fn stays(&self, entry: &Entry) -> bool
        requires { entry.now.moment < 10 ^ 15 }
        ensures { result ≡ true
            → (past : List told.Entry)
            → J.Tells self.now.judge (site_shown self.now.seat) past
            → J.Tells self.now.judge (site_shown self.now.seat) (entry_shown entry.now ∷ past) }
    {
        self.judge.stays(self.seat.site(), entry)
    }

    /// Whether it is the interface of this number.
    pub fn is_of(&self, index: u32) -> bool
        ensures { result ≡ (index_at (site_shown self.now.seat) == index) }
    {
        self.seat.site().index() == index
    }

    /// Whether an address on the interface of this number rests on the turns here.
    pub fn rests(&self, index: u32, net: Net, moment: u64) -> bool
        ensures { (past : List told.Entry)
            → moment ≡ now_in past
            → J.Tells self.now.judge (site_shown self.now.seat) past
            → result ≡ rests_at J.is_own J.is_shared index net past (site_shown self.now.seat) }
    {
        let site = self.seat.site();
        (self.is_of(index) && self.judge.owns(site, net, moment))
            || self.judge.shares(site, index, net, moment)
    }
}

/// The judges of interfaces, before all turns.
pub fn all_first<J: Judge + Drop>(
    alloc: Global,
    seats: Vec<Seat>,
) -> Result<Vec<Watched<J>>, NoMemory>
    ensures sites { IfOk result (λ all. sites_of all.items ≡ map site_shown seats.items) }
    ensures tell { IfOk result (λ all. AllTell J.Tells [] all.items) }
{
    let mut all = Vec::new(alloc);
    for seat in seats {
        let next = Watched::first(alloc, seat)?;
        all.push(next)?;
    }
    Ok(all)
}

/// Shows the one at a place a turn more. It is taken out for that, and the last one stands there meanwhile.
fn change_at<J: Judge + Drop>(
    watched: &mut Vec<Watched<J>>,
    place: usize,
    alloc: Global,
    entry: &Entry,
) -> Result<(), NoMemory>
    requires place { place < length watched.old.items }
    requires moment { entry.now.moment < 10 ^ 15 }
    ensures { OnOk result (IsTurnedAt J.Tells (entry_shown entry.now) place watched.old.items watched.new.items) }
{
    let one = watched.swap_remove(place);
    let next = one.turned(alloc, entry)?;
    watched.push(next)?;
    let last = watched.len() - 1;
    watched.swap(place, last);
    Ok(())
}

/// Turns the one at a place on. Where its judge stays as it is nothing is done.
fn turn_at<J: Judge + Drop>(
    watched: &mut Vec<Watched<J>>,
    place: usize,
    alloc: Global,
    entry: &Entry,
) -> Result<(), NoMemory>
    requires place { place < length watched.old.items }
    requires moment { entry.now.moment < 10 ^ 15 }
    ensures { OnOk result (IsTurnedAt J.Tells (entry_shown entry.now) place watched.old.items watched.new.items) }
{
    if watched[place].stays(entry) {
        return Ok(());
    }
    change_at(watched, place, alloc, entry)
}

/// All of them after a turn more.
pub fn all_turned<J: Judge + Drop>(
    alloc: Global,
    watched: Vec<Watched<J>>,
    entry: &Entry,
) -> Result<Vec<Watched<J>>, NoMemory>
    requires { entry.now.moment < 10 ^ 15 }
    ensures sites { IfOk result (λ all. sites_of all.items ≡ sites_of watched.items) }
    ensures tell { IfOk result
        (λ all. (past : List told.Entry)
        → AllTell J.Tells past watched.items
        → AllTell J.Tells (entry_shown entry.now ∷ past) all.items) }
{
    let mut all = watched;
    for place in 0..all.len() {
        turn_at(&mut all, place, alloc, entry)?;
    }
    Ok(all)
}

/// Whether an address on the interface of this number rests on the turns at one of them.
pub fn some_rests<J: Judge + Drop>(
    watched: &[Watched<J>],
    index: u32,
    net: Net,
    moment: u64,
) -> bool
    ensures { (past : List told.Entry)
        → moment ≡ now_in past
        → AllTell J.Tells past watched.now
        → result ≡ list_any (rests_at J.is_own J.is_shared index net past) (sites_of watched.now) }
{
    for one in watched {
        if one.rests(index, net, moment) {
            return true;
        }
    }
    false
}
