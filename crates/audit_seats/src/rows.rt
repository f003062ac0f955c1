//! The rows that are shown, judged.
ghost use Rattle.std.specs.Prelude.{◌≡◌, ◌<◌, ◌∷◌, true, length, map, not, IfSome, List};
ghost use Rattle.std.specs.List.{find, list_any};
ghost use Rattle.audit_words.specs.EvidenceWords.Entries as told;
ghost use Rattle.audit_words.specs.EvidenceWords.IfaceLives.{now_in};
ghost use Rattle.audit_seats.specs.Seats.{AllTell, sites_of};
ghost use Rattle.audit_turns.specs.AuditModel.Auditing.{Living, lacking, site_in};
ghost use Rattle.audit_turns.specs.Goings.{going_in, going_of};
ghost use Rattle.audit_seats.specs.Tests.{judged_by, rests_at, row_rests};

use crate::judge::Judge;
use crate::seats::{Watched, some_rests};
use audit_turns::Going;
use net_types::Net;
use std::collections::BTreeSet;
use world::HostRow;

/// Whether the interface of a number stands at a place.
fn is_at<J: Judge + Drop>(watched: &[Watched<J>], place: usize, index: u32) -> bool
    ensures { result ≡ true → place < length watched.now }
{
    match watched.get(place) {
        Some(one) => one.is_of(index),
        None => false,
    }
}

/// Where the interface of a number stands. Rows are in order of their interfaces, so it is looked for behind where the
/// last one stood, and then there.
fn place_of<J: Judge + Drop>(watched: &[Watched<J>], last: usize, index: u32) -> Option<usize>
    ensures { IfSome result (λ place. place < length watched.now) }
{
    let next = last.saturating_add(1);
    if is_at(watched, next, index) {
        return Some(next);
    }
    if is_at(watched, last, index) {
        return Some(last);
    }
    watched.iter().position(|one| one.is_of(index))
}

/// Whether an address on the interface of a number rests on the turns at the one that stands at a place.
fn rests_there<J: Judge + Drop>(
    watched: &[Watched<J>],
    place: usize,
    index: u32,
    net: Net,
    moment: u64,
) -> bool
    ensures { (past : List told.Entry)
        → moment ≡ now_in past
        → AllTell J.Tells past watched.now
        → result ≡ true
        → list_any (rests_at J.is_own J.is_shared index net past) (sites_of watched.now) ≡ true }
{
    match watched.get(place) {
        Some(one) => one.rests(index, net, moment),
        None => false,
    }
}

/// Whether an address on the interface of a number rests on the turns: the one at a place is asked before the others.
fn rests_somewhere<J: Judge + Drop>(
    watched: &[Watched<J>],
    place: usize,
    index: u32,
    net: Net,
    moment: u64,
) -> bool
    ensures { (past : List told.Entry)
        → moment ≡ now_in past
        → AllTell J.Tells past watched.now
        → result ≡ list_any (rests_at J.is_own J.is_shared index net past) (sites_of watched.now) }
{
    if rests_there(watched, place, index, net, moment) {
        return true;
    }
    some_rests(watched, index, net, moment)
}

/// Whether a row rests on the turns, and where its interface stands, if that is one of these. A route needs nothing.
fn rests<J: Judge + Drop>(
    watched: &[Watched<J>],
    last: usize,
    row: HostRow,
    moment: u64,
) -> (bool, usize)
    ensures { (past : List told.Entry)
        → moment ≡ now_in past
        → AllTell J.Tells past watched.now
        → result.0 ≡ row_rests J.is_own J.is_shared (sites_of watched.now) past row }
{
    match row {
        HostRow::Addr { iface, net } => {
            let place = place_of(watched, last, iface.number).unwrap_or(last);
            (
                rests_somewhere(watched, place, iface.number, net, moment),
                place,
            )
        }
        HostRow::Route { .. } => (true, last),
    }
}

/// The first row that doesn't rest on the turns.
fn first_unjust<J: Judge + Drop>(
    watched: &[Watched<J>],
    rows: &BTreeSet<HostRow>,
    moment: u64,
) -> Option<HostRow>
    ensures { (past : List told.Entry)
        → moment ≡ now_in past
        → AllTell J.Tells past watched.now
        → result
        ≡ find (λ row. not (row_rests J.is_own J.is_shared (sites_of watched.now) past row)) rows.now.keys }
{
    let mut last = 0;
    for row in rows {
        let (has_basis, place) = rests(watched, last, *row, moment);
        if !has_basis {
            return Some(*row);
        }
        last = place;
    }
    None
}

/// The first address that doesn't rest on the turns and the one that goes on, which the judges have seen. None is
/// looked for where a call of the host failed.
pub fn first_lacking<J: Judge + Drop>(watched: &[Watched<J>], going: &Going) -> Option<HostRow>
    ensures { (living : Living)
        → going_of going.now ≡ going_in living
        → sites_of watched.now ≡ map (site_in living) living.managed
        → AllTell J.Tells (living.entry ∷ living.past) watched.now
        → result ≡ lacking (judged_by J.is_own J.is_shared) living }
{
    if going.failed {
        None
    } else {
        first_unjust(watched, &going.rows, going.entry.moment)
    }
}
