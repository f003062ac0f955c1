//! Which link-local addresses of an interface stand on their basis, turn by turn.

ghost use Rattle.std.specs.Prelude.{◌≡◌, true, ◌∷◌, [], List, IfOk};
ghost use Rattle.std.specs.List.{filter_map, list_all, list_any};
ghost use Rattle.evidence_words.specs.Entries as told;
ghost use Rattle.evidence_words.specs.Inputs as told_of;
ghost use Rattle.audit_words.specs.Shown.{entry_shown, site_shown};
ghost use Rattle.probe_table.specs.ByAddress.{is_for};
ghost use Rattle.local_judge.specs.Choices.{goes_on};
ghost use Rattle.local_judge.specs.Settled.{IsSettled, is_unused};
ghost use Rattle.local_judge.specs.Judge.{AreEntered, ChoicesGoOn, Tells, choice_at, chosen_addr, fits_in, gives_in, in_range, left_of, stands_in, turn_at};

use crate::announcements::{announced_addresses, are_all};
use crate::choices::{Choice, ChoiceTurn};
use audit_words::{Entry, Site};
use frame_link::ArpView;
use net_types::{Ip4, Mac, Net, Net4, NoMemory};
use probe_table::{ProbeTable, arp_on, carrier_after, is_past, is_use};
use std::alloc::{AllocError, Global};
use world::Event;

/// The first address that a host may choose by itself, 169.254.1.0 (RFC 3927, section 2.1).
const FIRST_CHOICE: u32 = 0xa9fe_0100;
/// The last one, 169.254.254.255.
const LAST_CHOICE: u32 = 0xa9fe_feff;
/// The length of the prefix of link-local addresses.
const LOCAL_LEN: u8 = 16;
/// The least time between the last probe and the first announcement (RFC 5227, section 1.1).
const ANNOUNCE_WAIT: u64 = 2000;

/// An address that may be chosen, and its choice while that stands.
#[derive(Clone, Copy)]
pub struct Chosen {
    pub addr: Ip4,
    pub choice: Option<Choice>,
}

/// What a turn is to the addresses of an interface: its moment, the hardware addresses of the host, the ARP packet that
/// came in, whether a choice may stand in it, the addresses that were announced, and how far each address was probed
/// before it.
#[derive(Clone, Copy)]
struct LocalTurn<'a> {
    moment: u64,
    own: &'a [Mac],
    arp: Option<ArpView>,
    calm: bool,
    announced: &'a [Ip4],
    probed: &'a ProbeTable,
}

impl LocalTurn<'_> {
    /// Whether the choice of an address may stand in the turn: that is calm, and no other address is announced in it.
    fn fits(&self, addr: Ip4) -> bool
        ensures { result ≡ fits_in self.now addr }
    {
        self.calm && are_all(self.announced, addr)
    }

    /// What the turn is to one address.
    fn to(&self, addr: Ip4) -> ChoiceTurn
        ensures { result ≡ turn_at self.now addr }
    {
        let third = self.probed.times(addr).third;
        ChoiceTurn {
            moment: self.moment,
            fits: self.fits(addr),
            fourth: is_past(ANNOUNCE_WAIT, third, self.moment),
            used: is_use(self.own, addr, self.arp),
        }
    }

    /// What is left of an address that may be chosen.
    fn left(&self, chosen: &Chosen) -> Option<Chosen>
        ensures { result ≡ left_of self.now chosen.now }
    {
        let turn = self.to(chosen.addr);
        if !turn.fits {
            return None;
        }
        Some(Chosen {
            addr: chosen.addr,
            choice: turn.choice_after(chosen.choice),
        })
    }
}

/// Whether no carrier is taken from an interface that has it, nothing of it is given back, and no stop comes.
pub fn goes_on(up: bool, index: u32, event: Event) -> bool
    ensures { result ≡ goes_on up index event }
{
    match event {
        Event::Carrier { iface, up: now } => iface != index || !up || now,
        Event::Release { iface } => iface != index,
        Event::Stop => false,
        Event::Frame { .. }
        | Event::Duplicate { .. }
        | Event::Rebind { .. }
        | Event::Quiet
        | Event::End => true,
    }
}

/// Whether an address stands among those that may be chosen.
fn has(chosen: &[Chosen], addr: Ip4) -> bool
    ensures { result ≡ list_any (is_for chosen_addr addr) chosen.now }
{
    chosen.iter().any(|one| one.addr == addr)
}

/// The choice of an address, where it stands.
fn choice_among(chosen: &[Chosen], addr: Ip4) -> Option<Choice>
    ensures { result ≡ choice_at chosen.now addr }
{
    for one in chosen {
        if one.addr == addr {
            return one.choice;
        }
    }
    None
}

/// Whether an address's choice stands, and no other host used it since.
fn is_unused(chosen: &[Chosen], addr: Ip4) -> bool
    ensures { result ≡ is_unused (choice_at chosen.now addr) }
{
    match choice_among(chosen, addr) {
        Some(choice) => choice.used.is_none(),
        None => false,
    }
}

/// Whether that is so with each of some addresses.
fn are_unused(addrs: &[Ip4], chosen: &[Chosen]) -> bool
    ensures { result ≡ list_all (λ addr. is_unused (choice_at chosen.now addr)) addrs.now }
{
    addrs.iter().all(|addr| is_unused(chosen, *addr))
}

/// The addresses that may be chosen, and behind them those of the candidates that weren't among them.
fn entered(mut chosen: Vec<Chosen>, candidates: &[Ip4]) -> Result<Vec<Chosen>, AllocError>
    ensures { IfOk result (λ all. AreEntered chosen.items candidates.now all.items) }
{
    for candidate in candidates {
        if !has(&chosen, *candidate) {
            chosen.push(Chosen {
                addr: *candidate,
                choice: None,
            })?;
        }
    }
    Ok(chosen)
}

/// What is left of the addresses after a turn.
fn left_among(
    alloc: Global,
    chosen: &[Chosen],
    turn: &LocalTurn<'_>,
) -> Result<Vec<Chosen>, AllocError>
    ensures { IfOk result (λ left. left.items ≡ filter_map (left_of turn.now) chosen.now) }
{
    chosen
        .iter()
        .filter_map(|one| turn.left(one))
        .collect(alloc)
}

/// The choices after a turn, which is calm or isn't.
fn choices_after(
    alloc: Global,
    chosen: Vec<Chosen>,
    probed: &ProbeTable,
    site: &Site,
    entry: &Entry,
    calm: bool,
) -> Result<Vec<Chosen>, NoMemory>
    ensures { IfOk result (λ next. ChoicesGoOn site.now entry.now calm probed.now chosen.items next.items) }
{
    let announced = announced_addresses(alloc, site, &entry.offers)?;
    let candidates = probed.probed_thrice(alloc, ANNOUNCE_WAIT, entry.moment)?;
    let turn = LocalTurn {
        moment: entry.moment,
        own: &site.own,
        arp: arp_on(site, entry),
        calm,
        announced: &announced,
        probed,
    };
    let all = entered(chosen, &candidates)?;
    let left = left_among(alloc, &all, &turn)?;
    Ok(left)
}

/// Whether a host may choose an address by itself.
fn in_range(addr: Ip4) -> bool
    ensures { result ≡ in_range addr }
{
    addr.number >= FIRST_CHOICE && addr.number <= LAST_CHOICE
}

/// What is kept of an interface to tell which link-local addresses stand: whether it has carrier, how far addresses
/// were probed, and which of them may be chosen.
#[derive(Drop)]
pub struct LocalJudge {
    up: bool,
    probed: ProbeTable,
    chosen: Vec<Chosen>,
}

impl LocalJudge {
    /// Before the first turn.
    pub fn first(alloc: Global, site: &Site) -> LocalJudge
        ensures { Tells result (site_shown site.now) [] }
    {
        LocalJudge {
            up: site.up,
            probed: ProbeTable::new(alloc),
            chosen: Vec::new(alloc),
        }
    }

    /// After one turn more.
    pub fn turned(self, alloc: Global, site: &Site, entry: &Entry) -> Result<LocalJudge, NoMemory>
        ensures { IfOk result (λ next. (past : List told.Entry) → Tells self (site_shown site.now) past
            → Tells next (site_shown site.now) (entry_shown entry.now ∷ past)) }
    {
        let LocalJudge { up, probed, chosen } = self;
        let index = site.index();
        let calm = goes_on(up, index, entry.event);
        let chosen = choices_after(alloc, chosen, &probed, site, entry, calm)?;
        let probed = probed.turned(alloc, site, entry, calm)?;
        Ok(LocalJudge {
            up: carrier_after(index, entry.event, up),
            probed,
            chosen,
        })
    }

    /// Whether the choice of each address that was probed three times stands, and no other host used it since. A turn
    /// in which nothing comes and nothing is offered changes then no choice but for the turn since which it stands.
    pub fn is_settled(&self, alloc: Global) -> Result<bool, NoMemory>
        ensures { IfOk result (λ settled. settled ≡ true
            → (site : told_of.Site) (past : List told.Entry) → Tells self.now site past → IsSettled site past) }
    {
        let probed = self.probed.probed_thrice(alloc, 0, u64::MAX)?;
        Ok(are_unused(&probed, &self.chosen))
    }

    /// Whether an address of IPv4 is one that was chosen, and its choice stands.
    fn stands(&self, net: Net4) -> bool
        ensures { result ≡ stands_in self.now net }
    {
        net.len == LOCAL_LEN && in_range(net.ip) && choice_among(&self.chosen, net.ip).is_some()
    }

    /// Whether an address stands as one that was chosen.
    pub fn gives(&self, net: Net) -> bool
        ensures { (site : told_of.Site) → (past : List told.Entry) → Tells self.now site past
            → result ≡ gives_in site net past }
    {
        match net {
            Net::V4(net) => self.stands(net),
            Net::V6(_) => false,
        }
    }
}
