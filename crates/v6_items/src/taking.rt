//! How a Reply is taken: which items stay, which change their moments, and which come.

ghost use Rattle.std.specs.Prelude.{◌≡◌, ◌++◌, ◌<◌, length, option_map, IfOk, IfSome, OnOk};
ghost use Rattle.v6_options.specs.IaViews.{ia_shown};
ghost use Rattle.v6_message.specs.Shown.{message_shown};
ghost use Rattle.lease6_text.specs.LeaseText.Leases.{values_content};
ghost use Rattle.lease6_text.specs.Leases.{ias_content, lease6_content};
ghost use Rattle.v6_items.specs.Taking as taking;
ghost use Rattle.v6_items.specs.Taking.{IsTimedFor};
ghost use Rattle.v6_items.specs.Bounds.{AreTimed, FitsAsks, IsTimed};
ghost use Rattle.v6_items.specs.Reading.{saids_of};
ghost use Rattle.net_types.specs.NameText.{FitsName};
ghost use Rattle.lease6_text.specs.Bounds.{FitsLease6};
ghost use Rattle.std.specs.List.{AllByRecursion};
ghost use Rattle.net_types.specs.Moments.{IsMoment};
ghost use Rattle.v6_items.specs.Meetings.{asked_in, meeting_shown, taking_content};
ghost use Rattle.v6_items.specs.Renewing.{AreShort, joined};

use crate::asks::IaAsk;
use crate::items::{asked_at, ias_of, is_live, is_same_net, push_ia};
use crate::reading::{ia_for, is_unbound, saids_of};
use crate::renewing::{Spans6, joined, spans_of, t1_from, t2_from};
use crate::scope::Scope6;
use crate::times::moment_after;
use lease6_text::{ITEM_LIMIT, IaLease, Item6, Lease6, Origin, Value, is_well_formed6};
use net_types::{IfSpec, Net6, NoMemory};
use std::alloc::{AllocError, Global};
use v6_message::Msg6;
use v6_options::{Duid, IaView, ItemSaid, code};

/// The items of an IA as far as they are taken.
#[derive(Drop)]
struct Taking6 {
    items: Vec<Item6>,
    /// The shortest preferred lifetime of those that were set, in seconds.
    shortest: Option<u32>,
}

/// The IAs that a Reply leaves, and the times that it tells.
#[derive(Drop)]
struct Granting6 {
    ias: Vec<IaLease>,
    spans: Option<Spans6>,
}

/// A Reply as it was heard: the moment of its arrival, and the items that it meets.
#[derive(Clone, Copy)]
pub struct Meeting6<'a> {
    pub at: u64,
    pub scope: Scope6,
    pub kept: &'a Option<Lease6>,
    pub message: &'a Msg6<'a>,
}

// ---- the items of an IA

fn item_from(at: u64, said: ItemSaid) -> Item6
    requires { IsMoment at }
    ensures { result ≡ taking.item_from at said }
{
    Item6 {
        net: said.net,
        preferred: moment_after(at, said.preferred),
        valid: moment_after(at, said.valid),
    }
}

fn shorter(shortest: Option<u32>, preferred: u32) -> Option<u32>
    ensures { result ≡ taking.shorter shortest preferred }
{
    match shortest {
        Some(shortest) => Some(shortest.min(preferred)),
        None => Some(preferred),
    }
}

/// Where the item with this net is.
fn place_of(net: Net6, items: &[Item6]) -> Option<usize>
    ensures place { result ≡ taking.place_of net items.now }
    ensures within { IfSome result (λ place. place < length items.now) }
{
    items.iter().position(|item| is_same_net(net, *item))
}

impl Taking6 {
    /// The item changes its moments, or comes last, unless there are four.
    fn set(&mut self, at: u64, said: ItemSaid) -> Result<(), NoMemory>
        requires { IsMoment at }
        ensures { OnOk result
            (taking_content self.new
            ≡ taking.placed at said (taking.place_of said.net self.old.items.items) (taking_content self.old)) }
    {
        match place_of(said.net, &self.items) {
            Some(place) => {
                self.items[place] = item_from(at, said);
                self.shortest = shorter(self.shortest, said.preferred);
            }
            None if self.items.len() < ITEM_LIMIT => {
                self.items.push(item_from(at, said))?;
                self.shortest = shorter(self.shortest, said.preferred);
            }
            None => {}
        }
        Ok(())
    }

    /// The item goes.
    fn take_out(&mut self, net: Net6)
        ensures items { self.new.items.items
            ≡ taking.taken_out (taking.place_of net self.old.items.items) self.old.items.items }
        ensures shortest { self.new.shortest ≡ self.old.shortest }
    {
        if let Some(place) = place_of(net, &self.items) {
            self.items.remove(place);
        }
    }

    /// The item goes where its valid lifetime is 0; else it is set.
    fn take(&mut self, at: u64, said: ItemSaid) -> Result<(), NoMemory>
        requires { IsMoment at }
        ensures { OnOk result (taking_content self.new ≡ taking.takes_item at (taking_content self.old) said) }
    {
        if said.valid == 0 {
            self.take_out(said.net);
            return Ok(());
        }
        self.set(at, said)
    }
}

fn is_named(saids: &[ItemSaid], item: Item6) -> bool
    ensures { result ≡ taking.is_named saids.now item }
{
    saids.iter().any(|said| is_same_net(said.net, item))
}

/// Whether an item that the Reply meets is held on.
fn is_carried(scope: Scope6, saids: &[ItemSaid], item: Item6) -> bool
    ensures { result ≡ taking.is_carried scope saids.now item }
{
    match scope {
        Scope6::Nothing => false,
        Scope6::All => true,
        Scope6::Since(at) => is_live(at, item) && is_named(saids, item),
    }
}

fn carried_on(
    alloc: Global,
    scope: Scope6,
    saids: &[ItemSaid],
    items: &[Item6],
) -> Result<Vec<Item6>, AllocError>
    ensures { IfOk result (λ left. left.items ≡ taking.carried_on scope saids.now items.now) }
{
    items
        .iter()
        .copied()
        .filter(|item| is_carried(scope, saids, *item))
        .collect(alloc)
}

/// The items that the Reply meets in an IA, as far as they are held on.
fn carried(
    alloc: Global,
    scope: Scope6,
    unbound: bool,
    saids: &[ItemSaid],
    items: &[Item6],
) -> Result<Vec<Item6>, AllocError>
    ensures { IfOk result (λ left. left.items ≡ taking.carried scope unbound saids.now items.now) }
{
    if unbound {
        return Ok(Vec::new(alloc));
    }
    carried_on(alloc, scope, saids, items)
}

/// Takes the items that a Reply has for an IA.
fn taken_from(at: u64, items: Vec<Item6>, saids: &[ItemSaid]) -> Result<Taking6, NoMemory>
    requires { IsMoment at }
    ensures { IfOk result (λ taken. taking_content taken ≡ taking.taken_from at items.items saids.now) }
{
    let mut taken = Taking6 {
        items,
        shortest: None,
    };
    'saids: for said in saids {
        taken.take(at, *said)?;
    }
    Ok(taken)
}

/// The lifetimes of an item are numbers of 32 bits.
fn said_is_timed(said: ItemSaid)
    ensures { IsTimed said }
{
    let _preferred = said.preferred;
    let _valid = said.valid;
}

fn saids_are_timed(saids: &[ItemSaid])
    ensures { AreTimed saids.now }
{
    for said in saids {
        said_is_timed(*said);
    }
}

/// Takes what a Reply has for an IA that had these items.
fn ia_taken(
    alloc: Global,
    at: u64,
    scope: Scope6,
    ia: Option<IaView>,
    items: &[Item6],
) -> Result<Taking6, NoMemory>
    requires { IsMoment at }
    ensures taken { IfOk result
        (λ taken. taking_content taken ≡ taking.ia_taken at scope (option_map ia_shown ia.entry) items.now) }
    ensures timed { OnOk result (AreTimed (saids_of (option_map ia_shown ia.entry))) }
{
    let saids = saids_of(alloc, ia)?;
    saids_are_timed(&saids);
    let left = carried(alloc, scope, is_unbound(ia), &saids, items)?;
    taken_from(at, left, &saids)
}

// ---- the lease

/// Takes what the Reply has for an IA that is asked for.
fn taken_by(
    alloc: Global,
    meeting: Meeting6,
    ask: IaAsk,
    ia: Option<IaView>,
) -> Result<Taking6, NoMemory>
    requires { IsMoment meeting.at }
    ensures taken { IfOk result
        (λ taken. taking_content taken
        ≡ taking.ia_taken meeting.entry.at meeting.entry.scope (option_map ia_shown ia.entry)
        (asked_in meeting.entry ask)) }
    ensures timed { OnOk result (AreTimed (saids_of (option_map ia_shown ia.entry))) }
{
    let items = asked_at(ask, ias_of(meeting.kept));
    ia_taken(alloc, meeting.at, meeting.scope, ia, items)
}

impl Granting6 {
    /// Takes what the Reply has for a further IA.
    fn add(&mut self, alloc: Global, meeting: Meeting6, ask: IaAsk) -> Result<(), NoMemory>
        requires at { IsMoment meeting.at }
        requires short { IfSome self.old.spans AreShort }
        ensures ias { OnOk result
            (ias_content self.new.ias.items
            ≡ ias_content self.old.ias.items ++ taking.ia_granted (meeting_shown meeting.entry) ask) }
        ensures spans { OnOk result
            (self.new.spans ≡ joined self.old.spans (taking.ia_spans (meeting_shown meeting.entry) ask)) }
        ensures short { OnOk result (IfSome self.new.spans AreShort) }
        ensures timed { OnOk result (IsTimedFor (meeting_shown meeting.entry) ask) }
    {
        let ia = ia_for(ask, meeting.message.options);
        let taken = taken_by(alloc, meeting, ask, ia)?;
        self.spans = joined(self.spans, spans_of(ia, taken.shortest));
        push_ia(&mut self.ias, ask.kind, ask.iaid, taken.items)
    }
}

/// Takes what the Reply has for the IAs that are asked for.
fn granted_by(alloc: Global, meeting: Meeting6, asks: &[IaAsk]) -> Result<Granting6, NoMemory>
    requires { IsMoment meeting.at }
    ensures ias { IfOk result
        (λ granting. ias_content granting.ias.items ≡ taking.ias_granted (meeting_shown meeting.entry) asks.now) }
    ensures spans { IfOk result
        (λ granting. granting.spans ≡ taking.spans_granted (meeting_shown meeting.entry) asks.now) }
    ensures short { IfOk result (λ granting. IfSome granting.spans AreShort) }
    ensures timed { OnOk result (AllByRecursion (IsTimedFor (meeting_shown meeting.entry)) asks.now) }
{
    let mut granting = Granting6 {
        ias: Vec::new(alloc),
        spans: None,
    };
    'asks: for ask in asks {
        granting.add(alloc, meeting, *ask)?;
    }
    Ok(granting)
}

/// T1 and T2 of the lease; they stay where no IA brought items.
fn times_granted(meeting: Meeting6, spans: Option<Spans6>) -> (Option<u64>, Option<u64>)
    requires at { IsMoment meeting.at }
    requires short { IfSome spans AreShort }
    ensures t1 { result.0 ≡ taking.t1_granted (meeting_shown meeting.entry) spans }
    ensures t2 { result.1 ≡ taking.t2_granted (meeting_shown meeting.entry) spans }
{
    if let Some(spans) = spans {
        return (t1_from(meeting.at, spans), t2_from(meeting.at, spans));
    }
    match meeting.kept {
        Some(lease) => (lease.t1, lease.t2),
        None => (None, None),
    }
}

/// Adds a value, where it has the form of its code.
fn push_value(
    alloc: Global,
    values: &mut Vec<Value>,
    code: u16,
    bytes: &[u8],
) -> Result<(), NoMemory>
    ensures { OnOk result
        (values_content values.new.items ≡ values_content values.old.items ++ taking.value_granted code bytes.now) }
{
    if is_well_formed6(alloc, code, bytes)? {
        let bytes = Vec::from_slice(alloc, bytes)?;
        values.push(Value { code, bytes })?;
    }
    Ok(())
}

/// The values that the Reply has for the lease.
fn values_granted(alloc: Global, message: &Msg6) -> Result<Vec<Value>, NoMemory>
    ensures { IfOk result (λ values. values_content values.items ≡ taking.values_granted (message_shown message.now)) }
{
    let mut values = Vec::new(alloc);
    push_value(alloc, &mut values, code::DNS_SERVERS, message.dns)?;
    push_value(alloc, &mut values, code::DOMAIN_LIST, message.search)?;
    Ok(values)
}

/// The lease of an interface after the Reply of a server, unless no item is left.
pub fn lease_granted(
    alloc: Global,
    iface: IfSpec,
    server: Duid,
    meeting: Meeting6,
    asks: &[IaAsk],
) -> Result<Option<Lease6>, NoMemory>
    requires name { FitsName iface.name }
    requires at { IsMoment meeting.at }
    requires asks { FitsAsks asks.now }
    requires kept { IfSome (option_map lease6_content meeting.kept.now) FitsLease6 }
    ensures fits { IfOk result (λ lease. IfSome (option_map lease6_content lease) FitsLease6) }
    ensures lease { IfOk result
        (λ lease. option_map lease6_content lease
        ≡ taking.lease_granted iface server.bytes.items (message_shown meeting.entry.message.now)
        (meeting_shown meeting.entry) asks.now) }
{
    let granting = granted_by(alloc, meeting, asks)?;
    if granting.ias.is_empty() {
        return Ok(None);
    }
    let (t1, t2) = times_granted(meeting, granting.spans);
    let values = values_granted(alloc, meeting.message)?;
    Ok(Some(Lease6 {
        origin: Some(Origin {
            mac: iface.mac,
            confirmed: meeting.at,
        }),
        name: iface.name,
        server,
        t1,
        t2,
        ias: granting.ias,
        values,
    }))
}
