//! The judge of the items of an interface's DHCPv6 leases.

ghost use Rattle.std.specs.Prelude.{◌≡◌, ◌<◌, ◌^◌, [], ◌∷◌, List, map, IfOk};
ghost use Rattle.std.specs.List.{list_any};
ghost use Rattle.std.specs.Option.{option_map};
ghost use Rattle.evidence_words.specs.ClientModel.ClientSettings6.{ask_for};
ghost use Rattle.evidence_words.specs.Entries as told;
ghost use Rattle.evidence_words.specs.Inputs as inputs;
ghost use Rattle.lease6_evidence.specs.Exchanges6.{seen6_in};
ghost use Rattle.lease6_evidence.specs.Replies6.{message6_at};
ghost use Rattle.audit_words.specs.Shown.{entry_shown, offer_shown, site_shown};
ghost use Rattle.item_judge.specs.Asking as states;
ghost use Rattle.item_judge.specs.Judging.{AreTurned, Tells, TellsTables, holds_address, holds_prefix, is_delegated, is_given, is_na, is_pd, offers_next};
ghost use Rattle.item_judge.specs.Hearing.{hears_item, holder_among, holder_in};
ghost use Rattle.item_judge.specs.Kept.{asking_content, heard_content};
ghost use Rattle.item_judge.specs.Replying.{has_good};

use crate::asking::{Asking, said_next};
use crate::heard::{Heard, carrier_after, heard_by, message6_at, reported_at, stays};
use crate::own::{ask_for, message6_of};
use crate::table::{ADDRESS_BITS, ItemTable, Turn, gives_alone};
use crate::terms::Terms;
use audit_words::{Entry, Offer, Site};
use net_types::{Net, Net6, NoMemory};
use settings::IaConf;
use std::alloc::Global;
use v6_items::IaAsk;
use v6_options::IaKind;

/// What is kept of an interface: whether it has carrier, the exchange that is open, and the items that the Replies to
/// its own messages give, of each IA that it asks for.
#[derive(Drop)]
pub struct ItemJudge {
    up: bool,
    asking: Option<Asking>,
    tables: Vec<ItemTable>,
}

/// The open exchange after a frame that was offered.
fn offer_next(
    alloc: Global,
    site: &Site,
    offer: &Offer,
    asking: Option<Asking>,
) -> Result<Option<Asking>, NoMemory>
    ensures { IfOk result (λ next. option_map asking_content next
        ≡ offers_next (site_shown site.now) (offer_shown offer.now ∷ []) (option_map asking_content asking)) }
{
    if offer.iface.number != site.index() {
        return Ok(asking);
    }
    match message6_of(alloc, site, offer)? {
        Some(sent) => said_next(alloc, &sent.said, asking),
        None => Ok(asking),
    }
}

/// The open exchange after the frames that were offered in a turn.
fn offers_next(
    alloc: Global,
    site: &Site,
    offers: &[Offer],
    asking: Option<Asking>,
) -> Result<Option<Asking>, NoMemory>
    ensures { IfOk result (λ next. option_map asking_content next
        ≡ offers_next (site_shown site.now) (map offer_shown offers.now) (option_map asking_content asking)) }
{
    let mut next = asking;
    'offers: for offer in offers {
        next = offer_next(alloc, site, offer, next)?;
    }
    Ok(next)
}

/// Each table after a turn.
fn tables_turned(
    alloc: Global,
    tables: Vec<ItemTable>,
    turn: &Turn,
) -> Result<Vec<ItemTable>, NoMemory>
    requires { turn.now.came < 10 ^ 15 }
    ensures { IfOk result (λ nexts. AreTurned turn.now tables.items nexts.items) }
{
    let mut nexts = Vec::new(alloc);
    'tables: for table in tables {
        nexts.push(table.turned(alloc, turn)?)?;
    }
    Ok(nexts)
}

/// The open exchange after a good Reply.
fn with_answer(heard: Option<Heard>, asking: Option<Asking>) -> Option<Asking>
    ensures { option_map asking_content result
        ≡ states.with_answer (option_map heard_content heard.entry) (option_map asking_content asking) }
{
    if heard.is_none() {
        return asking;
    }
    match asking {
        Some(asking) => Some(Asking {
            xid: asking.xid,
            named: asking.named,
            solicits: asking.solicits,
            answered: true,
        }),
        None => None,
    }
}

/// Empty tables of the IAs that are asked for.
fn first_tables(alloc: Global, confs: &[IaConf]) -> Result<Vec<ItemTable>, NoMemory>
    ensures { IfOk result (λ tables. (site : inputs.Site) → TellsTables site [] tables.items (map ask_for confs.now)) }
{
    let mut tables = Vec::new(alloc);
    'confs: for conf in confs {
        tables.push(ItemTable {
            ask: ask_for(conf),
            terms: Terms::new(alloc),
        })?;
    }
    Ok(tables)
}

fn is_na(kind: IaKind) -> bool
    ensures { result ≡ is_na kind }
{
    match kind {
        IaKind::Na => true,
        IaKind::Pd => false,
    }
}

/// Whether a table has an item as an address, and holds it at a moment.
fn holds_address(table: &ItemTable, net: Net6, now: u64) -> bool
    ensures { result ≡ holds_address table.now net now }
{
    is_na(table.ask.kind) && net.len == ADDRESS_BITS && table.terms.holds(net, now)
}

fn some_holds(tables: &[ItemTable], net: Net6, now: u64) -> bool
    ensures { result ≡ list_any (λ table. holds_address table net now) tables.now }
{
    tables.iter().any(|table| holds_address(table, net, now))
}

fn is_pd(kind: IaKind) -> bool
    ensures { result ≡ is_pd kind }
{
    match kind {
        IaKind::Na => false,
        IaKind::Pd => true,
    }
}

/// Whether a table has an item as a prefix of an IAID, and holds it at a moment.
fn holds_prefix(table: &ItemTable, iaid: u32, net: Net6, now: u64) -> bool
    ensures { result ≡ holds_prefix table.now iaid net now }
{
    is_pd(table.ask.kind) && table.ask.iaid == iaid && table.terms.holds(net, now)
}

fn some_delegates(tables: &[ItemTable], iaid: u32, net: Net6, now: u64) -> bool
    ensures { result ≡ list_any (λ table. holds_prefix table iaid net now) tables.now }
{
    tables
        .iter()
        .any(|table| holds_prefix(table, iaid, net, now))
}

/// The IA of the first table that has an item as an address, and holds it at a moment.
fn holder_among(tables: &[ItemTable], net: Net6, now: u64) -> Option<IaAsk>
    ensures { result ≡ holder_among tables.now net now }
{
    'tables: for table in tables {
        if holds_address(table, net, now) {
            return Some(table.ask);
        }
    }
    None
}

impl ItemJudge {
    /// The judge before all turns.
    pub fn first(alloc: Global, site: &Site) -> Result<ItemJudge, NoMemory>
        ensures { IfOk result (λ judge. Tells judge (site_shown site.now) []) }
    {
        Ok(ItemJudge {
            up: site.up,
            asking: None,
            tables: first_tables(alloc, &site.managed.conf.dhcp6.ias)?,
        })
    }

    /// The judge after one more turn.
    pub fn turned(self, alloc: Global, site: &Site, entry: &Entry) -> Result<ItemJudge, NoMemory>
        requires { entry.now.moment < 10 ^ 15 }
        ensures { IfOk result (λ next. (past : List told.Entry) → Tells self (site_shown site.now) past
            → Tells next (site_shown site.now) (entry_shown entry.now ∷ past)) }
    {
        let index = site.index();
        let asking = offers_next(alloc, site, &entry.offers, self.asking)?;
        let heard = heard_by(alloc, site, &asking, message6_at(site, entry))?;
        let turn = Turn {
            stays: stays(self.up, index, entry.event),
            reported: reported_at(index, entry.event),
            came: entry.moment,
            heard,
        };
        Ok(ItemJudge {
            up: carrier_after(index, entry.event, self.up),
            asking: with_answer(heard, asking),
            tables: tables_turned(alloc, self.tables, &turn)?,
        })
    }

    /// Whether a good Reply comes in a turn, in the exchange that is open after the turns so far.
    pub fn has_reply(&self, alloc: Global, site: &Site, entry: &Entry) -> Result<bool, NoMemory>
        ensures { IfOk result
            (λ replied. (past : List told.Entry) → Tells self.now (site_shown site.now) past
            → replied
            ≡ has_good (site_shown site.now) (seen6_in (site_shown site.now) past).current
            (message6_at (site_shown site.now) (entry_shown entry.now))) }
    {
        let heard = heard_by(alloc, site, &self.asking, message6_at(site, entry))?;
        Ok(heard.is_some())
    }

    /// Whether the good Reply of a turn gives an item by itself, which isn't over at a moment. The judge is after that
    /// turn.
    pub fn hears(
        &self,
        alloc: Global,
        site: &Site,
        entry: &Entry,
        ask: IaAsk,
        net: Net6,
        now: u64,
    ) -> Result<bool, NoMemory>
        requires { entry.now.moment < 10 ^ 15 }
        ensures { IfOk result
            (λ gives. (past : List told.Entry)
            → Tells self.now (site_shown site.now) (entry_shown entry.now ∷ past)
            → gives ≡ hears_item (site_shown site.now) ask net now (entry_shown entry.now) past) }
    {
        let heard = heard_by(alloc, site, &self.asking, message6_at(site, entry))?;
        gives_alone(alloc, ask, entry.moment, heard, net, now)
    }

    /// The first IA_NA that the interface asks for which holds an address at a moment.
    pub fn holder(&self, net: Net6, now: u64) -> Option<IaAsk>
        ensures { (site : inputs.Site) (past : List told.Entry) → Tells self.now site past
            → result ≡ holder_in site net now past }
    {
        holder_among(&self.tables, net, now)
    }

    /// Whether the interface holds a net at a moment as an address of an IA_NA that it asks for.
    pub fn gives(&self, site: &Site, net: Net, now: u64) -> bool
        ensures { (past : List told.Entry) → Tells self.now (site_shown site.now) past
            → result ≡ is_given (site_shown site.now) net now past }
    {
        match net {
            Net::V6(net) => some_holds(&self.tables, net, now),
            Net::V4(_) => false,
        }
    }

    /// Whether the interface holds a prefix at a moment, of an IA_PD of this IAID that it asks for.
    pub fn holds_prefix(&self, site: &Site, iaid: u32, prefix: Net6, now: u64) -> bool
        ensures { (past : List told.Entry) → Tells self.now (site_shown site.now) past
            → result ≡ is_delegated (site_shown site.now) iaid prefix now past }
    {
        some_delegates(&self.tables, iaid, prefix, now)
    }
}
