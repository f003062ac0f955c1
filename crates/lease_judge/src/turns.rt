//! A judge of leases, which takes one turn after another (RFC 2131, sections 3.1 and 4.4).

ghost use Rattle.std.specs.Prelude.{◌≡◌, true, ◌∷◌, [], List, IfOk};
ghost use Rattle.std.specs.Option.{option_map};
ghost use Rattle.net_types.specs.Moments.{IsMoment};
ghost use Rattle.v4_client.specs.Settings.{settings_content};
ghost use Rattle.v4_frames.specs.Heard.{heard_shown};
ghost use Rattle.evidence_words.specs.Entries as told_entries;
ghost use Rattle.evidence_words.specs.Inputs as told_of;
ghost use Rattle.own_frames4.specs.LeaseEvidence.Exchanges.{messages_at, seen_in};
ghost use Rattle.own_frames4.specs.LeaseEvidence.Replies.{arrival_in, message_on, reply_by};
ghost use Rattle.audit_words.specs.Shown.{FitsSite, entry_shown, site_shown};
ghost use Rattle.lease_judge.specs.Answers.{answer_by, answer_in};
ghost use Rattle.lease_judge.specs.Judge.{judge_in};
ghost use Rattle.lease_judge.specs.Leased.{is_leased};
ghost use Rattle.lease_judge.specs.Numbers.{granted_number, open_number};
ghost use Rattle.lease_judge.specs.ProbedTurns.{IsSettled, calm_in};
ghost use Rattle.lease_judge.specs.Turns.{Tells};
ghost use Rattle.lease_judge.specs.Watched.{HasMoment, HasMoments, hears_by, judge_shown, seen_shown};

use crate::probes::LeaseProbes;
use crate::watch::{Seen, Watch};
use audit_words::{Entry, Site};
use iface_machines::settings_of;
use net_types::{Net, NoMemory};
use own_frames4::messages_of;
use std::alloc::Global;
use std::marker::Model;
use v4_client::{Answer4, Arrival4, Exchange4, Set4, reply_in};
use v4_frames::{Heard4, Sent4, heard4_of};
use world::Event;

/// A judge of the leases of one interface: the settings of its client, what is kept of its turns, and of the addresses
/// that are probed.
#[derive(Drop)]
pub struct LeaseJudge {
    set: Set4,
    watch: Watch,
    probes: LeaseProbes,
}

impl Model for LeaseJudge {
    ghost use Rattle.v4_client.specs.Settings.{settings_content};
    ghost use Rattle.lease_judge.specs.Turns.{IsSound, JudgeContent};

    ghost Value = { JudgeContent };

    ghost view = { λ j. record { settings = settings_content j.set; watch = j.watch; probes = j.probes } };

    ghost invariant = { λ j. IsSound (settings_content j.set) j.watch };
}

/// The server's message that came in on the interface.
fn message_on<'a>(site: &Site, entry: &'a Entry) -> Option<Heard4<'a>>
    ensures { option_map heard_shown result ≡ message_on (site_shown site.now) entry.now.event entry.now.bytes.items }
{
    match entry.event {
        Event::Frame { iface, .. } if site.index() == iface => {
            heard4_of(site.managed.spec.mac, &entry.bytes)
        }
        Event::Frame { .. }
        | Event::Carrier { .. }
        | Event::Duplicate { .. }
        | Event::Release { .. }
        | Event::Rebind { .. }
        | Event::Stop
        | Event::Quiet
        | Event::End => None,
    }
}

/// What the input of a turn says in an exchange: an ACK with its terms, or a NAK, where it is acceptable.
fn reply_to(set: &Set4, site: &Site, entry: &Entry, exchange: Exchange4) -> Answer4
    requires { IsMoment exchange.first }
    ensures { result
        ≡ reply_by (settings_content set.now) exchange (arrival_in (site_shown site.now) (entry_shown entry.now)) }
{
    let Some(heard) = message_on(site, entry) else {
        return Answer4::Nothing;
    };
    let arrival = Arrival4 {
        message: heard.message,
        source: heard.source,
        at: entry.moment,
    };
    reply_in(set, &arrival, exchange)
}

/// What is kept after what a server says in the open exchange. The first ACK of an exchange is its answer: what comes
/// after it in that exchange counts for nothing.
fn heard(set: &Set4, site: &Site, entry: &Entry, watch: Watch) -> Watch
    requires { HasMoments watch }
    ensures shown { judge_shown result
        ≡ hears_by (settings_content set.now) (site_shown site.now) (entry_shown entry.now) (judge_shown watch) }
    ensures moments { HasMoments result }
{
    let Some(opened) = watch.seen.current else {
        return watch;
    };
    if watch.answered == opened.number {
        return watch;
    }
    watch.told(opened, reply_to(set, site, entry, opened.exchange))
}

/// What the input of a turn says in the exchange that is open.
fn answer_in(set: &Set4, site: &Site, entry: &Entry, seen: &Seen) -> Answer4
    requires { HasMoment seen.now }
    ensures { result
        ≡ answer_by (settings_content set.now) (site_shown site.now) (entry_shown entry.now)
        (seen_shown seen.now).current }
{
    let Some(opened) = seen.current else {
        return Answer4::Nothing;
    };
    reply_to(set, site, entry, opened.exchange)
}

impl LeaseJudge {
    /// Before all turns.
    #[tactic(auto, using(crate::proofs::ProbesHeld::none_held))]
    pub fn first(alloc: Global, site: &Site) -> Result<LeaseJudge, NoMemory>
        requires { FitsSite site.now }
        ensures { IfOk result (λ judge. Tells judge (site_shown site.now) []) }
    {
        let set = settings_of(alloc, &site.managed, &site.duid)?;
        Ok(LeaseJudge {
            set,
            watch: Watch::first(site.up),
            probes: LeaseProbes::new(alloc),
        })
    }

    /// After a turn. Only want of memory is an error, and more exchanges than 64 bits count.
    pub fn turned(self, alloc: Global, site: &Site, entry: &Entry) -> Result<LeaseJudge, NoMemory>
        requires { IsMoment entry.now.moment }
        ensures { IfOk result
            (λ next. (past : List told_entries.Entry) → Tells self (site_shown site.now) past
            → Tells next (site_shown site.now) (entry_shown entry.now ∷ past)) }
    {
        let messages = messages_of(alloc, &site.managed, &self.set.ask, &entry.offers)?;
        let calm = self.watch.is_calm(site.index(), entry.event, &messages);
        let seen = self
            .watch
            .sees(entry.moment, site.index(), entry.event, &messages)?;
        let watch = heard(&self.set, site, entry, seen);
        let probes = self.probes.turned(alloc, site, entry, calm)?;
        Ok(LeaseJudge {
            set: self.set,
            watch,
            probes,
        })
    }

    /// The interface's own DHCPv4 messages of a turn.
    #[tactic(auto, using(crate::proofs::AnswersTold::messages_so))]
    pub fn messages(
        &self,
        alloc: Global,
        site: &Site,
        entry: &Entry,
    ) -> Result<Vec<Option<Sent4>>, NoMemory>
        ensures { IfOk result
            (λ messages. (past : List told_entries.Entry) → Tells self.now (site_shown site.now) past
            → messages.items ≡ messages_at (site_shown site.now) (entry_shown entry.now)) }
    {
        messages_of(alloc, &site.managed, &self.set.ask, &entry.offers)
    }

    /// What a server says in a turn, in the exchange that is open after the turns so far (RFC 2131, section 3.2).
    #[tactic(auto, using(crate::proofs::AnswersTold::answer_so))]
    pub fn answer(&self, site: &Site, entry: &Entry) -> Answer4
        ensures { (past : List told_entries.Entry) → Tells self.now (site_shown site.now) past
            → result
            ≡ answer_in (site_shown site.now) (entry_shown entry.now) (seen_in (site_shown site.now) past).current }
    {
        answer_in(&self.set, site, entry, &self.watch.seen)
    }

    /// The number of the exchange that is open after the turns so far. They are counted from 1, since two may be alike.
    #[tactic(auto, using(crate::proofs::NumbersTold::open_so))]
    pub fn open_number(&self) -> Option<u64>
        ensures { (site : told_of.Site) (past : List told_entries.Entry) → Tells self.now site past
            → result ≡ open_number (seen_in site past) }
    {
        self.watch.open_number()
    }

    /// That of the exchange whose grant stands after the turns so far.
    #[tactic(auto, using(crate::proofs::NumbersTold::granted_so))]
    pub fn granted_number(&self) -> Option<u64>
        ensures { (site : told_of.Site) (past : List told_entries.Entry) → Tells self.now site past
            → result ≡ granted_number (judge_in site past).granted }
    {
        self.watch.granted_number()
    }

    /// Whether the turn after those so far is calm: it ends no lease.
    #[tactic(auto, using(crate::proofs::NumbersTold::calm_so))]
    pub fn is_calm(&self, alloc: Global, site: &Site, entry: &Entry) -> Result<bool, NoMemory>
        ensures { IfOk result
            (λ calm. (past : List told_entries.Entry) → Tells self.now (site_shown site.now) past
            → calm ≡ calm_in (site_shown site.now) (entry_shown entry.now) past) }
    {
        let messages = self.messages(alloc, site, entry)?;
        Ok(self.watch.is_calm(site.index(), entry.event, &messages))
    }

    /// Whether each address that was probed three times is a probed one: a turn in which nothing comes and nothing is
    /// offered changes nothing then.
    #[tactic(auto, using(crate::proofs::SettledProbes::turns_settled))]
    pub fn is_settled(&self, alloc: Global) -> Result<bool, NoMemory>
        ensures { IfOk result (λ settled. settled ≡ true
            → (site : told_of.Site) (past : List told_entries.Entry) → Tells self.now site past → IsSettled site past) }
    {
        let settled = self.probes.is_settled(alloc)?;
        Ok(settled)
    }

    /// Whether an address has its basis as a leased one at a moment in milliseconds since 1970.
    #[tactic(auto, using(crate::proofs::TurnsTold::gives_so))]
    pub fn gives(&self, site: &Site, net: Net, now: u64) -> bool
        ensures { (past : List told_entries.Entry) → Tells self.now (site_shown site.now) past
            → result ≡ is_leased (site_shown site.now) net now past }
    {
        match net {
            Net::V4(net) => {
                self.watch.grants(net, now)
                    && (site.managed.conf.flags.noarp || self.probes.is_probed(net.ip))
            }
            Net::V6(_) => false,
        }
    }
}
