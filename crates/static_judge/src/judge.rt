//! Judging turn by turn whether a configured address stands: the interface has carrier, and no stop was asked for.

ghost use Rattle.std.specs.Prelude.{◌≡◌, ◌∷◌, [], List};
ghost use Rattle.audit_words.specs.EvidenceWords.Entries as told;
ghost use Rattle.audit_words.specs.EvidenceWords.Inputs.{is_stop};
ghost use Rattle.audit_words.specs.Shown.{entry_shown, site_shown};
ghost use Rattle.static_judge.specs.Judge.{Tells, gives_in, is_configured};

use audit_words::{Entry, Site};
use net_types::Net;
use probe_table::carrier_after;
use settings::IfConf;
use world::Event;

/// Whether a turn tells the daemon to stop.
fn is_stop(event: Event) -> bool
    ensures { result ≡ is_stop event }
{
    match event {
        Event::Stop => true,
        Event::Frame { .. }
        | Event::Carrier { .. }
        | Event::Duplicate { .. }
        | Event::Release { .. }
        | Event::Rebind { .. }
        | Event::Quiet
        | Event::End => false,
    }
}

/// Whether an address is configured as the static one of its family.
fn is_configured(conf: &IfConf, net: Net) -> bool
    ensures { result ≡ is_configured conf.now net }
{
    match net {
        Net::V4(net) => conf.address == Some(net),
        Net::V6(net) => conf.address6 == Some(net),
    }
}

/// What is kept of an interface to tell whether its static addresses stand: whether it has carrier, and whether the
/// daemon was told to stop.
#[derive(Clone, Copy)]
pub struct StaticJudge {
    up: bool,
    stopped: bool,
}

impl StaticJudge {
    /// Before the first turn.
    pub fn first(site: &Site) -> StaticJudge
        ensures { Tells result (site_shown site.now) [] }
    {
        StaticJudge {
            up: site.up,
            stopped: false,
        }
    }

    /// After one turn more.
    pub fn turned(self, site: &Site, entry: &Entry) -> StaticJudge
        ensures { (past : List told.Entry) → Tells self (site_shown site.now) past
            → Tells result (site_shown site.now) (entry_shown entry.now ∷ past) }
    {
        StaticJudge {
            up: carrier_after(site.index(), entry.event, self.up),
            stopped: is_stop(entry.event) || self.stopped,
        }
    }

    /// Whether an address stands as a static one.
    pub fn gives(&self, site: &Site, net: Net) -> bool
        ensures { (past : List told.Entry) → Tells self.now (site_shown site.now) past
            → result ≡ gives_in (site_shown site.now) net past }
    {
        self.up && !self.stopped && is_configured(&site.managed.conf, net)
    }
}
