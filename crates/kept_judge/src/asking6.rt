//! A turn of an interface that asks for its kept lease of DHCPv6 (RFC 8415, section 18.2.12).

ghost use Rattle.std.specs.Prelude.{◌≡◌, ◌+◌, true, nat_lt, List, [], ◌∷◌, map, option_map};
ghost use Rattle.v6_client.specs.declared.times.TheConstants as own;
ghost use Rattle.audit_words.specs.EvidenceWords.Entries as told;
ghost use Rattle.lease6_evidence.specs.Exchanges6.{messages6_at};
ghost use Rattle.audit_words.specs.Shown.{entry_shown, site_shown};
ghost use Rattle.kept_judge.specs.Asking6.{Tells6, has_reply, if_stays6, is_asking6, is_over6, is_rebind, said6_one, spoken_all, spoken_maybe, spoken_of, turned6, unless_replied};

use crate::standing::{Asked6, Kept6, Spoken6};
use crate::staying::{carrier_after, stays};
use audit_words::{Entry, Site};
use v6_message::Kind6;
use world::Event;

/// For so many milliseconds the items of a kept lease are asked for again.
const RESTART_TIME: u64 = 10_000;

fn is_rebind(kind: Kind6) -> bool
    ensures { result ≡ is_rebind kind }
{
    match kind {
        Kind6::Solicit => false,
        Kind6::Request => false,
        Kind6::Renew => false,
        Kind6::Rebind => true,
        Kind6::Release => false,
        Kind6::Decline => false,
    }
}

/// Whether a moment is less than ten seconds after another one, or before it.
#[tactic(auto, using(crate::proofs::Soon::sooner))]
fn is_soon(since: u64, now: u64) -> bool
    ensures { result ≡ nat_lt now (since + own.RESTART_TIME) }
{
    now.saturating_sub(since) < RESTART_TIME
}

impl Asked6 {
    /// The same, or nothing, where the lease is over.
    fn if_stays(self, stays: bool) -> Asked6
        ensures { result ≡ if_stays6 stays self }
    {
        if stays { self } else { Asked6::Over }
    }

    /// After a message of the interface at a moment.
    fn said_one(self, at: u64, spoken: Spoken6) -> Asked6
        ensures { result ≡ said6_one at spoken.kind spoken.xid self }
    {
        match self {
            Asked6::Nothing if is_rebind(spoken.kind) => Asked6::Again {
                xid: spoken.xid,
                since: at,
            },
            Asked6::Nothing => Asked6::Over,
            Asked6::Again { xid, since } if is_rebind(spoken.kind) && spoken.xid == xid => {
                Asked6::Again { xid, since }
            }
            Asked6::Again { .. } => Asked6::Over,
            Asked6::Over => Asked6::Over,
        }
    }

    fn said_maybe(self, at: u64, spoken: Option<Spoken6>) -> Asked6
        ensures { result ≡ spoken_maybe at spoken self }
    {
        match spoken {
            None => self,
            Some(spoken) => self.said_one(at, spoken),
        }
    }

    /// After the messages of a turn.
    fn said_all(self, at: u64, messages: &[Option<Spoken6>]) -> Asked6
        ensures { result ≡ spoken_all at messages.now self }
    {
        let mut asked = self;
        for message in messages {
            asked = asked.said_maybe(at, *message);
        }
        asked
    }

    /// The same, or nothing, where a good Reply came.
    fn unless_replied(self, replied: bool) -> Asked6
        ensures { result ≡ unless_replied replied self }
    {
        if replied { Asked6::Over } else { self }
    }

    /// Whether servers are asked for the lease, and the first REBIND is less than ten seconds ago.
    pub fn is_asking(self, now: u64) -> bool
        ensures { result ≡ is_asking6 now self }
    {
        match self {
            Asked6::Nothing => false,
            Asked6::Again { since, .. } => is_soon(since, now),
            Asked6::Over => false,
        }
    }
}

impl Kept6 {
    /// Before all turns.
    pub fn first(site: &Site) -> Kept6
        ensures { Tells6 result (site_shown site.now) [] }
    {
        Kept6 {
            up: site.up,
            asked: Asked6::Nothing,
        }
    }

    /// After a turn of an interface of this number.
    fn after(self, index: u32, entry: &Entry, messages: &[Option<Spoken6>], replied: bool) -> Kept6
        ensures { result ≡ turned6 index entry.now.event (spoken_all entry.now.moment messages.now) replied self }
    {
        let asked = self.asked.if_stays(stays(self.up, index, entry.event));
        Kept6 {
            up: carrier_after(index, entry.event, self.up),
            asked: asked
                .said_all(entry.moment, messages)
                .unless_replied(replied),
        }
    }

    /// Whether the lease can't be held any more, whatever is said or heard.
    pub fn is_over(&self) -> bool
        ensures { result ≡ is_over6 self.now.asked }
    {
        match self.asked {
            Asked6::Nothing => false,
            Asked6::Again { .. } => false,
            Asked6::Over => true,
        }
    }

    /// After a further turn where it is over: nothing else is looked at.
    pub fn rests(self, site: &Site, entry: &Entry) -> Kept6
        requires { is_over6 self.asked ≡ true }
        ensures { (past : List told.Entry)
            → Tells6 self (site_shown site.now) past
            → Tells6 result (site_shown site.now) (entry_shown entry.now ∷ past) }
    {
        Kept6 {
            up: carrier_after(site.index(), entry.event, self.up),
            asked: Asked6::Over,
        }
    }

    /// After a further turn. `messages` are the interface's own DHCPv6 messages of the turn, and `replied` says whether
    /// a good Reply came in the exchange that is open then (RFC 8415, section 18.2.12).
    pub fn turned(
        self,
        site: &Site,
        entry: &Entry,
        messages: &[Option<Spoken6>],
        replied: bool,
    ) -> Kept6
        ensures { (past : List told.Entry)
            → messages.now ≡ map (option_map spoken_of) (messages6_at (site_shown site.now) (entry_shown entry.now))
            → replied ≡ has_reply (site_shown site.now) (entry_shown entry.now) past
            → Tells6 self (site_shown site.now) past
            → Tells6 result (site_shown site.now) (entry_shown entry.now ∷ past) }
    {
        self.after(site.index(), entry, messages, replied)
    }
}
