//! How long the items of an IA are held.

ghost use Rattle.std.specs.Prelude.{◌≡◌, ◌<◌, ◌^◌, Some, None, OnOk};
ghost use Rattle.net_types.specs.declared.address.Net6.{Net6};
ghost use Rattle.lease6_judge.specs.Terms.{is_held, longer, not_held, term_of};
ghost use Rattle.item_judge.specs.Tables.{extended_at, place_of, removed_at, term_at, term_content};

use net_types::{Net6, NoMemory};
use std::alloc::Global;
use std::collections::BTreeMap;

/// The seconds of a valid lifetime that never ends (RFC 8415, section 7.7).
const FOREVER: u32 = 0xffff_ffff;
/// The milliseconds of a second.
const SECOND: u64 = 1000;

/// Where an item stands in a table: its number, and its length.
#[derive(Clone, Copy, Debug, PartialEq, Eq, PartialOrd, Ord, Drop)]
pub(crate) struct Place {
    number: u128,
    len: u8,
}

/// How long an item is held.
#[derive(Clone, Copy, Drop)]
pub(crate) enum Term {
    /// Up to a moment in milliseconds since 1970.
    Until(u64),
    Forever,
}

/// The items of an IA, and how long each is held.
#[derive(Drop)]
pub(crate) struct Terms {
    terms: BTreeMap<Place, Term>,
}

/// The term of a valid lifetime, in seconds from a moment on.
pub(crate) fn term_of(came: u64, valid: u32) -> Term
    requires { came < 10 ^ 15 }
    ensures { term_content (Some result) ≡ term_of came valid }
{
    if valid == FOREVER {
        return Term::Forever;
    }
    Term::Until(came + SECOND * u64::from(valid))
}

/// The longer one of two.
fn longer(one: Term, other: Term) -> Term
    ensures { term_content (Some result) ≡ longer (term_content (Some one)) (term_content (Some other)) }
{
    match (one, other) {
        (Term::Until(end), Term::Until(other)) => Term::Until(end.max(other)),
        (Term::Forever, _) | (_, Term::Forever) => Term::Forever,
    }
}

/// A further term beside the one that stands, if one does.
#[tactic(auto, using(crate::proofs::Walked::beside_none))]
fn beside(term: Term, before: Option<Term>) -> Term
    ensures { term_content (Some result) ≡ longer (term_content (Some term)) (term_content before) }
{
    match before {
        Some(before) => longer(term, before),
        None => term,
    }
}

/// Where an item stands.
fn place_of(net: Net6) -> Place
    ensures { result ≡ place_of net }
{
    Place {
        number: net.ip.number,
        len: net.len,
    }
}

impl Terms {
    /// A table without items.
    pub(crate) fn new(alloc: Global) -> Terms
        ensures { (net : Net6) → term_at result net ≡ not_held }
    {
        Terms {
            terms: BTreeMap::new(alloc),
        }
    }

    /// How long an item is held, if it is.
    pub(crate) fn term(&self, net: Net6) -> Option<Term>
        ensures { term_content result ≡ term_at self.now net }
    {
        self.terms.get(&place_of(net)).copied()
    }

    /// Whether an item is held at a moment.
    pub(crate) fn holds(&self, net: Net6, now: u64) -> bool
        ensures { result ≡ is_held now (term_at self.now net) }
    {
        match self.term(net) {
            Some(Term::Until(end)) => now < end,
            Some(Term::Forever) => true,
            None => false,
        }
    }

    /// Lets an item go.
    pub(crate) fn remove(&mut self, net: Net6)
        ensures { (other : Net6) → term_at self.new other ≡ removed_at net other (term_at self.old other) }
    {
        let _ = self.terms.remove(&place_of(net));
    }

    /// Holds an item for a further term.
    pub(crate) fn extend(&mut self, net: Net6, term: Term) -> Result<(), NoMemory>
        ensures { OnOk result ((other : Net6)
            → term_at self.new other ≡ extended_at net (term_content (Some term)) other (term_at self.old other)) }
    {
        let longest = beside(term, self.term(net));
        match self.terms.insert(place_of(net), longest) {
            Ok(_) => Ok(()),
            Err(_) => Err(NoMemory),
        }
    }
}
