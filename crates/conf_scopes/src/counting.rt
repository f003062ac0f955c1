//! How much a configuration may say.
ghost use Rattle.std.specs.Prelude.{◌≡◌, ◌+◌, ◌≤◌, ◌++◌, [], length, map, nat_lt};
ghost use Rattle.std.specs.List.{list_any};
ghost use Rattle.conf_directives.specs.Contents.{directive_content, ia_content, static_content};
ghost use Rattle.conf_scopes.specs.Limits.{counts_of, is_ia, is_repeated, is_same_kind, is_too_much, members, patterns_counted, words_counted};
ghost use Rattle.conf_scopes.specs.ScopeSteps.{both_counts};

use conf_directives::{CodeList, Directive, IaLine, InterfaceList, StaticValue};
use v6_options::IaKind;

/// The most interfaces that have blocks.
pub const MOST_BLOCKS: usize = 64;
/// The most words of each list of options or interfaces, the most variables and the most networks of servers.
pub const MOST_WORDS: usize = 64;
/// The most identity associations.
pub const MOST_IAS: usize = 6;
/// The most shares of one line.
pub const MOST_SHARES: usize = 32;
/// The most members of a static value.
pub const MOST_MEMBERS: usize = 16;

/// How much of each kind lines say.
#[derive(Clone, Copy)]
pub struct Counts {
    /// Words of `option`, `nooption` and `require`, those that are only noticed included.
    pub asked: usize,
    pub refused: usize,
    pub required: usize,
    pub ias: usize,
    pub env: usize,
    pub blacklist: usize,
    /// Words of `allowinterfaces` and `denyinterfaces`.
    pub allowed: usize,
    pub denied: usize,
}

impl Counts {
    /// Nothing is said.
    pub fn none() -> Counts
        ensures { result ≡ counts_of [] [] }
    {
        Counts {
            asked: 0,
            refused: 0,
            required: 0,
            ias: 0,
            env: 0,
            blacklist: 0,
            allowed: 0,
            denied: 0,
        }
    }

    fn words(&self, list: CodeList) -> usize
        ensures { result ≡ words_counted list self.now }
    {
        match list {
            CodeList::Asked => self.asked,
            CodeList::Refused => self.refused,
            CodeList::Required => self.required,
        }
    }

    fn patterns(&self, list: InterfaceList) -> usize
        ensures { result ≡ patterns_counted list self.now }
    {
        match list {
            InterfaceList::Allowed => self.allowed,
            InterfaceList::Denied => self.denied,
        }
    }
}

/// Whether so much, so much and more are beyond a limit.
fn is_beyond(most: usize, global: usize, block: usize, more: usize) -> bool
    requires { most ≤ 64 }
    ensures { result ≡ nat_lt most (global + block + more) }
{
    global.saturating_add(block).saturating_add(more) > most
}

fn members(value: &StaticValue) -> usize
    ensures { result ≡ members (static_content value.now) }
{
    match value {
        StaticValue::Routers(addresses) | StaticValue::NameServers(addresses) => addresses.len(),
        StaticValue::DomainSearch(names) => names.len(),
        StaticValue::Address(_) | StaticValue::DomainName(_) | StaticValue::Address6(_) => 1,
    }
}

/// Whether a line says too much, after global lines and those of its block that say so much.
pub fn is_too_much(global: &Counts, block: &Counts, directive: &Directive) -> bool
    ensures { result ≡ is_too_much (both_counts global.now block.now) (directive_content directive.now) }
{
    match directive {
        Directive::Codes(list, said) => {
            is_beyond(
                MOST_WORDS,
                global.words(*list),
                block.words(*list),
                said.words,
            )
        }
        Directive::Static(value) => members(value) > MOST_MEMBERS,
        Directive::Ia(ia) => {
            is_beyond(MOST_IAS, global.ias, block.ias, 1) || ia.shares.len() > MOST_SHARES
        }
        Directive::Env(_) => is_beyond(MOST_WORDS, global.env, block.env, 1),
        Directive::Blacklist(nets) => {
            is_beyond(MOST_WORDS, global.blacklist, block.blacklist, nets.len())
        }
        Directive::Interfaces(list, patterns) => {
            is_beyond(
                MOST_WORDS,
                global.patterns(*list),
                block.patterns(*list),
                patterns.len(),
            )
        }
        Directive::Flag(_)
        | Directive::Seconds(_, _)
        | Directive::Metric(_)
        | Directive::HostName(_)
        | Directive::VendorClass(_)
        | Directive::Identifier(_)
        | Directive::Script(_) => false,
    }
}

/// Whether both are of addresses, or both of prefixes.
pub fn is_same_kind(one: IaKind, other: IaKind) -> bool
    ensures { result ≡ is_same_kind one other }
{
    match (one, other) {
        (IaKind::Na, IaKind::Na) | (IaKind::Pd, IaKind::Pd) => true,
        (IaKind::Na, IaKind::Pd) | (IaKind::Pd, IaKind::Na) => false,
    }
}

fn is_ia(kind: IaKind, iaid: u32, ia: &IaLine) -> bool
    ensures { result ≡ is_ia kind iaid (ia_content ia.now) }
{
    match ia.iaid {
        Some(other) => is_same_kind(kind, ia.kind) && iaid == other,
        None => false,
    }
}

/// Whether an association of this kind has this IAID written.
pub fn has_ia(kind: IaKind, iaid: u32, ias: &[IaLine]) -> bool
    ensures { result ≡ list_any (λ ia. is_ia kind iaid (ia_content ia)) ias.now }
{
    ias.iter().any(|ia| is_ia(kind, iaid, ia))
}

/// Whether a line is an identity association whose kind and written IAID stand already.
#[tactic(auto, using(crate::proofs::AnyLaws::any_of_both))]
pub fn is_repeated(global: &[IaLine], block: &[IaLine], directive: &Directive) -> bool
    ensures { result
        ≡ is_repeated (map ia_content global.now ++ map ia_content block.now) (directive_content directive.now) }
{
    match directive {
        Directive::Ia(ia) => match ia.iaid {
            Some(iaid) => has_ia(ia.kind, iaid, global) || has_ia(ia.kind, iaid, block),
            None => false,
        },
        Directive::Flag(_)
        | Directive::Seconds(_, _)
        | Directive::Metric(_)
        | Directive::HostName(_)
        | Directive::VendorClass(_)
        | Directive::Identifier(_)
        | Directive::Codes(_, _)
        | Directive::Static(_)
        | Directive::Env(_)
        | Directive::Blacklist(_)
        | Directive::Interfaces(_, _)
        | Directive::Script(_) => false,
    }
}
