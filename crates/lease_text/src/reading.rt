//! The text of a lease, read.

ghost use Rattle.std.specs.Prelude.{◌≡◌, ℕ, List, map, Option, option_map, IfOk, IfErr};
ghost use Rattle.net_types.specs.Cutting.{after_word, end_at};
ghost use Rattle.net_types.specs.FirstBadLine.{FirstFault, IsSpelled};
ghost use Rattle.net_types.specs.NameText.{name_at};
ghost use Rattle.net_types.specs.LineReading.{Refuses};
ghost use Rattle.net_types.specs.declared.fault.BadText.{BadText};
ghost use Rattle.lease_text.specs.declared.reading.LeaseLine.TheVariants as LeaseLine;
ghost use Rattle.lease_text.specs.declared.reading.TermLine.TheVariants as TermLine;
ghost use Rattle.lease_text.specs.Leases.{LeaseContent, lease_content, value_content, values_content};
ghost use Rattle.lease_text.specs.LeaseLines.{SpellsLease4, interface_word};
ghost use Rattle.lease_text.specs.LeaseReading.{Reading, reading_of, host_net_at, seconds_at, least_renewal, with_mac, with_confirmed, term_in, after_term};
ghost use Rattle.lease_text.specs.LeaseReading.{version_at, after_interface, last_code, may_follow, value_at, step, step_at, given, start, After, AnyCause};

use crate::lease::{INFINITE_LEASE, Lease4, Origin, Terms4, VALUE_LIMIT, Value, is_host_address};
use net_types::{
    BadText, Ip4, LineFault, LineState, MOMENT_LIMIT, Mac, Name, Net4, NoMemory, TextFault, end_of,
    hex_of, ip4_of, mac_of, name_of, net4_of, number_of, read_lines, split_at_byte, strip_word,
    u8_of,
};
use std::alloc::Global;
use v4_options::{is_kept, is_well_formed};

/// One more than the greatest number of seconds.
const SECONDS_LIMIT: u64 = 0x1_0000_0000;
/// One more than the greatest code of an option.
const CODE_LIMIT: u64 = 256;

/// A line that says a term of a lease.
#[derive(Clone, Copy, PartialEq, Eq)]
pub enum TermLine {
    OriginMac,
    Confirmed,
    Address,
    Server,
    ServerMac,
    First,
    LeaseTime,
    Renewal,
    Rebinding,
}

/// The line that comes next.
#[derive(Clone, Copy, PartialEq, Eq)]
pub enum LeaseLine {
    Version,
    Interface,
    Term(TermLine),
    /// A value more, or the last line.
    Values,
    /// The last line was read.
    Nothing,
}

/// An origin before its lines say it.
const UNTOLD_ORIGIN: Origin = Origin {
    mac: Mac { bytes: [0; 6] },
    confirmed: 0,
};

/// What the lines so far said.
#[derive(Drop)]
pub struct LeaseState {
    pub next: LeaseLine,
    pub name: Name,
    pub terms: Terms4,
    pub values: Vec<Value>,
}

fn start_of(alloc: Global) -> LeaseState
    ensures { reading_of result ≡ start }
{
    LeaseState {
        next: LeaseLine::Version,
        name: Name {
            bytes: [b'a', 0, 0, 0, 0, 0, 0, 0, 0, 0, 0, 0, 0, 0, 0],
            len: 1,
        },
        terms: Terms4 {
            origin: None,
            net: Net4 {
                ip: Ip4 { number: 1 << 24 },
                len: 0,
            },
            server: Ip4 { number: 0 },
            server_mac: Mac { bytes: [0; 6] },
            first: 0,
            lease: 1,
            t1: 0,
            t2: 0,
        },
        values: Vec::new(alloc),
    }
}

/// The line is this one and no other.
fn line_is(line: &[u8], word: &[u8]) -> Option<()>
    ensures { result ≡ after_word word.now end_at line.now }
{
    end_of(strip_word(line, word)?)
}

/// The origin that a lease of the version has before its lines say it.
#[tactic(auto, unfolding(crate::specs::LeaseReading::version_at))]
fn version_of(line: &[u8]) -> Option<Option<Origin>>
    ensures { result ≡ version_at line.now }
{
    match line_is(line, b"dhcpcd-lease4 1") {
        Some(_) => Some(None),
        None => {
            line_is(line, b"dhcpcd-lease4 2")?;
            Some(Some(UNTOLD_ORIGIN))
        }
    }
}

fn after_interface(origin: Option<Origin>) -> LeaseLine
    ensures { result ≡ after_interface origin }
{
    match origin {
        None => LeaseLine::Term(TermLine::Address),
        Some(_) => LeaseLine::Term(TermLine::OriginMac),
    }
}

fn name_line(line: &[u8]) -> Option<Name>
    ensures { result ≡ after_word interface_word name_at line.now }
{
    name_of(strip_word(line, b"interface ")?)
}

#[tactic(auto, unfolding(crate::specs::LeaseReading::host_net_at))]
fn host_net_of(text: &[u8]) -> Option<Net4>
    ensures { result ≡ host_net_at text.now }
{
    let net = net4_of(text)?;
    if is_host_address(net.ip) {
        Some(net)
    } else {
        None
    }
}

#[tactic(auto, unfolding(crate::specs::LeaseReading::seconds_at))]
fn seconds_of(text: &[u8], low: u32, high: u32) -> Option<u32>
    ensures { result ≡ seconds_at low high text.now }
{
    let number = number_of(text, SECONDS_LIMIT)?;
    let seconds = number as u32;
    if low <= seconds && seconds <= high {
        Some(seconds)
    } else {
        None
    }
}

/// The least time of renewal of a lease.
fn least_renewal(lease: u32) -> u32
    ensures { result ≡ least_renewal lease }
{
    if lease == INFINITE_LEASE {
        INFINITE_LEASE
    } else {
        0
    }
}

fn with_mac(origin: Option<Origin>, mac: Mac) -> Option<Origin>
    ensures { result ≡ with_mac origin mac }
{
    match origin {
        None => None,
        Some(origin) => Some(Origin { mac, ..origin }),
    }
}

fn with_confirmed(origin: Option<Origin>, confirmed: u64) -> Option<Origin>
    ensures { result ≡ with_confirmed origin confirmed }
{
    match origin {
        None => None,
        Some(origin) => Some(Origin {
            confirmed,
            ..origin
        }),
    }
}

#[tactic(auto, unfolding(crate::specs::LeaseReading::term_in))]
fn with_lease_time(terms: Terms4, line: &[u8]) -> Option<Terms4>
    ensures { result ≡ term_in TermLine.LeaseTime terms line.now }
{
    let lease = seconds_of(strip_word(line, b"lease ")?, 1, INFINITE_LEASE)?;
    Some(Terms4 {
        lease,
        t1: lease,
        t2: lease,
        ..terms
    })
}

#[tactic(auto, unfolding(crate::specs::LeaseReading::term_in))]
fn with_renewal(terms: Terms4, line: &[u8]) -> Option<Terms4>
    ensures { result ≡ term_in TermLine.Renewal terms line.now }
{
    let least = least_renewal(terms.lease);
    let t1 = seconds_of(strip_word(line, b"t1 ")?, least, terms.lease)?;
    Some(Terms4 {
        t1,
        t2: terms.lease,
        ..terms
    })
}

#[tactic(auto, unfolding(crate::specs::LeaseReading::term_in))]
fn with_rebinding(terms: Terms4, line: &[u8]) -> Option<Terms4>
    ensures { result ≡ term_in TermLine.Rebinding terms line.now }
{
    let t2 = seconds_of(strip_word(line, b"t2 ")?, terms.t1, terms.lease)?;
    Some(Terms4 { t2, ..terms })
}

/// The terms with what a line says.
#[tactic(auto, unfolding(crate::specs::LeaseReading::term_in))]
fn term_of(term: TermLine, terms: Terms4, line: &[u8]) -> Option<Terms4>
    ensures { result ≡ term_in term terms line.now }
{
    match term {
        TermLine::OriginMac => {
            let mac = mac_of(strip_word(line, b"mac ")?)?;
            let origin = with_mac(terms.origin, mac);
            Some(Terms4 { origin, ..terms })
        }
        TermLine::Confirmed => {
            let confirmed = number_of(strip_word(line, b"confirmed ")?, MOMENT_LIMIT)?;
            let origin = with_confirmed(terms.origin, confirmed);
            Some(Terms4 { origin, ..terms })
        }
        TermLine::Address => {
            let net = host_net_of(strip_word(line, b"address ")?)?;
            Some(Terms4 { net, ..terms })
        }
        TermLine::Server => {
            let server = ip4_of(strip_word(line, b"server ")?)?;
            Some(Terms4 { server, ..terms })
        }
        TermLine::ServerMac => {
            let server_mac = mac_of(strip_word(line, b"servermac ")?)?;
            Some(Terms4 {
                server_mac,
                ..terms
            })
        }
        TermLine::First => {
            let first = number_of(strip_word(line, b"first ")?, MOMENT_LIMIT)?;
            Some(Terms4 { first, ..terms })
        }
        TermLine::LeaseTime => with_lease_time(terms, line),
        TermLine::Renewal => with_renewal(terms, line),
        TermLine::Rebinding => with_rebinding(terms, line),
    }
}

fn after_term(term: TermLine) -> LeaseLine
    ensures { result ≡ after_term term }
{
    match term {
        TermLine::OriginMac => LeaseLine::Term(TermLine::Confirmed),
        TermLine::Confirmed => LeaseLine::Term(TermLine::Address),
        TermLine::Address => LeaseLine::Term(TermLine::Server),
        TermLine::Server => LeaseLine::Term(TermLine::ServerMac),
        TermLine::ServerMac => LeaseLine::Term(TermLine::First),
        TermLine::First => LeaseLine::Term(TermLine::LeaseTime),
        TermLine::LeaseTime => LeaseLine::Term(TermLine::Renewal),
        TermLine::Renewal => LeaseLine::Term(TermLine::Rebinding),
        TermLine::Rebinding => LeaseLine::Values,
    }
}

/// The code of the last value, or 0 where there is none.
fn last_code(values: &[Value]) -> u16
    ensures { result ≡ last_code (values_content values.now) }
{
    match values.last() {
        Some(value) => value.code,
        None => 0,
    }
}

/// Whether a value may come after one with the code `before`.
fn may_follow(before: u16, code: u8, bytes: &[u8]) -> bool
    ensures { result ≡ may_follow before (record { code = code; bytes = bytes.now }) }
{
    before < u16::from(code)
        && is_kept(code)
        && bytes.len() <= VALUE_LIMIT
        && is_well_formed(code, bytes)
}

/// The value that a line says after its first word.
#[tactic(auto, unfolding(crate::specs::LeaseReading::value_at))]
fn value_of(alloc: Global, before: u16, text: &[u8]) -> Result<Option<Value>, NoMemory>
    ensures { IfOk result (λ value. option_map value_content value ≡ value_at before text.now) }
{
    let Some((code, rest)) = split_at_byte(text, b' ') else {
        return Ok(None);
    };
    let Some(code) = u8_of(code, CODE_LIMIT) else {
        return Ok(None);
    };
    let Some(bytes) = hex_of(alloc, rest)? else {
        return Ok(None);
    };
    if may_follow(before, code, &bytes) {
        Ok(Some(Value {
            code: u16::from(code),
            bytes,
        }))
    } else {
        Ok(None)
    }
}

const BAD: LineFault<BadText> = LineFault::Bad(BadText);

impl LeaseState {
    /// The state after a value more, or after the last line.
    #[tactic(auto, unfolding(crate::specs::LeaseReading::step_at))]
    fn take_value(self, alloc: Global, line: &[u8]) -> Result<LeaseState, LineFault<BadText>>
        ensures taken { IfOk result
            (λ next. step_at LeaseLine.Values (reading_of self) line.now ≡ Some (reading_of next)) }
        ensures bad { IfErr result
            (λ fault. Refuses (step_at LeaseLine.Values (reading_of self) line.now) (record {}) fault) }
    {
        match strip_word(line, b"option ") {
            Some(rest) => match value_of(alloc, last_code(&self.values), rest)? {
                Some(value) => {
                    let mut values = self.values;
                    values.push(value)?;
                    Ok(LeaseState { values, ..self })
                }
                None => Err(BAD),
            },
            None => match line_is(line, b"end") {
                Some(_) => Ok(LeaseState {
                    next: LeaseLine::Nothing,
                    ..self
                }),
                None => Err(BAD),
            },
        }
    }
}

impl LineState for LeaseState {
    type Value = Lease4;

    type Cause = BadText;

    ghost State = { Reading };

    ghost Said = { LeaseContent };

    ghost state = { reading_of };

    ghost said = { lease_content };

    ghost step = { step };

    ghost given = { given };

    ghost cause = { λ reading front. record {} };

    ghost Spells = { SpellsLease4 };

    ghost After = { After };

    ghost Why = { AnyCause };

    #[tactic(auto, unfolding(crate::specs::LeaseReading::step_at))]
    fn take(self, alloc: Global, line: &[u8]) -> Result<LeaseState, LineFault<BadText>> {
        match self.next {
            LeaseLine::Version => match version_of(line) {
                Some(origin) => Ok(LeaseState {
                    next: LeaseLine::Interface,
                    terms: Terms4 {
                        origin,
                        ..self.terms
                    },
                    ..self
                }),
                None => Err(BAD),
            },
            LeaseLine::Interface => match name_line(line) {
                Some(name) => Ok(LeaseState {
                    next: after_interface(self.terms.origin),
                    name,
                    ..self
                }),
                None => Err(BAD),
            },
            LeaseLine::Term(term) => match term_of(term, self.terms, line) {
                Some(terms) => Ok(LeaseState {
                    next: after_term(term),
                    terms,
                    ..self
                }),
                None => Err(BAD),
            },
            LeaseLine::Values => self.take_value(alloc, line),
            LeaseLine::Nothing => Err(BAD),
        }
    }

    fn unended(&self, _rest: &[u8]) -> BadText {
        BadText
    }

    fn end(self, _alloc: Global) -> Result<Lease4, LineFault<BadText>> {
        match self.next {
            LeaseLine::Nothing => Ok(Lease4::new(self.name, self.terms, self.values)),
            LeaseLine::Version | LeaseLine::Interface | LeaseLine::Term(_) | LeaseLine::Values => {
                Err(BAD)
            }
        }
    }
}

/// Why a text is no lease: its first bad line, or want of memory.
pub type LeaseFault = TextFault<BadText>;

/// The lease that the text spells, or its first bad line. Exactly the texts of leases within the bounds are read, in
/// both versions.
pub fn read_lease4(alloc: Global, text: &[u8]) -> Result<Lease4, LeaseFault>
    ensures found { IfOk result (λ lease. IsSpelled SpellsLease4 text.now (lease_content lease)) }
    ensures bad { IfErr result (λ fault. FirstFault SpellsLease4 AnyCause text.now fault) }
{
    read_lines(alloc, start_of(alloc), text)
}
