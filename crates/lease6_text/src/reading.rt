//! The text of a lease, read.

ghost use Rattle.std.specs.Prelude.{◌≡◌, Some, option_copied, option_map, IfOk, IfErr};
ghost use Rattle.net_types.specs.Cutting.{after_word, end_at};
ghost use Rattle.net_types.specs.FirstBadLine.{FirstFault, IsSpelled};
ghost use Rattle.net_types.specs.LineReading.{Refuses};
ghost use Rattle.lease_text.specs.LeaseReading.{last_code};
ghost use Rattle.lease_text.specs.Leases.{values_content};
ghost use Rattle.lease6_text.specs.declared.reading.NextLine.TheVariants as NextLine;
ghost use Rattle.lease6_text.specs.Leases.{Lease6Content, ia_content, ias_content, lease6_content};
ghost use Rattle.lease6_text.specs.LeaseLines.{SpellsLease6, item_word, server_word};
ghost use Rattle.lease6_text.specs.LineParts.{moment_at, server_at};
ghost use Rattle.lease6_text.specs.LeaseReading.{Reading, reading_of, after_interface, begun, version_at, ia_joined, item_added, item_rest, value_step, step, step_at, given, start};
ghost use Rattle.lease6_text.specs.LinesRead.{After, AnyCause};

use crate::lease::{IaLease, Lease6};
use crate::parts::{
    ia_of, item_of, item_word, may_begin, may_join, moment_of, server_of, value_of,
};
use lease_text::{Below, LeaseFault, Origin, Value, read_line};
use net_types::{
    BadText, LineFault, LineState, MOMENT_LIMIT, Mac, Name, NoMemory, end_of, read_lines,
    strip_word,
};
use std::alloc::Global;
use v6_options::{Duid, IaKind};

/// A version of the text.
#[derive(Clone, Copy, PartialEq, Eq)]
pub enum TextVersion {
    /// The first: it doesn't tell the origin.
    Plain,
    /// The second: it tells the origin.
    WithOrigin,
}

/// The line that comes next.
#[derive(Clone, Copy, PartialEq, Eq)]
pub enum NextLine {
    Version,
    /// The interface, in a text of this version.
    Interface(TextVersion),
    /// The hardware address of the interface.
    OriginMac,
    /// When the lease was confirmed, after this hardware address.
    Confirmed(Mac),
    Server,
    Renewal,
    Rebinding,
    /// The first item of the IA of this kind and IAID.
    FirstItem(IaKind, u32),
    /// An IA, an item of the last IA, a value, or the last line.
    Ias,
    /// A value more, or the last line.
    Values,
    /// The last line was read.
    Nothing,
}

/// What the lines so far said.
#[derive(Drop)]
pub struct LeaseState {
    pub next: NextLine,
    /// None before its lines, and in the first version.
    pub origin: Option<Origin>,
    pub name: Name,
    /// None before its line.
    pub server: Option<Duid>,
    pub t1: Option<u64>,
    pub t2: Option<u64>,
    pub ias: Vec<IaLease>,
    pub values: Vec<Value>,
}

fn start_of(alloc: Global) -> LeaseState
    ensures { reading_of result ≡ start }
{
    LeaseState {
        next: NextLine::Version,
        origin: None,
        name: Name {
            bytes: [b'a', 0, 0, 0, 0, 0, 0, 0, 0, 0, 0, 0, 0, 0, 0],
            len: 1,
        },
        server: None,
        t1: None,
        t2: None,
        ias: Vec::new(alloc),
        values: Vec::new(alloc),
    }
}

/// The line is this one and no other.
fn line_is(line: &[u8], word: &[u8]) -> Option<()>
    ensures { result ≡ after_word word.now end_at line.now }
{
    end_of(strip_word(line, word)?)
}

/// The version of the text that begins with this line.
fn version_of(line: &[u8]) -> Option<TextVersion>
    ensures { result ≡ version_at line.now }
{
    match strip_word(line, b"dhcpcd-lease6 1") {
        Some(rest) => {
            end_of(rest)?;
            Some(TextVersion::Plain)
        }
        None => {
            end_of(strip_word(line, b"dhcpcd-lease6 2")?)?;
            Some(TextVersion::WithOrigin)
        }
    }
}

/// The line after that of the interface.
fn after_interface(version: TextVersion) -> NextLine
    ensures { result ≡ after_interface version }
{
    match version {
        TextVersion::Plain => NextLine::Server,
        TextVersion::WithOrigin => NextLine::OriginMac,
    }
}

fn server_line(alloc: Global, line: &[u8]) -> Result<Option<Duid>, NoMemory>
    ensures { IfOk result (λ duid. option_map (λ d. d.bytes.items) duid ≡ after_word server_word server_at line.now) }
{
    match strip_word(line, b"server ") {
        Some(text) => server_of(alloc, text),
        None => Ok(None),
    }
}

fn moment_line(line: &[u8], word: &[u8]) -> Option<Option<u64>>
    ensures { result ≡ after_word word.now moment_at line.now }
{
    moment_of(strip_word(line, word)?)
}

/// The text after the word of an item of the last IA.
fn item_rest<'a>(ias: &[IaLease], line: &'a [u8]) -> Option<&'a [u8]>
    ensures { option_copied result ≡ item_rest (ias_content ias.now) line.now }
{
    match ias.last() {
        Some(ia) => strip_word(line, item_word(ia.kind)),
        None => None,
    }
}

/// The code of the last value, or 0 where there is none.
fn last_code(values: &[Value]) -> u16
    ensures { result ≡ last_code (values_content values.now) }
{
    match values.last() {
        Some(value) => value.code,
        None => 0,
    }
}

const BAD: LineFault<BadText> = LineFault::Bad(BadText);

impl IaLease {
    /// The IA with the item that the text spells.
    fn join(self, alloc: Global, rest: &[u8]) -> Result<IaLease, LineFault<BadText>>
        ensures taken { IfOk result (λ next. ia_joined rest.now (ia_content self) ≡ Some (ia_content next)) }
        ensures bad { IfErr result (λ fault. Refuses (ia_joined rest.now (ia_content self)) (record {}) fault) }
    {
        match item_of(alloc, self.kind, rest)? {
            Some(item) => {
                if may_join(&self.items, item) {
                    let mut items = self.items;
                    items.push(item)?;
                    Ok(IaLease { items, ..self })
                } else {
                    Err(BAD)
                }
            }
            None => Err(BAD),
        }
    }
}

impl LeaseState {
    /// The state after the line of an IA.
    fn begin_ia(self, rest: &[u8]) -> Result<LeaseState, LineFault<BadText>>
        ensures taken { IfOk result (λ next. begun (reading_of self) rest.now ≡ Some (reading_of next)) }
        ensures bad { IfErr result (λ fault. Refuses (begun (reading_of self) rest.now) (record {}) fault) }
    {
        match ia_of(rest) {
            Some((kind, iaid)) => {
                if may_begin(&self.ias, kind, iaid) {
                    Ok(LeaseState {
                        next: NextLine::FirstItem(kind, iaid),
                        ..self
                    })
                } else {
                    Err(BAD)
                }
            }
            None => Err(BAD),
        }
    }

    /// The state after the first item of an IA.
    #[tactic(auto, unfolding(crate::specs::LeaseReading::step_at))]
    fn take_first_item(
        self,
        alloc: Global,
        kind: IaKind,
        iaid: u32,
        line: &[u8],
    ) -> Result<LeaseState, LineFault<BadText>>
        ensures taken { IfOk result
            (λ next. step_at (NextLine.FirstItem kind iaid) (reading_of self) line.now ≡ Some (reading_of next)) }
        ensures bad { IfErr result
            (λ fault. Refuses (step_at (NextLine.FirstItem kind iaid) (reading_of self) line.now)
            (record {}) fault) }
    {
        let Some(rest) = strip_word(line, item_word(kind)) else {
            return Err(BAD);
        };
        match item_of(alloc, kind, rest)? {
            Some(item) => {
                let mut items = Vec::new(alloc);
                items.push(item)?;
                let mut ias = self.ias;
                ias.push(IaLease { kind, iaid, items })?;
                Ok(LeaseState {
                    next: NextLine::Ias,
                    ias,
                    ..self
                })
            }
            None => Err(BAD),
        }
    }

    /// The state after an item more of the last IA.
    fn take_item(self, alloc: Global, rest: &[u8]) -> Result<LeaseState, LineFault<BadText>>
        ensures taken { IfOk result (λ next. item_added (reading_of self) rest.now ≡ Some (reading_of next)) }
        ensures bad { IfErr result (λ fault. Refuses (item_added (reading_of self) rest.now) (record {}) fault) }
    {
        let mut ias = self.ias;
        match ias.pop() {
            Some(ia) => match ia.join(alloc, rest) {
                Ok(joined) => {
                    ias.push(joined)?;
                    Ok(LeaseState {
                        next: NextLine::Ias,
                        ias,
                        ..self
                    })
                }
                Err(fault) => Err(fault),
            },
            None => Err(BAD),
        }
    }

    /// The state after a value more, or after the last line.
    #[tactic(auto, unfolding(crate::specs::LeaseReading::value_step))]
    fn take_value(self, alloc: Global, line: &[u8]) -> Result<LeaseState, LineFault<BadText>>
        ensures taken { IfOk result (λ next. value_step (reading_of self) line.now ≡ Some (reading_of next)) }
        ensures bad { IfErr result (λ fault. Refuses (value_step (reading_of self) line.now) (record {}) fault) }
    {
        match strip_word(line, b"option ") {
            Some(rest) => match value_of(alloc, last_code(&self.values), rest)? {
                Some(value) => {
                    let mut values = self.values;
                    values.push(value)?;
                    Ok(LeaseState {
                        next: NextLine::Values,
                        values,
                        ..self
                    })
                }
                None => Err(BAD),
            },
            None => match line_is(line, b"end") {
                Some(()) => Ok(LeaseState {
                    next: NextLine::Nothing,
                    ..self
                }),
                None => Err(BAD),
            },
        }
    }

    /// The state after a line that an IA, an item, a value or the last line is.
    #[tactic(auto, unfolding(crate::specs::LeaseReading::step_at))]
    fn take_body(self, alloc: Global, line: &[u8]) -> Result<LeaseState, LineFault<BadText>>
        ensures taken { IfOk result (λ next. step_at NextLine.Ias (reading_of self) line.now ≡ Some (reading_of next)) }
        ensures bad { IfErr result
            (λ fault. Refuses (step_at NextLine.Ias (reading_of self) line.now) (record {}) fault) }
    {
        match strip_word(line, b"ia ") {
            Some(rest) => self.begin_ia(rest),
            None => match item_rest(&self.ias, line) {
                Some(rest) => self.take_item(alloc, rest),
                None => self.take_value(alloc, line),
            },
        }
    }
}

impl LineState for LeaseState {
    type Value = Lease6;

    type Cause = BadText;

    ghost State = { Reading };

    ghost Said = { Lease6Content };

    ghost state = { reading_of };

    ghost said = { lease6_content };

    ghost step = { step };

    ghost given = { given };

    ghost cause = { λ reading front. record {} };

    ghost Spells = { SpellsLease6 };

    ghost After = { After };

    ghost Why = { AnyCause };

    #[tactic(auto, unfolding(crate::specs::LeaseReading::step_at))]
    fn take(self, alloc: Global, line: &[u8]) -> Result<LeaseState, LineFault<BadText>> {
        match self.next {
            NextLine::Version => match version_of(line) {
                Some(version) => Ok(LeaseState {
                    next: NextLine::Interface(version),
                    ..self
                }),
                None => Err(BAD),
            },
            NextLine::Interface(version) => match read_line(alloc, b"interface ", line)? {
                Some(name) => Ok(LeaseState {
                    next: after_interface(version),
                    name,
                    ..self
                }),
                None => Err(BAD),
            },
            NextLine::OriginMac => match read_line(alloc, b"mac ", line)? {
                Some(mac) => Ok(LeaseState {
                    next: NextLine::Confirmed(mac),
                    ..self
                }),
                None => Err(BAD),
            },
            NextLine::Confirmed(mac) => match read_line(alloc, b"confirmed ", line)? {
                Some(Below::<MOMENT_LIMIT>(confirmed)) => Ok(LeaseState {
                    next: NextLine::Server,
                    origin: Some(Origin { mac, confirmed }),
                    ..self
                }),
                None => Err(BAD),
            },
            NextLine::Server => match server_line(alloc, line)? {
                Some(server) => Ok(LeaseState {
                    next: NextLine::Renewal,
                    server: Some(server),
                    ..self
                }),
                None => Err(BAD),
            },
            NextLine::Renewal => match moment_line(line, b"t1 ") {
                Some(t1) => Ok(LeaseState {
                    next: NextLine::Rebinding,
                    t1,
                    ..self
                }),
                None => Err(BAD),
            },
            NextLine::Rebinding => match moment_line(line, b"t2 ") {
                Some(t2) => Ok(LeaseState {
                    next: NextLine::Ias,
                    t2,
                    ..self
                }),
                None => Err(BAD),
            },
            NextLine::FirstItem(kind, iaid) => self.take_first_item(alloc, kind, iaid, line),
            NextLine::Ias => self.take_body(alloc, line),
            NextLine::Values => self.take_value(alloc, line),
            NextLine::Nothing => Err(BAD),
        }
    }

    fn unended(&self, _rest: &[u8]) -> BadText {
        BadText
    }

    fn end(self, _alloc: Global) -> Result<Lease6, LineFault<BadText>> {
        let LeaseState {
            next,
            origin,
            name,
            server,
            t1,
            t2,
            ias,
            values,
        } = self;
        match next {
            NextLine::Nothing => match server {
                Some(server) => Ok(Lease6 {
                    origin,
                    name,
                    server,
                    t1,
                    t2,
                    ias,
                    values,
                }),
                None => Err(BAD),
            },
            NextLine::Version
            | NextLine::Interface(_)
            | NextLine::OriginMac
            | NextLine::Confirmed(_)
            | NextLine::Server
            | NextLine::Renewal
            | NextLine::Rebinding
            | NextLine::FirstItem(_, _)
            | NextLine::Ias
            | NextLine::Values => Err(BAD),
        }
    }
}

/// The lease that the text spells, or its first bad line. Exactly the texts of leases within the bounds are read.
pub fn read_lease6(alloc: Global, text: &[u8]) -> Result<Lease6, LeaseFault>
    ensures found { IfOk result (λ lease. IsSpelled SpellsLease6 text.now (lease6_content lease)) }
    ensures bad { IfErr result (λ fault. FirstFault SpellsLease6 AnyCause text.now fault) }
{
    read_lines(alloc, start_of(alloc), text)
}
