//! What lines say.
ghost use Rattle.std.specs.Prelude.{◌≡◌, IfOk};
ghost use Rattle.conf_directives.specs.Contents.{directive_content, noticed, said_content, taken};

use crate::names::{CodeList, FlagName, InterfaceList, SecondsName};
use conf_values::{Env, Pattern};
use net_types::{Ip4, Name, Net4, Net6};
use std::alloc::{AllocError, Global};
use v6_options::IaKind;

/// What tells the client apart from the others of its network (option 61; RFC 2132, section 9.14).
#[derive(Debug, Drop)]
pub enum Identifier {
    /// The hardware address of the interface.
    Hardware,
    /// The bytes of option 61.
    Bytes(Vec<u8>),
    /// The DUID, after the IAID (RFC 4361, section 6.1).
    Duid,
}

/// What a line of options names.
#[derive(Debug, Drop)]
pub struct CodesSaid {
    /// The codes that are taken, in the order of their words.
    pub codes: Vec<u8>,
    /// Whether `rapid_commit` is taken (RFC 8415, section 21.14).
    pub rapid: bool,
    /// How many words there are, those that are only noticed included.
    pub words: usize,
}

/// What a `static` line says.
#[derive(Debug, Drop)]
pub enum StaticValue {
    /// `ip_address`.
    Address(Net4),
    /// `routers`.
    Routers(Vec<Ip4>),
    /// `domain_name_servers`.
    NameServers(Vec<Ip4>),
    /// `domain_name`.
    DomainName(String),
    /// `domain_search`.
    DomainSearch(Vec<String>),
    /// `ip6_address`.
    Address6(Net6),
}

/// What an interface is to get of a delegated prefix.
#[derive(Clone, Copy, Debug, PartialEq, Eq)]
pub struct ShareLine {
    /// The interface.
    pub name: Name,
    /// The SLA id. None is that of the interface's index.
    pub sla: Option<u32>,
    /// The length of the subnet's prefix in bits, 1 to 127.
    pub len: u8,
}

/// An identity association that is asked for.
#[derive(Debug, Drop)]
pub struct IaLine {
    pub kind: IaKind,
    /// None is the interface's index.
    pub iaid: Option<u32>,
    /// The length of the prefix that is asked for in bits, 8 to 127, or 0 where none is.
    pub hint: u8,
    pub shares: Vec<ShareLine>,
}

/// A directive with its arguments.
#[derive(Debug, Drop)]
pub enum Directive {
    Flag(FlagName),
    Seconds(SecondsName, u32),
    Metric(u32),
    HostName(Vec<u8>),
    /// Printable ASCII. Empty: it isn't sent.
    VendorClass(Vec<u8>),
    Identifier(Identifier),
    Codes(CodeList, CodesSaid),
    Static(StaticValue),
    Ia(IaLine),
    Env(Env),
    Blacklist(Vec<Net4>),
    Interfaces(InterfaceList, Vec<Pattern>),
    /// A path, printable ASCII. Empty: the device's own.
    Script(String),
}

/// What a line says.
#[derive(Drop)]
pub struct LineSaid<'a> {
    /// None where the line is only noticed.
    pub directive: Option<Directive>,
    /// The words that aren't taken, in the order of the line.
    pub notices: Vec<&'a [u8]>,
}

impl<'a> LineSaid<'a> {
    /// A line that says a directive alone.
    pub(crate) fn taken(alloc: Global, directive: Directive) -> LineSaid<'a>
        ensures { said_content result ≡ taken (directive_content directive) }
    {
        LineSaid {
            directive: Some(directive),
            notices: Vec::new(alloc),
        }
    }

    /// A line of which a word is noticed alone.
    pub(crate) fn noticed(alloc: Global, word: &'a [u8]) -> Result<LineSaid<'a>, AllocError>
        ensures { IfOk result (λ said. said_content said ≡ noticed word.now) }
    {
        Ok(LineSaid {
            directive: None,
            notices: vec![in alloc; word]?,
        })
    }
}
