//! The exchanges of the clients, told apart by their transaction numbers (RFC 2131, section 2, xid).
ghost use Rattle.std.specs.Prelude.{ℕ, ◌≡◌, ◌≤◌, [], not, ◌||◌, IfOk, None, slice_index_or};
ghost use Rattle.lab_model.specs.Exchanges.{goes_on_by, is_number, is_release};
ghost use Rattle.lab_text.specs.Noting.{Hears, KeepsThose, SawThose, Sees, SeesIf, message};

use lab_model::Exchange;
use net_types::{IfIndex, NoMemory};
use std::alloc::Global;
use std::collections::BTreeSet;
use v4_message::{Kind4, Said4};

/// One more than the greatest number of an interface.
const INTERFACE_LIMIT: usize = 65;

/// Whether two exchanges of one interface had the same number.
#[derive(Clone, Copy, Debug, PartialEq, Eq)]
pub enum Xids {
    Unlike,
    Repeat,
}

/// The exchanges that were seen.
#[derive(Drop)]
pub struct Seen {
    pub keys: BTreeSet<Exchange>,
    pub xids: Xids,
}

/// The exchanges so far.
#[derive(Drop)]
pub struct Exchanges {
    /// The number with which the last exchange of each interface goes on.
    pub last: [Option<u32>; INTERFACE_LIMIT],
    pub seen: Seen,
}

fn is_release(kind: Kind4) -> bool
    ensures { result ≡ is_release kind }
{
    match kind {
        Kind4::Discover => false,
        Kind4::Request => false,
        Kind4::Decline => false,
        Kind4::Release => true,
    }
}

/// The number with which an exchange goes on after a message: a RELEASE is one of its own.
fn goes_on_by(said: Said4) -> Option<u32>
    ensures { result ≡ goes_on_by said }
{
    if is_release(said.kind) {
        None
    } else {
        Some(said.xid)
    }
}

/// Whether an exchange begins with a message, where the one before it goes on with this number.
fn begins(said: Said4, before: Option<u32>) -> bool
    ensures { result ≡ (is_release said.kind || not (is_number said.xid before)) }
{
    is_release(said.kind) || before != Some(said.xid)
}

/// Each interface without a number.
fn no_numbers() -> [Option<u32>; INTERFACE_LIMIT]
    ensures { (iface : ℕ) → iface ≤ 64 → slice_index_or result iface None ≡ None }
{
    [None; INTERFACE_LIMIT]
}

impl Seen {
    /// No exchange.
    fn new(alloc: Global) -> Seen
        ensures { SawThose [] result }
    {
        Seen {
            keys: BTreeSet::new(alloc),
            xids: Xids::Unlike,
        }
    }

    /// With one more.
    fn with(self, exchange: Exchange) -> Result<Seen, NoMemory>
        ensures { IfOk result (Sees exchange self) }
    {
        let Seen { mut keys, xids } = self;
        let is_new = keys.insert(exchange)?;
        if is_new {
            Ok(Seen { keys, xids })
        } else {
            Ok(Seen {
                keys,
                xids: Xids::Repeat,
            })
        }
    }

    /// With one more, where it begins.
    fn with_if(self, begins: bool, exchange: Exchange) -> Result<Seen, NoMemory>
        ensures { IfOk result (SeesIf begins exchange self) }
    {
        if begins {
            self.with(exchange)
        } else {
            Ok(self)
        }
    }
}

impl Exchanges {
    /// Before the first message.
    pub fn new(alloc: Global) -> Exchanges
        ensures { KeepsThose [] result }
    {
        Exchanges {
            last: no_numbers(),
            seen: Seen::new(alloc),
        }
    }

    /// With a message of an interface.
    pub fn with(self, iface: IfIndex, said: Said4) -> Result<Exchanges, NoMemory>
        requires { iface.number ≤ 64 }
        ensures { IfOk result (Hears (message iface.number said) self) }
    {
        let Exchanges { mut last, seen } = self;
        let place = iface.number as usize;
        let begins = begins(said, last[place]);
        last[place] = goes_on_by(said);
        let exchange = Exchange {
            iface: iface.number,
            xid: said.xid,
        };
        let seen = seen.with_if(begins, exchange)?;
        Ok(Exchanges { last, seen })
    }
}
