//! What turns change.

ghost use Rattle.std.specs.Prelude.{◌≡◌, ◌++◌, OnOk};
ghost use Rattle.client_core.specs.Touched.{either, is_other, may_keep, may_show, noted};

use net_types::IfIndex;
use std::alloc::AllocError;

/// What a turn of an interface may have changed of what is kept of it and of what goes into files.
#[derive(Clone, Copy, PartialEq, Eq)]
pub enum Changes {
    Nothing,
    /// The leases that it keeps: one of them is kept no more.
    Leases,
    /// These, its rows, and what it tells the resolver.
    All,
}

impl Changes {
    /// Whether its rows, or what it tells the resolver, may be others.
    pub fn may_show(self) -> bool
        ensures { result ≡ may_show self }
    {
        match self {
            Changes::Nothing => false,
            Changes::Leases => false,
            Changes::All => true,
        }
    }

    /// Whether it may keep another lease.
    pub fn may_keep(self) -> bool
        ensures { result ≡ may_keep self }
    {
        match self {
            Changes::Nothing => false,
            Changes::Leases => true,
            Changes::All => true,
        }
    }
}

/// Whether the interfaces tell the resolver what they told before.
#[derive(Clone, Copy, PartialEq, Eq)]
pub enum Resolver {
    Same,
    Other,
}

impl Resolver {
    /// Something else, where either is that.
    pub fn or(self, last: Resolver) -> Resolver
        ensures { result ≡ either self last }
    {
        match self {
            Resolver::Same => last,
            Resolver::Other => Resolver::Other,
        }
    }

    /// Whether it is something else.
    pub fn is_other(self) -> bool
        ensures { result ≡ is_other self }
    {
        match self {
            Resolver::Same => false,
            Resolver::Other => true,
        }
    }
}

/// What a turn touched of what goes into files.
#[derive(Drop)]
pub struct Touched {
    /// The interfaces that may keep another lease than before. All others keep what they kept.
    pub ifaces: Vec<IfIndex>,
    pub resolver: Resolver,
}

/// Notes an interface, where it is one of them.
pub fn note(touched: &mut Vec<IfIndex>, is_one: bool, index: IfIndex) -> Result<(), AllocError>
    ensures { OnOk result (touched.new.items ≡ touched.old.items ++ noted is_one index) }
{
    if is_one {
        touched.push(index)?;
    }
    Ok(())
}
