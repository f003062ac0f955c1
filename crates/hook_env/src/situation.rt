//! What a hook is told of.
ghost use Rattle.std.specs.Prelude.{◌≡◌};
ghost use Rattle.hook_env.specs.Stages.{prefix, tells_before, tells_now};

use lease_text::Lease4;
use lease6_text::Lease6;
use net_types::{IfSpec, Net4, Net6};
use world::{HookVar, Reason};

/// What an interface holds of one kind.
#[derive(Clone, Copy)]
pub enum Held<'a> {
    Nothing,
    /// A DHCPv4 lease.
    Leased4(&'a Lease4),
    /// An IPv4 address with its network, link-local or static.
    Address4(Net4),
    /// A DHCPv6 lease.
    Leased6(&'a Lease6),
    /// An address out of a delegated prefix, with its length.
    Delegated(Net6),
}

/// An event of an interface, as its hook is told of it.
#[derive(Clone, Copy)]
pub struct Situation<'a> {
    pub reason: Reason,
    pub interface: IfSpec,
    /// The metric of the interface's routes.
    pub metric: u32,
    /// Whether the interface has carrier.
    pub up: bool,
    /// The path of the script; empty for the device's own.
    pub script: &'a str,
    /// Further variables, as they are configured.
    pub env: &'a [HookVar],
    /// What was held before the event, and what is held now.
    pub held_before: Held<'a>,
    pub held_now: Held<'a>,
}

/// Before an event, or after it.
#[derive(Clone, Copy, PartialEq, Eq)]
pub enum Stage {
    Before,
    Now,
}

/// What the names of the variables begin with.
pub(crate) fn prefix(stage: Stage) -> &'static str
    ensures { result.now ≡ prefix stage }
{
    match stage {
        Stage::Before => "old_",
        Stage::Now => "new_",
    }
}

/// Whether a hook of this reason is told of what was held before.
pub(crate) fn tells_before(reason: Reason) -> bool
    ensures { result ≡ tells_before reason }
{
    match reason {
        Reason::Renew | Reason::Rebind | Reason::Nak | Reason::Expire | Reason::Stop => true,
        Reason::Renew6 | Reason::Rebind6 | Reason::Expire6 | Reason::Stop6 => true,
        Reason::Preinit | Reason::Carrier | Reason::NoCarrier | Reason::StaticLine => false,
        Reason::Bound | Reason::Reboot | Reason::Timeout | Reason::Ipv4ll => false,
        Reason::Stopped | Reason::Bound6 | Reason::Reboot6 | Reason::Delegated6 => false,
    }
}

/// Whether a hook of this reason is told of what is held now.
pub(crate) fn tells_now(reason: Reason) -> bool
    ensures { result ≡ tells_now reason }
{
    match reason {
        Reason::Bound | Reason::Reboot | Reason::Renew | Reason::Rebind => true,
        Reason::Ipv4ll | Reason::StaticLine | Reason::Delegated6 => true,
        Reason::Bound6 | Reason::Reboot6 | Reason::Renew6 | Reason::Rebind6 => true,
        Reason::Preinit | Reason::Carrier | Reason::NoCarrier | Reason::Nak => false,
        Reason::Expire | Reason::Timeout | Reason::Stop | Reason::Stop6 => false,
        Reason::Stopped | Reason::Expire6 => false,
    }
}
