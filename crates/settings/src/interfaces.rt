//! The settings of one managed interface: which protocols run on it and how, and what is configured by hand.

ghost use Rattle.std.specs.Prelude.{◌≡◌, IfOk};

use crate::dhcp4_conf::Dhcp4Conf;
use crate::dhcp6_conf::Dhcp6Conf;
use crate::flags::Flags;
use crate::hook_conf::HookConf;
use crate::resolver_conf::ResolverConf;
use crate::times::Times;
use net_types::{IfSpec, Ip4, Net4, Net6};
use std::alloc::{AllocError, Global};

/// What the configuration says of an interface.
#[derive(Drop)]
pub struct IfConf {
    /// Its directives of one word.
    pub flags: Flags,
    /// Its numbers of seconds.
    pub times: Times,
    /// `metric`: that of the interface's routes. Where it isn't said it comes of the interface's index.
    pub metric: Option<u32>,
    /// `static ip_address`.
    pub address: Option<Net4>,
    /// `static ip6_address`.
    pub address6: Option<Net6>,
    /// The first of `static routers`, which goes before the routers of a lease.
    pub router: Option<Ip4>,
    /// What its DHCPv4 client says and wants.
    pub dhcp4: Dhcp4Conf,
    /// What its DHCPv6 client asks for.
    pub dhcp6: Dhcp6Conf,
    /// What the resolver is told of it.
    pub resolver: ResolverConf,
    /// What its hooks run.
    pub hooks: HookConf,
}

impl IfConf {
    /// A copy of it.
    pub fn to_owned(&self, alloc: Global) -> Result<IfConf, AllocError>
        ensures { IfOk result (λ copy. copy ≡ self.now) }
    {
        Ok(IfConf {
            flags: self.flags,
            times: self.times,
            metric: self.metric,
            address: self.address,
            address6: self.address6,
            router: self.router,
            dhcp4: self.dhcp4.to_owned(alloc)?,
            dhcp6: self.dhcp6.to_owned(alloc)?,
            resolver: self.resolver.to_owned(alloc)?,
            hooks: self.hooks.to_owned(alloc)?,
        })
    }
}

/// A managed interface and its configuration.
#[derive(Drop)]
pub struct Managed {
    pub spec: IfSpec,
    pub conf: IfConf,
}

impl Managed {
    /// A copy of it.
    pub fn to_owned(&self, alloc: Global) -> Result<Managed, AllocError>
        ensures { IfOk result (λ copy. copy ≡ self.now) }
    {
        Ok(Managed {
            spec: self.spec,
            conf: self.conf.to_owned(alloc)?,
        })
    }
}
