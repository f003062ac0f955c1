//! An interface that is managed.

ghost use Rattle.std.specs.Prelude.{IfOk};
ghost use Rattle.net_types.specs.AddressText.{FitsMac};
ghost use Rattle.net_types.specs.NameText.{FitsName};
ghost use Rattle.settings.specs.Dhcp4Settings.{FitsDhcp4};
ghost use Rattle.settings.specs.Dhcp6Settings.{FitsDhcp6};
ghost use Rattle.settings.specs.Fitting.{FitsManaged};
ghost use Rattle.world.specs.Rows.{IsInterface};

use net_types::{IfIndex, IfSpec, Ip6, Mac, Net6, read_name};
use settings::{
    Dhcp4Conf, Dhcp6Conf, Flags, HookConf, IaConf, Identifier, IfConf, Managed, ResolverConf,
    Script, Times,
};
use std::alloc::Global;
use std::test::Fail;
use v6_options::IaKind;

const MAC: Mac = Mac {
    bytes: [2, 0, 0, 0, 0, 1],
};

/// The static address of each interface, 2001:db8::1/64.
const NET: Net6 = Net6 {
    ip: Ip6 {
        number: 0x2001_0db8_0000_0000_0000_0000_0000_0001,
    },
    len: 64,
};

/// The DUID that is made of the hardware address (RFC 8415, section 11.4).
pub(crate) const DUID: [u8; 10] = [0, 3, 0, 1, 2, 0, 0, 0, 0, 1];

fn spec(index: IfIndex) -> Result<IfSpec, Fail>
    requires { IsInterface index.number }
    ensures index { IfOk result (λ spec. IsInterface spec.index.number) }
    ensures name { IfOk result (λ spec. FitsName spec.name) }
    ensures mac { IfOk result (λ spec. FitsMac spec.mac) }
{
    Ok(IfSpec {
        index,
        name: read_name("eth0")?,
        mac: MAC,
    })
}

fn dhcp4_conf(alloc: Global) -> Dhcp4Conf
    ensures { FitsDhcp4 result }
{
    Dhcp4Conf {
        host: Vec::new(alloc),
        vendor: Vec::new(alloc),
        identifier: Identifier::Hardware,
        asked: Vec::new(alloc),
        refused: Vec::new(alloc),
        required: Vec::new(alloc),
        blacklist: Vec::new(alloc),
    }
}

/// An address is asked for.
fn dhcp6_conf(alloc: Global) -> Result<Dhcp6Conf, Fail>
    ensures { IfOk result FitsDhcp6 }
{
    let ia = IaConf {
        kind: IaKind::Na,
        iaid: 1,
        hint: 0,
    };
    let ias = Vec::from_slice(alloc, &[ia])?;
    Ok(Dhcp6Conf {
        rapid: false,
        ias,
        shares: Vec::new(alloc),
    })
}

fn resolver_conf(alloc: Global) -> ResolverConf {
    ResolverConf {
        servers: Vec::new(alloc),
        search: Vec::new(alloc),
        domain: String::new(alloc),
    }
}

fn hook_conf(alloc: Global) -> HookConf {
    HookConf {
        script: Script::Default,
        env: Vec::new(alloc),
    }
}

/// An interface with a static address, where DHCPv6 runs without the first delay, and no IPv4.
pub(crate) fn managed(alloc: Global, index: IfIndex) -> Result<Managed, Fail>
    requires { IsInterface index.number }
    ensures { IfOk result FitsManaged }
{
    let spec = spec(index)?;
    let dhcp6 = dhcp6_conf(alloc)?;
    let conf = IfConf {
        flags: Flags {
            ipv6only: true,
            nodelay: true,
            ..Flags::none()
        },
        times: Times::usual(),
        metric: None,
        address: None,
        address6: Some(NET),
        router: None,
        dhcp4: dhcp4_conf(alloc),
        dhcp6,
        resolver: resolver_conf(alloc),
        hooks: hook_conf(alloc),
    };
    Ok(Managed { spec, conf })
}
