//! What the DHCPv4 client of an interface is told to say and to want.
ghost use Rattle.std.specs.Prelude.{◌≡◌, IfOk};
ghost use Rattle.settings.specs.Dhcp4Settings.{identifier_in};

use net_types::Net4;
use std::alloc::{AllocError, Global};
use std::marker::Model;

/// What tells a client apart from the others of its network (option 61; RFC 2132, section 9.14).
#[derive(Drop)]
pub enum Identifier {
    /// The hardware address of the interface.
    Hardware,
    /// The bytes of the option.
    Bytes(Vec<u8>),
    /// The DUID of the host, after the interface's index (RFC 4361, section 6.1).
    Duid,
}

impl Identifier {
    /// A copy of it.
    fn to_owned(&self, alloc: Global) -> Result<Identifier, AllocError>
        ensures { IfOk result (λ copy. identifier_in copy ≡ identifier_in self.now) }
    {
        match self {
            Identifier::Hardware => Ok(Identifier::Hardware),
            Identifier::Bytes(bytes) => Ok(Identifier::Bytes(bytes.to_vec(alloc)?)),
            Identifier::Duid => Ok(Identifier::Duid),
        }
    }
}

/// What the DHCPv4 client of an interface says of itself, and which options and servers it takes.
#[derive(Drop)]
pub struct Dhcp4Conf {
    /// `hostname`: option 12, not sent where it is empty.
    pub host: Vec<u8>,
    /// `vendorclassid`: option 60, not sent where it is empty.
    pub vendor: Vec<u8>,
    /// `clientid` or `duid`: option 61.
    pub identifier: Identifier,
    /// `option`: codes that are asked for beside those that are always.
    pub asked: Vec<u8>,
    /// `nooption`: codes that are neither asked for nor taken.
    pub refused: Vec<u8>,
    /// `require`: codes without which no offer and no lease is taken.
    pub required: Vec<u8>,
    /// `blacklist`: networks of servers that aren't listened to.
    pub blacklist: Vec<Net4>,
}

impl Model for Dhcp4Conf {
    ghost use Rattle.settings.specs.Dhcp4Settings.{Dhcp4Settings, dhcp4_settings};

    ghost Value = { Dhcp4Settings };

    ghost view = { λ conf. dhcp4_settings conf.host.items conf.vendor.items conf.identifier conf.asked.items
        conf.refused.items conf.required.items conf.blacklist.items };
}

impl Dhcp4Conf {
    /// A copy of it.
    pub fn to_owned(&self, alloc: Global) -> Result<Dhcp4Conf, AllocError>
        ensures { IfOk result (λ copy. copy ≡ self.now) }
    {
        Ok(Dhcp4Conf {
            host: self.host.to_vec(alloc)?,
            vendor: self.vendor.to_vec(alloc)?,
            identifier: self.identifier.to_owned(alloc)?,
            asked: self.asked.to_vec(alloc)?,
            refused: self.refused.to_vec(alloc)?,
            required: self.required.to_vec(alloc)?,
            blacklist: self.blacklist.to_vec(alloc)?,
        })
    }
}
