//! What the DHCPv6 client of an interface is told to ask for, and who gets what of a delegated prefix.
ghost use Rattle.std.specs.Prelude.{◌≡◌, IfOk};

use crate::outlet::Outlet;
use prefix_share::Share;
use std::alloc::{AllocError, Global};
use std::marker::Model;
use v6_options::IaKind;

/// An identity association that is asked for (RFC 8415, section 12): `ia_na` or `ia_pd`.
#[derive(Clone, Copy)]
pub struct IaConf {
    pub kind: IaKind,
    pub iaid: u32,
    /// The length of the prefix that is wished for, in bits; 0 where none is.
    pub hint: u8,
}

/// What another interface gets of the prefixes of an `ia_pd` (RFC 3633, section 12.1).
#[derive(Clone, Copy)]
pub struct ShareConf {
    /// The IAID of the `ia_pd`.
    pub iaid: u32,
    /// The subnet of a prefix.
    pub share: Share,
    /// Where its rows lead.
    pub outlet: Outlet,
}

/// What the DHCPv6 client of an interface asks for.
#[derive(Drop)]
pub struct Dhcp6Conf {
    /// `option rapid_commit`: a server may answer a SOLICIT by a Reply (RFC 8415, section 18.2.1).
    pub rapid: bool,
    /// In the order of the configuration.
    pub ias: Vec<IaConf>,
    /// Who gets what of the prefixes, in the order of the IAs, and for each as its line has them.
    pub shares: Vec<ShareConf>,
}

impl Model for Dhcp6Conf {
    ghost use Rattle.settings.specs.Dhcp6Settings.{Dhcp6Settings};

    ghost Value = { Dhcp6Settings };

    ghost view = { λ conf. record { rapid = conf.rapid; ias = conf.ias.items; shares = conf.shares.items } };
}

impl Dhcp6Conf {
    /// A copy of it.
    pub fn to_owned(&self, alloc: Global) -> Result<Dhcp6Conf, AllocError>
        ensures { IfOk result (λ copy. copy ≡ self.now) }
    {
        Ok(Dhcp6Conf {
            rapid: self.rapid,
            ias: self.ias.to_vec(alloc)?,
            shares: self.shares.to_vec(alloc)?,
        })
    }
}
