//! The host of a transcript: its configuration and its interfaces.
ghost use Rattle.std.specs.Prelude.{◌≡◌, [], ◌∷◌, ◌++◌, map, IfOk};
ghost use Rattle.settings.specs.Fitting.{AreManaged};
ghost use Rattle.conf_text.specs.Contents.{configuration};
ghost use Rattle.conf_text.specs.Fits.{FitsSpec};
ghost use Rattle.conf_text.specs.Settings.{managed_of};
ghost use Rattle.audit_sites.specs.Hosts.{IsRead};

use conf_laws::settings_fit;
use conf_text::{Conf, managed};
use net_types::{IfSpec, Mac, NoMemory};
use settings::Managed;
use std::alloc::Global;
use std::marker::Model;

/// What a text configures, and the interfaces so far.
#[derive(Drop)]
pub struct Known {
    conf: Conf,
    ifaces: Vec<IfSpec>,
}

impl Model for Known {
    ghost use Rattle.std.specs.List.{AllByRecursion};
    ghost use Rattle.conf_text.specs.Contents.{configuration};
    ghost use Rattle.conf_text.specs.Fits.{FitsSpec};
    ghost use Rattle.audit_sites.specs.Hosts.{Host, IsRead};

    ghost Value = { Host };

    ghost view = { λ known. record { configuration = configuration known.conf; ifaces = known.ifaces.items } };

    ghost invariant = { λ known. IsRead (configuration known.conf) × AllByRecursion FitsSpec known.ifaces.items };
}

/// The hardware addresses of interfaces.
fn macs_of(alloc: Global, ifaces: &[IfSpec]) -> Result<Vec<Mac>, NoMemory>
    ensures { IfOk result (λ own. own.items ≡ map (λ spec. spec.mac) ifaces.now) }
{
    Ok(ifaces.iter().map(|spec| spec.mac).collect(alloc)?)
}

impl Known {
    /// Before all interfaces.
    pub fn new(alloc: Global, conf: Conf) -> Known
        requires { IsRead (configuration conf) }
        ensures { result ≡ record { configuration = configuration conf; ifaces = [] } }
    {
        Known {
            conf,
            ifaces: Vec::new(alloc),
        }
    }

    /// With an interface more.
    pub fn with_interface(self, spec: IfSpec) -> Result<Known, NoMemory>
        requires { FitsSpec spec }
        ensures { IfOk result (λ next. next ≡ record self { ifaces = self.ifaces ++ spec ∷ [] }) }
    {
        let Known { conf, mut ifaces } = self;
        ifaces.push(spec)?;
        Ok(Known { conf, ifaces })
    }

    /// The interfaces that are managed, in their order.
    pub fn managed(&self, alloc: Global) -> Result<Vec<Managed>, NoMemory>
        ensures all { IfOk result (λ all. all.items ≡ managed_of self.now.configuration self.now.ifaces) }
        ensures fit { IfOk result (λ all. AreManaged all.items) }
    {
        settings_fit();
        managed(alloc, &self.conf, &self.ifaces)
    }

    /// The hardware addresses of all interfaces.
    pub fn macs(&self, alloc: Global) -> Result<Vec<Mac>, NoMemory>
        ensures { IfOk result (λ own. own.items ≡ map (λ spec. spec.mac) self.now.ifaces) }
    {
        macs_of(alloc, &self.ifaces)
    }
}
