//! How the clients of a lab begin: no file is read.
ghost use Rattle.std.specs.Prelude.{◌≡◌, ◌<◌, IfOk, length, map, take};
ghost use Rattle.net_types.specs.AddressText.{FitsMac};
ghost use Rattle.settings.specs.Fitting.{AreManaged, FitsManaged};
ghost use Rattle.client_model.specs.Fitting.{AreBeginnings, FitsBeginning};
ghost use Rattle.duid_text.specs.DuidTexts.{link_layer_duid};
ghost use Rattle.iface_core.specs.Beginnings.{beginning_of};
ghost use Rattle.lab_model.specs.Labs as model;

use client_core::Beginning;
use duid_text::link_layer_duid;
use net_types::{Mac, NoMemory};
use settings::Managed;
use std::alloc::Global;

/// How an interface begins. The DUID of the host is that of this hardware address.
fn beginning(alloc: Global, first: Mac, managed: &Managed) -> Result<Beginning, NoMemory>
    requires first { FitsMac first }
    requires managed { FitsManaged managed.now }
    ensures is { IfOk result (λ begun. beginning_of begun ≡ model.beginning (link_layer_duid first) managed.now) }
    ensures fits { IfOk result (λ begun. FitsBeginning (beginning_of begun)) }
{
    Ok(Beginning {
        managed: managed.to_owned(alloc)?,
        duid: link_layer_duid(alloc, first)?,
        kept4: None,
        kept6: None,
    })
}

fn beginnings_by(alloc: Global, first: Mac, managed: &[Managed]) -> Result<Vec<Beginning>, NoMemory>
    requires first { FitsMac first }
    requires managed { AreManaged managed.now }
    ensures are { IfOk result
        (λ all. map beginning_of all.items ≡ map (model.beginning (link_layer_duid first)) managed.now) }
    ensures fit { IfOk result (λ all. AreBeginnings (map beginning_of all.items)) }
{
    let mut all = Vec::new(alloc);
    for one in managed {
        let begun = beginning(alloc, first, one)?;
        all.push(begun)?;
    }
    Ok(all)
}

/// How the managed interfaces begin.
pub fn beginnings(alloc: Global, managed: &[Managed]) -> Result<Vec<Beginning>, NoMemory>
    requires { AreManaged managed.now }
    ensures are { IfOk result (λ all. map beginning_of all.items ≡ model.beginnings managed.now) }
    ensures fit { IfOk result (λ all. AreBeginnings (map beginning_of all.items)) }
{
    match managed.first() {
        Some(first) => beginnings_by(alloc, first.spec.mac, managed),
        None => Ok(Vec::new(alloc)),
    }
}
