//! Who gets what of the prefixes that are delegated to an interface (RFC 3633, section 12.1).
ghost use Rattle.std.specs.Prelude.{◌≡◌, filter_map, IfOk, OnOk};
ghost use Rattle.conf_text.specs.AssociationSteps.{shared_in, taken_on};
ghost use Rattle.conf_text.specs.Contents.{configuration};
ghost use Rattle.conf_text.specs.Shares.{given_by, outlet_by, outlet_of, share_of, shares_taken, sla_of, taken_with};

use crate::block_name::is_named;
use crate::choosing::{is_managed, metric_said, spec_named};
use crate::conf::Conf;
use crate::subject::Subject;
use conf_directives::ShareLine;
use net_types::{IfSpec, Name, NoMemory};
use prefix_share::{Share, plan};
use settings::{IaConf, Outlet, ShareConf};
use std::alloc::Global;

/// The metric of an interface's routes is this and its index, where none is said.
pub(crate) const METRIC_BASE: u32 = 1000;

fn sla_of(ifaces: &[IfSpec], line: &ShareLine) -> Option<u32>
    ensures { result ≡ sla_of ifaces.now line.now }
{
    match line.sla {
        Some(sla) => Some(sla),
        None => Some(spec_named(ifaces, &line.name)?.index.number),
    }
}

/// The share of a line, where its SLA id is known.
fn share_of(ifaces: &[IfSpec], hint: u8, line: &ShareLine) -> Option<Share>
    ensures { result ≡ share_of ifaces.now hint line.now }
{
    let sla = sla_of(ifaces, line)?;
    Some(Share {
        name: line.name,
        sla,
        len: line.len,
        hint,
    })
}

/// Takes one share more, where the rules let it stand after those that are taken.
fn take(taken: &mut Vec<Share>, share: Share) -> Result<(), NoMemory>
    ensures { OnOk result (taken.new.items ≡ taken_with taken.old.items share) }
{
    taken.push(share)?;
    if plan(taken).is_err() {
        taken.pop();
    }
    Ok(())
}

fn take_any(taken: &mut Vec<Share>, share: Option<Share>) -> Result<(), NoMemory>
    ensures { OnOk result (taken.new.items ≡ taken_on taken.old.items share) }
{
    match share {
        Some(share) => take(taken, share),
        None => Ok(()),
    }
}

/// The shares of a line that are taken.
fn shares_taken(
    alloc: Global,
    ifaces: &[IfSpec],
    hint: u8,
    lines: &[ShareLine],
) -> Result<Vec<Share>, NoMemory>
    ensures { IfOk result (λ taken. taken.items ≡ shares_taken ifaces.now hint lines.now) }
{
    let mut taken = Vec::new(alloc);
    for line in lines {
        take_any(&mut taken, share_of(ifaces, hint, line))?;
    }
    Ok(taken)
}

/// Where the rows of an interface lead.
fn outlet_of(conf: &Conf, spec: &IfSpec) -> Outlet
    ensures { result ≡ outlet_of (configuration conf.now) spec.now }
{
    let iface = spec.index;
    let usual = METRIC_BASE.saturating_add(iface.number);
    Outlet {
        iface,
        metric: metric_said(conf, &spec.name).unwrap_or(usual),
    }
}

fn outlet_by(conf: &Conf, upstream: &Name, spec: &IfSpec) -> Option<Outlet>
    ensures { result ≡ outlet_by (configuration conf.now) upstream.now spec.now }
{
    if is_managed(conf, &spec.name) && !is_named(upstream, &spec.name) {
        Some(outlet_of(conf, spec))
    } else {
        None
    }
}

/// What a share that is taken gives.
fn given_by(subject: &Subject<'_>, iaid: u32, share: &Share) -> Option<ShareConf>
    ensures { result
        ≡ given_by
        (configuration subject.now.conf.now) subject.now.ifaces.now subject.now.spec.now.name iaid share.now }
{
    let spec = spec_named(subject.ifaces, &share.name)?;
    let outlet = outlet_by(subject.conf, &subject.spec.name, spec)?;
    Some(ShareConf {
        iaid,
        share: *share,
        outlet,
    })
}

fn all_given(
    alloc: Global,
    subject: &Subject<'_>,
    iaid: u32,
    taken: &[Share],
) -> Result<Vec<ShareConf>, NoMemory>
    ensures { IfOk result
        (λ all. all.items
        ≡ filter_map
        (given_by (configuration subject.now.conf.now) subject.now.ifaces.now subject.now.spec.now.name iaid)
        taken.now) }
{
    Ok(
        taken
            .iter()
            .filter_map(|share| given_by(subject, iaid, share))
            .collect(alloc)?,
    )
}

/// What an association has shared.
pub fn shared_by(
    alloc: Global,
    subject: &Subject<'_>,
    ia: IaConf,
    shares: &[ShareLine],
) -> Result<Vec<ShareConf>, NoMemory>
    ensures { IfOk result (λ all. all.items ≡ shared_in subject.now (record { ia = ia; shares = shares.now })) }
{
    let taken = shares_taken(alloc, subject.ifaces, ia.hint, shares)?;
    all_given(alloc, subject, ia.iaid, &taken)
}
