//! The addresses that other interfaces have out of the delegated prefixes of a lease (RFC 3633, section 12.1).
ghost use Rattle.std.specs.Prelude.{◌≡◌, ◌++◌, IfOk, OnOk, flat_map, map, option_map};
ghost use Rattle.std.specs.List.{AllByRecursion};
ghost use Rattle.lease6_text.specs.Leases.{ia_content, ias_content, lease6_content};
ghost use Rattle.prefix_share.specs.Subnets.{subnet_in};
ghost use Rattle.settings.specs.Dhcp6Settings.{FitsShareConf};
ghost use Rattle.client_model.specs.Jobs.{ia_told, item_told, shared_address, shares_at, shares_told};
ghost use Rattle.client_model.specs.WantedRows.{first_address, shares_of};
ghost use Rattle.iface_machines.specs.Outcomes.{told_content};
ghost use Rattle.iface_machines.specs.Shares.{IsSubnet};

use crate::outs::Told;
use lease6_text::{IaLease, Item6, Lease6};
use net_types::{Ip6, Net6, NoMemory};
use prefix_share::subnet;
use settings::ShareConf;
use std::alloc::{AllocError, Global};
use v6_client::News6;
use v6_options::IaKind;

/// The first address of a subnet after that of its routers (RFC 4291, section 2.6.1).
#[tactic(auto, using(crate::proofs::ShareAddresses::first_isnt_last))]
pub fn first_address(net: Net6) -> Net6
    requires { IsSubnet net }
    ensures { result ≡ first_address net }
{
    Net6 {
        ip: Ip6 {
            number: net.ip.number + 1,
        },
        len: net.len,
    }
}

/// The shares of the prefixes of an IA.
pub fn shares_of(
    alloc: Global,
    iaid: u32,
    shares: &[ShareConf],
) -> Result<Vec<ShareConf>, AllocError>
    ensures { IfOk result (λ kept. kept.items ≡ shares_of iaid shares.now) }
{
    shares
        .iter()
        .filter(|share| share.iaid == iaid)
        .copied()
        .collect(alloc)
}

/// Appends the address that a share gives of a prefix.
#[tactic(auto, using(crate::proofs::ShareAddresses::shared_is_subnet))]
fn push_share(told: &mut Vec<Told>, prefix: Net6, share: &ShareConf) -> Result<(), NoMemory>
    requires { FitsShareConf share.now }
    ensures { OnOk result
        (map told_content told.new.items
        ≡ map told_content told.old.items ++ shared_address share.now (subnet_in prefix share.now.share)) }
{
    match subnet(prefix, &share.share) {
        Some(net) => {
            told.push(Told::Shared {
                iface: share.outlet.iface,
                net: first_address(net),
            })?;
            Ok(())
        }
        None => Ok(()),
    }
}

/// Appends the addresses that shares give of a prefix.
fn push_prefix(told: &mut Vec<Told>, prefix: Net6, shares: &[ShareConf]) -> Result<(), NoMemory>
    requires { AllByRecursion FitsShareConf shares.now }
    ensures { OnOk result
        (map told_content told.new.items
        ≡ map told_content told.old.items
        ++ flat_map (λ share. shared_address share (subnet_in prefix share.share)) shares.now) }
{
    for share in shares {
        push_share(told, prefix, share)?;
    }
    Ok(())
}

/// Appends the addresses that shares give of an item, where it is a prefix.
fn push_item(
    told: &mut Vec<Told>,
    shares: &[ShareConf],
    kind: IaKind,
    item: Item6,
) -> Result<(), NoMemory>
    requires { AllByRecursion FitsShareConf shares.now }
    ensures { OnOk result
        (map told_content told.new.items ≡ map told_content told.old.items ++ item_told shares.now kind item) }
{
    match kind {
        IaKind::Na => Ok(()),
        IaKind::Pd => push_prefix(told, item.net, shares),
    }
}

fn push_items(
    told: &mut Vec<Told>,
    shares: &[ShareConf],
    kind: IaKind,
    items: &[Item6],
) -> Result<(), NoMemory>
    requires { AllByRecursion FitsShareConf shares.now }
    ensures { OnOk result
        (map told_content told.new.items
        ≡ map told_content told.old.items ++ flat_map (item_told shares.now kind) items.now) }
{
    for item in items {
        push_item(told, shares, kind, *item)?;
    }
    Ok(())
}

/// Appends the addresses that the shares of an IA give of its prefixes.
#[tactic(auto, using(crate::proofs::ShareAddresses::own_shares_fit))]
fn push_ia(told: &mut Vec<Told>, shares: &[ShareConf], ia: &IaLease) -> Result<(), NoMemory>
    requires { AllByRecursion FitsShareConf shares.now }
    ensures { OnOk result
        (map told_content told.new.items ≡ map told_content told.old.items ++ ia_told shares.now (ia_content ia.now)) }
{
    let own = shares_of(*told.allocator(), ia.iaid, shares)?;
    push_items(told, &own, ia.kind, &ia.items)
}

fn push_ias(told: &mut Vec<Told>, shares: &[ShareConf], ias: &[IaLease]) -> Result<(), NoMemory>
    requires { AllByRecursion FitsShareConf shares.now }
    ensures { OnOk result
        (map told_content told.new.items
        ≡ map told_content told.old.items ++ flat_map (ia_told shares.now) (ias_content ias.now)) }
{
    for ia in ias {
        push_ia(told, shares, ia)?;
    }
    Ok(())
}

/// Appends the addresses that shares give of the prefixes of a lease.
fn push_lease(
    told: &mut Vec<Told>,
    shares: &[ShareConf],
    lease: Option<&Lease6>,
) -> Result<(), NoMemory>
    requires { AllByRecursion FitsShareConf shares.now }
    ensures { OnOk result
        (map told_content told.new.items
        ≡ map told_content told.old.items
        ++ shares_told shares.now (option_map (λ lease. lease6_content lease.now) lease.entry)) }
{
    match lease {
        None => Ok(()),
        Some(lease) => push_ias(told, shares, &lease.ias),
    }
}

/// Appends the addresses that shares give, where prefixes came, or came again.
pub(crate) fn push_shares(
    told: &mut Vec<Told>,
    news: News6,
    shares: &[ShareConf],
    lease: Option<&Lease6>,
) -> Result<(), NoMemory>
    requires { AllByRecursion FitsShareConf shares.now }
    ensures { OnOk result
        (map told_content told.new.items
        ≡ map told_content told.old.items
        ++ shares_at news shares.now (option_map (λ lease. lease6_content lease.now) lease.entry)) }
{
    match news {
        News6::Bound | News6::Reboot | News6::Renew | News6::Rebind => {
            push_lease(told, shares, lease)
        }
        News6::Expire | News6::Stop | News6::Changed | News6::Nothing => Ok(()),
    }
}
