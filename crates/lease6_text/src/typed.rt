//! What the types of a lease say of it. These functions do nothing.

ghost use Rattle.std.specs.Prelude.{map, IfSome};
ghost use Rattle.std.specs.List.{AllByRecursion};
ghost use Rattle.net_types.specs.AddressText.{FitsIp6, FitsMac};
ghost use Rattle.net_types.specs.Marks.{AreBytes};
ghost use Rattle.lease_text.specs.Leases.{values_content};
ghost use Rattle.lease6_text.specs.Bounds.{IsDuid, IsTyped6, IsTypedIa};
ghost use Rattle.lease6_text.specs.Leases.{ia_content, ias_content, lease6_content};

use crate::lease::{IaLease, Item6, Lease6};
use lease_text::{Origin, Value};
use net_types::Mac;
use v6_options::Duid;

fn bytes_are_typed(bytes: &[u8])
    ensures { AreBytes bytes.now }
{}

fn mac_is_typed(mac: Mac)
    ensures { FitsMac mac }
{}

fn origin_is_typed(origin: Option<Origin>)
    ensures { IfSome origin (λ o. FitsMac o.mac) }
{
    match origin {
        Some(origin) => mac_is_typed(origin.mac),
        None => {}
    }
}

fn duid_is_typed(duid: &Duid)
    ensures { IsDuid duid.now.bytes.items }
{
    bytes_are_typed(duid.as_slice());
}

fn item_is_typed(item: Item6)
    ensures { FitsIp6 item.net.ip }
{
    let _number = item.net.ip.number;
}

fn items_are_typed(items: &[Item6])
    ensures { AllByRecursion (λ item. FitsIp6 item.net.ip) items.now }
{
    for item in items {
        item_is_typed(*item);
    }
}

fn ia_is_typed(ia: &IaLease)
    ensures { IsTypedIa (ia_content ia.now) }
{
    let _iaid = ia.iaid;
    items_are_typed(&ia.items);
}

fn ias_are_typed(ias: &[IaLease])
    ensures { AllByRecursion IsTypedIa (ias_content ias.now) }
{
    for ia in ias {
        ia_is_typed(ia);
    }
}

fn values_are_typed(values: &[Value])
    ensures { AllByRecursion (λ value. AreBytes value.bytes) (values_content values.now) }
{
    for value in values {
        bytes_are_typed(&value.bytes);
    }
}

/// Each lease in memory is within the types that hold it.
pub fn lease6_is_typed(lease: &Lease6)
    ensures { IsTyped6 (lease6_content lease.now) }
{
    origin_is_typed(lease.origin);
    duid_is_typed(&lease.server);
    ias_are_typed(&lease.ias);
    values_are_typed(&lease.values);
}
