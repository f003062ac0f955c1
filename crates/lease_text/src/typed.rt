//! What the types of a lease say of it. These functions do nothing.

ghost use Rattle.std.specs.Prelude.{IfSome};
ghost use Rattle.std.specs.List.{AllByRecursion};
ghost use Rattle.net_types.specs.AddressText.{FitsIp4, FitsMac};
ghost use Rattle.net_types.specs.Marks.{AreBytes};
ghost use Rattle.lease_text.specs.Bounds.{IsTyped};
ghost use Rattle.lease_text.specs.Leases.{lease_content, values_content};

use crate::lease::{Lease4, Origin, Value};
use net_types::Mac;

fn bytes_are_typed(bytes: &[u8])
    ensures { AreBytes bytes.now }
{}

fn mac_is_typed(mac: Mac)
    ensures { FitsMac mac }
{}

fn origin_is_typed(origin: Option<Origin>)
    ensures { IfSome origin (λ origin. FitsMac origin.mac) }
{
    match origin {
        None => (),
        Some(origin) => mac_is_typed(origin.mac),
    }
}

fn values_are_typed(values: &[Value])
    ensures { AllByRecursion (λ value. AreBytes value.bytes) (values_content values.now) }
{
    for value in values {
        bytes_are_typed(&value.bytes);
    }
}

/// Each lease in memory is within the types that hold it.
pub fn lease_is_typed(lease: &Lease4)
    ensures { IsTyped (lease_content lease.now) }
{
    let _server = lease.server.number;
    let _time = lease.lease;
    origin_is_typed(lease.origin);
    mac_is_typed(lease.server_mac);
    values_are_typed(&lease.values);
}
