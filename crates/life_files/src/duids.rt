//! The DUID of the host, by which servers tell its clients apart.
ghost use Rattle.std.specs.Prelude.{◌≡◌, ◌≤◌, [], ◌∷◌, length, IfOk, option_map};
ghost use Rattle.lease6_text.specs.Bounds.{IsDuid};
ghost use Rattle.lease_file.specs.FileReads.{got_reading};
ghost use Rattle.settings.specs.Dhcp4Settings.{identifier_in};
ghost use Rattle.settings.specs.Fitting.{FitsManaged};
ghost use Rattle.client_model.specs.ClientSettings6.{is_by_duid, needs_duid, some_need_duid};
ghost use Rattle.client_model.specs.HostDuid.{host_duid};

use client_core::{runs_dhcp4, runs_dhcp6};
use lease_file::Got;
use net_types::NoMemory;
use settings::{Identifier, Managed};
use std::alloc::Global;
use v6_options::Duid;

/// Whether a DHCPv4 client is known by the DUID.
fn is_by_duid(identifier: &Identifier) -> bool
    ensures { result ≡ is_by_duid (identifier_in identifier.now) }
{
    match identifier {
        Identifier::Hardware => false,
        Identifier::Bytes(_) => false,
        Identifier::Duid => true,
    }
}

/// Whether a client of an interface is known by the DUID.
fn needs_duid(managed: &Managed) -> bool
    ensures { result ≡ needs_duid managed.now }
{
    let conf = &managed.conf;
    runs_dhcp6(conf) || (runs_dhcp4(conf) && is_by_duid(&conf.dhcp4.identifier))
}

/// Whether some client is known by the DUID.
pub fn some_need_duid(managed: &[Managed]) -> bool
    ensures { result ≡ some_need_duid managed.now }
{
    managed.iter().any(|managed| needs_duid(managed))
}

/// A copy of a DUID.
pub fn duid_copied(alloc: Global, duid: &Duid) -> Result<Duid, NoMemory>
    ensures same { IfOk result (λ copy. copy.bytes.items ≡ duid.now.bytes.items) }
    ensures fits { IfOk result (λ copy. IsDuid copy.bytes.items) }
{
    duid_of(alloc, duid.as_slice())
}

/// The DUID of these bytes.
fn duid_of(alloc: Global, bytes: &[u8]) -> Result<Duid, NoMemory>
    requires least { 2 ≤ length bytes.now }
    requires most { length bytes.now ≤ 130 }
    ensures same { IfOk result (λ duid. duid.bytes.items ≡ bytes.now) }
    ensures fits { IfOk result (λ duid. IsDuid duid.bytes.items) }
{
    match Duid::new(alloc, bytes)? {
        Some(duid) => Ok(duid),
        None => unreachable!(),
    }
}

/// The DUID of the host: the one that was read, else that of the hardware address of its first managed interface.
pub fn host_duid(alloc: Global, first: &Managed, read: &Option<Got>) -> Result<Duid, NoMemory>
    requires { FitsManaged first.now }
    ensures { IfOk result (λ duid. duid.bytes.items ≡ host_duid (first.now ∷ []) (option_map got_reading read.now)) }
{
    match read {
        Some(Got::Text(text)) => kept_files::host_duid(alloc, first, Some(text)),
        Some(Got::Missing) => kept_files::host_duid(alloc, first, None),
        Some(Got::Unread) => kept_files::host_duid(alloc, first, None),
        None => kept_files::host_duid(alloc, first, None),
    }
}
