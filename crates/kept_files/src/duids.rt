//! The DUID of the host, by which servers tell its clients apart.

ghost use Rattle.std.specs.Prelude.{◌≡◌, [], ◌∷◌, IfOk, option_and_then, option_map};
ghost use Rattle.settings.specs.Fitting.{FitsManaged};
ghost use Rattle.world.specs.StoreCalls.{Found};
ghost use Rattle.client_model.specs.HostDuid.{duid_by, host_duid};

use duid_text::{link_layer_duid, read_duid};
use net_types::NoMemory;
use settings::Managed;
use std::alloc::Global;
use v6_options::Duid;

/// The DUID of a file, where it was read and its text is one.
fn duid_in(alloc: Global, text: Option<&[u8]>) -> Result<Option<Duid>, NoMemory>
    ensures { IfOk result
        (λ duid. option_map (λ d. d.bytes.items) duid
        ≡ option_and_then duid_by (option_map (λ t. Found t.now) text.entry)) }
{
    match text {
        Some(text) => read_duid(alloc, text),
        None => Ok(None),
    }
}

/// The DUID of the host: that of its file's text, where that was read and is one, else that of the hardware address of
/// its first managed interface (RFC 8415, section 11).
pub fn host_duid(alloc: Global, first: &Managed, text: Option<&[u8]>) -> Result<Duid, NoMemory>
    requires { FitsManaged first.now }
    ensures { IfOk result
        (λ duid. duid.bytes.items ≡ host_duid (first.now ∷ []) (option_map (λ t. Found t.now) text.entry)) }
{
    match duid_in(alloc, text)? {
        Some(duid) => Ok(duid),
        None => link_layer_duid(alloc, first.spec.mac),
    }
}
