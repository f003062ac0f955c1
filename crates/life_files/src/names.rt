//! The names of the files that a life reads and keeps.
ghost use Rattle.std.specs.Prelude.{◌≡◌, IfOk};
ghost use Rattle.std.specs.String.{string_bytes};
ghost use Rattle.world.specs.FileNames.{IsFileName};
ghost use Rattle.settings.specs.Fitting.{FitsManaged};
ghost use Rattle.turn_model.specs.Loading.{lease4_file, lease6_file};

use net_types::NoMemory;
use settings::Managed;
use std::alloc::Global;

/// The file of the host's DUID.
pub const DUID_FILE: &str = "duid";

/// The file of the resolver.
pub const RESOLVER_FILE: &str = "resolv.conf";

/// The name of the file in which the DHCPv4 lease of an interface is kept.
#[tactic(auto, using(crate::proofs::FileNames::lease4_name_fits))]
pub fn lease4_file(alloc: Global, managed: &Managed) -> Result<String, NoMemory>
    requires { FitsManaged managed.now }
    ensures name { IfOk result (λ name. string_bytes name ≡ lease4_file managed.now) }
    ensures fits { IfOk result (λ name. IsFileName (string_bytes name)) }
{
    Ok(format!(in alloc; "{}.lease4", managed.spec.name)?)
}

/// The name of the file in which the DHCPv6 lease of an interface is kept.
#[tactic(auto, using(crate::proofs::FileNames::lease6_name_fits))]
pub fn lease6_file(alloc: Global, managed: &Managed) -> Result<String, NoMemory>
    requires { FitsManaged managed.now }
    ensures name { IfOk result (λ name. string_bytes name ≡ lease6_file managed.now) }
    ensures fits { IfOk result (λ name. IsFileName (string_bytes name)) }
{
    Ok(format!(in alloc; "{}.lease6", managed.spec.name)?)
}
