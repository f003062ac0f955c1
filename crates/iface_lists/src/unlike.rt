//! Interfaces with unlike names and unlike hardware addresses.
ghost use Rattle.std.specs.Prelude.{◌≡◌};
ghost use Rattle.std.specs.List.{list_all};
ghost use Rattle.iface_lists.specs.UnlikeIfaces.{is_unlike, all_unlike};

use net_types::IfSpec;

#[tactic(auto, unfolding(net_types::specs::NameText::name_text))]
fn is_unlike(one: &IfSpec, other: &IfSpec) -> bool
    ensures { result ≡ is_unlike one.now other.now }
{
    one.name.as_bytes() != other.name.as_bytes() && one.mac.bytes != other.mac.bytes
}

fn is_unlike_all(spec: &IfSpec, others: &[IfSpec]) -> bool
    ensures { result ≡ list_all (is_unlike spec.now) others.now }
{
    others.iter().all(|other| is_unlike(spec, other))
}

/// Whether all names and all hardware addresses are unlike.
pub fn all_unlike(specs: &[IfSpec]) -> bool
    ensures { result ≡ all_unlike specs.now }
{
    match specs.split_first() {
        None => true,
        Some((spec, others)) => {
            if is_unlike_all(spec, others) {
                all_unlike(others)
            } else {
                false
            }
        }
    }
}
