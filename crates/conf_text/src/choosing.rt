//! Which interfaces are managed, and what is said of an interface.
ghost use Rattle.std.specs.Prelude.{◌≡◌};
ghost use Rattle.std.specs.List.{list_any};
ghost use Rattle.std.specs.Option.{option_copied};
ghost use Rattle.conf_text.specs.Choosing.{is_managed, is_meant, scope_for, spec_named};
ghost use Rattle.conf_text.specs.Contents.{configuration};
ghost use Rattle.conf_scopes.specs.Values.{first_said};

use crate::block_name::is_named;
use crate::blocks::said_of;
use crate::conf::Conf;
use conf_values::Pattern;
use net_types::{IfSpec, Name};

#[tactic(auto, unfolding(net_types::specs::NameText::name_text))]
fn is_meant(name: &Name, pattern: &Pattern) -> bool
    ensures { result ≡ is_meant name.now pattern.now }
{
    match pattern {
        Pattern::Exactly(other) => is_named(name, other),
        Pattern::Any => true,
        Pattern::Beginning(front) => name.as_bytes().starts_with(front.as_bytes()),
    }
}

fn is_among(name: &Name, patterns: &[Pattern]) -> bool
    ensures { result ≡ list_any (is_meant name.now) patterns.now }
{
    patterns.iter().any(|pattern| is_meant(name, pattern))
}

/// Whether an interface of this name is managed.
pub fn is_managed(conf: &Conf, name: &Name) -> bool
    ensures { result ≡ is_managed (configuration conf.now) name.now }
{
    !is_among(name, &conf.denied) && (conf.allowed.is_empty() || is_among(name, &conf.allowed))
}

/// The interface of this name.
pub fn spec_named<'a>(ifaces: &'a [IfSpec], name: &Name) -> Option<&'a IfSpec>
    ensures { option_copied result ≡ spec_named ifaces.now name.now }
{
    ifaces.iter().find(|spec| is_named(name, &spec.name))
}

/// The metric that is said of an interface: its block's, else the global one.
pub fn metric_said(conf: &Conf, name: &Name) -> Option<u32>
    ensures { result
        ≡ first_said (scope_for (configuration conf.now).blocks name.now).metric
        (configuration conf.now).global.metric }
{
    match said_of(&conf.blocks, name) {
        Some(block) => block.metric.or(conf.global.metric),
        None => conf.global.metric,
    }
}
