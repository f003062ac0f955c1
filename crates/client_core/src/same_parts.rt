//! Whether two parts of what the resolver is told are the same.

ghost use Rattle.std.specs.Prelude.{◌≡◌, ◌↔◌, true, map};
ghost use Rattle.std.specs.String.{string_bytes};
ghost use Rattle.resolver_text.specs.Parts.{part_content};
ghost use Rattle.client_core.specs.ToldParts.{HaveOneOrigin};

use resolver_text::{Part, Server};

/// Whether two parts come from the same interface with the same metric, and from one protocol.
fn have_one_origin(one: &Part, other: &Part) -> bool
    ensures { result ≡ true ↔ HaveOneOrigin one.now other.now }
{
    if one.metric != other.metric {
        return false;
    }
    if one.index != other.index {
        return false;
    }
    if one.name != other.name {
        return false;
    }
    one.family == other.family
}

fn same_servers(one: &[Server], other: &[Server]) -> bool
    ensures { result ≡ true ↔ one.now ≡ other.now }
{
    one == other
}

fn same_names(one: &[String], other: &[String]) -> bool
    ensures { result ≡ true ↔ map string_bytes one.now ≡ map string_bytes other.now }
{
    one == other
}

/// Whether two parts are the same.
pub fn is_same(one: &Part, other: &Part) -> bool
    ensures { result ≡ true ↔ part_content one.now ≡ part_content other.now }
{
    if !have_one_origin(one, other) {
        return false;
    }
    if !same_servers(&one.servers, &other.servers) {
        return false;
    }
    same_names(&one.names, &other.names)
}
