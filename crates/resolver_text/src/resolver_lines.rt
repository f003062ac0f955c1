//! The lines of the resolver's file.
ghost use Rattle.std.specs.Prelude.{◌≡◌, ◌++◌, map, IfOk, OnOk};
ghost use Rattle.std.specs.String.{string_bytes};
ghost use Rattle.net_types.specs.TextLines.{ended, lines_text};
ghost use Rattle.resolver_text.specs.Parts.{parts_content};
ghost use Rattle.resolver_text.specs.ResolverText.{resolver_text, search_lines, server_line};

use crate::order::in_order;
use crate::part::Part;
use crate::texts::{first_names, first_servers};
use net_types::NoMemory;
use std::alloc::{AllocError, Global};

/// How many names the text has at most.
const SEARCH_LIMIT: usize = 16;
/// How many servers the text has at most.
const SERVER_LIMIT: usize = 8;

/// Appends the line of the names, where there is one.
fn add_search(text: &mut String, names: &[&str]) -> Result<(), AllocError>
    ensures { OnOk result
        (string_bytes text.new
        ≡ string_bytes text.old ++ lines_text (search_lines (map (λ name. name.now) names.now))) }
{
    if names.is_empty() {
        return Ok(());
    }
    text.push_str("search")?;
    for name in names {
        text.push_str(" ")?;
        text.push_str(name)?;
    }
    text.push_str("\n")
}

/// Appends the line of a server.
fn add_server(text: &mut String, server: &str) -> Result<(), AllocError>
    ensures { OnOk result (string_bytes text.new ≡ string_bytes text.old ++ ended (server_line server.now)) }
{
    text.push_str("nameserver ")?;
    text.push_str(server)?;
    text.push_str("\n")?;
    Ok(())
}

/// Appends a line for each server.
fn add_servers(text: &mut String, servers: &[String]) -> Result<(), AllocError>
    ensures { OnOk result
        (string_bytes text.new
        ≡ string_bytes text.old ++ lines_text (map server_line (map (λ server. string_bytes server) servers.now))) }
{
    for server in servers {
        add_server(text, server.as_str())?;
    }
    Ok(())
}

/// The text of the resolver's file. The parts come by metric, then by index, then IPv4 before IPv6. Their names that
/// are domain names make one `search` line, their servers a `nameserver` line each: the first 16 unlike names, and the
/// first 8 servers with unlike texts. A link-local server has its interface as zone (RFC 4007, section 11). The text is
/// empty where there is neither.
pub fn resolver(alloc: Global, parts: &[Part]) -> Result<String, NoMemory>
    ensures { IfOk result (λ text. string_bytes text ≡ resolver_text (parts_content parts.now)) }
{
    let ordered = in_order(alloc, parts)?;
    let mut text = String::new(alloc);
    add_search(&mut text, &first_names(alloc, &ordered, SEARCH_LIMIT)?)?;
    add_servers(&mut text, &first_servers(alloc, &ordered, SERVER_LIMIT)?)?;
    Ok(text)
}
