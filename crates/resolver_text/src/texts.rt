//! The first of what the parts say, as texts. Once there are as many as the limit says, no more of the parts is read.
ghost use Rattle.std.specs.Prelude.{◌≡◌, ◌<◌, ◌∷◌, [], filter, flat_map, length, map, take, bytes_eq, Contains, Decides, IfOk, OnOk};
ghost use Rattle.std.specs.List.{list_any};
ghost use Rattle.std.specs.String.{string_bytes};
ghost use Rattle.domain_names.specs.NameText.{is_name};
ghost use Rattle.resolver_text.specs.Keeping.{KeepsOn};
ghost use Rattle.resolver_text.specs.Parts.{part_content};
ghost use Rattle.resolver_text.specs.Texts.{is_link_local, part_names, part_servers, server_text, unlike, zoned_text};
ghost use Rattle.resolver_text.specs.Told.{needs_no_zone};

use crate::part::{Part, Server};
use domain_names::is_name;
use net_types::{Ip6, Name};
use std::alloc::{AllocError, Global};
use std::marker::Model;

/// The first ten bits of a link-local address, fe80::/10 (RFC 4291, section 2.5.6).
const LINK_LOCAL_BITS: u128 = 0x3fa;
/// How many bits an address has behind these.
const LINK_LOCAL_REST: u32 = 118;

/// Whether a name is one of the names.
fn is_among(names: &[&str], name: &str) -> bool
    ensures { result ≡ list_any (λ other. bytes_eq other.now name.now) names.now }
{
    names.iter().any(|other| *other == name)
}

/// Appends a name that is a domain name and unlike those before it.
fn add_name<'a>(name: &'a str, names: &mut Vec<&'a str>, limit: usize) -> Result<(), AllocError>
    requires { length names.old.items < limit }
    ensures { OnOk result
        (KeepsOn limit (filter is_name (name.now ∷ [])) (map (λ name. name.now) names.old.items)
        (map (λ name. name.now) names.new.items)) }
{
    if !is_among(names, name) && is_name(name.as_bytes()) {
        names.push(name)?;
    }
    Ok(())
}

/// Appends the names of a part, until there are as many as the limit says.
fn add_names<'a>(part: &'a Part, names: &mut Vec<&'a str>, limit: usize) -> Result<(), AllocError>
    ensures { OnOk result
        (KeepsOn limit (part_names (part_content part.now)) (map (λ name. name.now) names.old.items)
        (map (λ name. name.now) names.new.items)) }
{
    for name in &part.names {
        if names.len() >= limit {
            return Ok(());
        }
        add_name(name.as_str(), names, limit)?;
    }
    Ok(())
}

/// The first unlike names of the parts, no more than `limit`.
pub(crate) fn first_names<'a>(
    alloc: Global,
    parts: &[&'a Part],
    limit: usize,
) -> Result<Vec<&'a str>, AllocError>
    ensures { IfOk result
        (λ names. map (λ name. name.now) names.items
        ≡ take limit (unlike (flat_map part_names (map (λ p. part_content p.now) parts.now)))) }
{
    let mut names = Vec::new(alloc);
    for part in parts {
        if names.len() >= limit {
            return Ok(names);
        }
        add_names(part, &mut names, limit)?;
    }
    Ok(names)
}

/// Whether the address is one of fe80::/10.
fn is_link_local(ip: Ip6) -> bool
    ensures { result ≡ is_link_local ip }
{
    ip.number >> LINK_LOCAL_REST == LINK_LOCAL_BITS
}

/// The address with its zone.
fn zoned_text(alloc: Global, ip: Ip6, name: Name) -> Result<String, AllocError>
    ensures { IfOk result (λ text. string_bytes text ≡ zoned_text ip name) }
{
    format!(in alloc; "{ip}%{name}")
}

/// The server's address, with its zone where it is a link-local one (RFC 4007, section 11).
fn server_text(alloc: Global, name: Name, server: Server) -> Result<String, AllocError>
    ensures { IfOk result (λ text. string_bytes text ≡ server_text name server) }
{
    match server {
        Server::V4(ip) => format!(in alloc; "{ip}"),
        Server::V6(ip) => {
            if is_link_local(ip) {
                zoned_text(alloc, ip, name)
            } else {
                format!(in alloc; "{ip}")
            }
        }
    }
}

/// Whether the server's text is the same on each interface: a zone stands behind link-local addresses alone (RFC 4007,
/// section 11).
fn needs_no_zone(server: Server) -> bool
    ensures { result ≡ needs_no_zone server }
{
    match server {
        Server::V4(_) => true,
        Server::V6(ip) => !is_link_local(ip),
    }
}

/// Whether a text is one of the texts.
fn is_printed(texts: &[String], text: &str) -> bool
    ensures { result ≡ list_any (λ other. bytes_eq (string_bytes other) text.now) texts.now }
{
    texts.iter().any(|other| other.as_str() == text)
}

/// Whether a server is one of those that were told.
fn is_told(told: &[Server], server: Server) -> bool
    ensures { Decides result (Contains told.now server) }
{
    told.contains(&server)
}

/// The texts of servers, no two alike.
#[derive(Drop)]
struct Servers {
    texts: Vec<String>,
    /// Servers whose texts stand among these whatever the interface: they needn't be printed again.
    told: Vec<Server>,
}

impl Model for Servers {
    ghost use Rattle.std.specs.Prelude.{ℕ, List, map};
    ghost use Rattle.std.specs.String.{string_bytes};
    ghost use Rattle.resolver_text.specs.Told.{AreTold};

    ghost Value = { List (List ℕ) };

    ghost view = { λ servers. map (λ text. string_bytes text) servers.texts.items };

    ghost invariant = { λ servers. AreTold servers.told.items (map (λ text. string_bytes text) servers.texts.items) };
}

impl Servers {
    fn new(alloc: Global) -> Servers
        ensures { result ≡ [] }
    {
        Servers {
            texts: Vec::new(alloc),
            told: Vec::new(alloc),
        }
    }

    fn len(&self) -> usize
        ensures { result ≡ length self.now }
    {
        self.texts.len()
    }

    /// Adds the text of a server that is unlike those before it. Of several interfaces' servers most are the same ones,
    /// so a server that was told isn't printed again.
    fn add(
        &mut self,
        alloc: Global,
        name: Name,
        server: Server,
        limit: usize,
    ) -> Result<(), AllocError>
        requires { length self.old < limit }
        ensures { OnOk result (KeepsOn limit (server_text name server ∷ []) self.old self.new) }
    {
        if is_told(&self.told, server) {
            return Ok(());
        }
        let text = server_text(alloc, name, server)?;
        if is_printed(&self.texts, text.as_str()) {
            return Ok(());
        }
        self.texts.push(text)?;
        if needs_no_zone(server) {
            self.told.push(server)?;
        }
        Ok(())
    }

    /// Adds the texts of a part's servers, until there are as many as the limit says.
    fn add_part(&mut self, alloc: Global, part: &Part, limit: usize) -> Result<(), AllocError>
        ensures { OnOk result (KeepsOn limit (part_servers (part_content part.now)) self.old self.new) }
    {
        for server in &part.servers {
            if self.len() >= limit {
                return Ok(());
            }
            self.add(alloc, part.name, *server, limit)?;
        }
        Ok(())
    }

    fn into_texts(self) -> Vec<String>
        ensures { map (λ text. string_bytes text) result.items ≡ self }
    {
        self.texts
    }
}

/// The first unlike texts of the parts' servers, no more than `limit`.
pub(crate) fn first_servers(
    alloc: Global,
    parts: &[&Part],
    limit: usize,
) -> Result<Vec<String>, AllocError>
    ensures { IfOk result
        (λ servers. map (λ text. string_bytes text) servers.items
        ≡ take limit (unlike (flat_map part_servers (map (λ p. part_content p.now) parts.now)))) }
{
    let mut servers = Servers::new(alloc);
    for part in parts {
        if servers.len() >= limit {
            return Ok(servers.into_texts());
        }
        servers.add_part(alloc, part, limit)?;
    }
    Ok(servers.into_texts())
}
