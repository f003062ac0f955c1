//! What an interface tells the resolver (resolv.conf(5)): a part for each lease, and for a static address.

ghost use Rattle.std.specs.Prelude.{◌≡◌, IfOk, map};
ghost use Rattle.std.specs.Option.{option_and_then, option_map};
ghost use Rattle.std.specs.String.{string_bytes};
ghost use Rattle.world.specs.Rows.{IsInterface};
ghost use Rattle.domain_names.specs.NameText.{text_in};
ghost use Rattle.domain_names.specs.SearchList.{search_in};
ghost use Rattle.v4_options.specs.Numbers.{addrs_in};
ghost use Rattle.v6_options.specs.Readers.{dns6_in, search6_in};
ghost use Rattle.lease_text.specs.Leases.{lease_content, values_content};
ghost use Rattle.lease6_text.specs.Leases.{lease6_content};
ghost use Rattle.resolver_text.specs.Parts.{part_content};
ghost use Rattle.client_model.specs.WantedRows.{value_in};
ghost use Rattle.client_model.specs.ResolverParts.{domain_names, first_said, has_part4, names4, part4_with, part6_with, part_of, read_as, servers4, values_held};

use crate::iface_rows::is_in_force;
use crate::kept_values::value_in;
use client_model::Iface;
use iface_core::{iface_lease, metric_of};
use lease_text::{Lease4, Value};
use lease6_text::Lease6;
use net_types::{Ip4, Ip6, NoMemory};
use resolver_text::{Family, Part, Server};
use settings::{Managed, ResolverConf};
use std::alloc::{AllocError, Global};
use v4_options::code::{DOMAIN_NAME, DOMAIN_NAME_SERVERS, DOMAIN_SEARCH};
use v4_options::{addrs_of, search_of, text_of};
use v6_options::code::{DNS_SERVERS, DOMAIN_LIST};
use v6_options::{dns6_of, search6_of};

/// A copy of these names.
fn names_copied(alloc: Global, names: &[String]) -> Result<Vec<String>, AllocError>
    ensures { IfOk result (λ copy. map string_bytes copy.items ≡ map string_bytes names.now) }
{
    let mut copy = Vec::new(alloc);
    for name in names {
        copy.push(String::from_str(alloc, name)?)?;
    }
    Ok(copy)
}

/// The servers of a DHCPv4 lease (RFC 2132, section 3.8).
fn servers_in(alloc: Global, values: &[Value]) -> Result<Option<Vec<Ip4>>, NoMemory>
    ensures { IfOk result
        (λ servers. option_map (λ v. v.items) servers
        ≡ option_and_then addrs_in (value_in DOMAIN_NAME_SERVERS (values_content values.now))) }
{
    match value_in(values, DOMAIN_NAME_SERVERS.into()) {
        Some(value) => addrs_of(alloc, value),
        None => Ok(None),
    }
}

/// The names to search in of a DHCPv4 lease (RFC 3397).
fn search_in(alloc: Global, values: &[Value]) -> Result<Option<Vec<String>>, NoMemory>
    ensures { IfOk result
        (λ names. option_map (λ v. map string_bytes v.items) names
        ≡ option_and_then search_in (value_in DOMAIN_SEARCH (values_content values.now))) }
{
    match value_in(values, DOMAIN_SEARCH.into()) {
        Some(value) => search_of(alloc, value),
        None => Ok(None),
    }
}

/// The domain of a DHCPv4 lease (RFC 2132, section 3.17).
fn domain_in(alloc: Global, values: &[Value]) -> Result<Option<String>, NoMemory>
    ensures { IfOk result
        (λ domain. option_map string_bytes domain
        ≡ option_and_then text_in (value_in DOMAIN_NAME (values_content values.now))) }
{
    match value_in(values, DOMAIN_NAME.into()) {
        Some(value) => text_of(alloc, value),
        None => Ok(None),
    }
}

/// The name servers that are configured, or else those of a DHCPv4 lease.
fn servers_said(alloc: Global, conf: &ResolverConf, values: &[Value]) -> Result<Vec<Ip4>, NoMemory>
    ensures { IfOk result
        (λ servers. servers.items
        ≡ first_said conf.now.servers (read_as addrs_in DOMAIN_NAME_SERVERS (values_content values.now))) }
{
    if !conf.servers.is_empty() {
        return Ok(conf.servers.to_vec(alloc)?);
    }
    match servers_in(alloc, values)? {
        Some(servers) => Ok(servers),
        None => Ok(Vec::new(alloc)),
    }
}

/// The names to search in that are configured, or else those of a DHCPv4 lease.
fn search_said(
    alloc: Global,
    conf: &ResolverConf,
    values: &[Value],
) -> Result<Vec<String>, NoMemory>
    ensures { IfOk result
        (λ names. map string_bytes names.items
        ≡ first_said conf.now.search (read_as search_in DOMAIN_SEARCH (values_content values.now))) }
{
    if !conf.search.is_empty() {
        return Ok(names_copied(alloc, &conf.search)?);
    }
    match search_in(alloc, values)? {
        Some(names) => Ok(names),
        None => Ok(Vec::new(alloc)),
    }
}

/// The domain that is configured, or else that of a DHCPv4 lease.
fn domain_said(alloc: Global, conf: &ResolverConf, values: &[Value]) -> Result<String, NoMemory>
    ensures { IfOk result
        (λ domain. string_bytes domain
        ≡ first_said conf.now.domain (read_as text_in DOMAIN_NAME (values_content values.now))) }
{
    if !conf.domain.is_empty() {
        return Ok(String::from_str(alloc, &conf.domain)?);
    }
    match domain_in(alloc, values)? {
        Some(domain) => Ok(domain),
        None => Ok(String::new(alloc)),
    }
}

/// A domain as names to search in.
fn domain_names(alloc: Global, domain: String) -> Result<Vec<String>, AllocError>
    ensures { IfOk result (λ names. map string_bytes names.items ≡ domain_names (string_bytes domain)) }
{
    let mut names = Vec::new(alloc);
    if !domain.is_empty() {
        names.push(domain)?;
    }
    Ok(names)
}

/// The names to search in, or else the domain.
fn names4(alloc: Global, conf: &ResolverConf, values: &[Value]) -> Result<Vec<String>, NoMemory>
    ensures { IfOk result (λ names. map string_bytes names.items ≡ names4 conf.now (values_content values.now)) }
{
    let search = search_said(alloc, conf, values)?;
    if !search.is_empty() {
        return Ok(search);
    }
    Ok(domain_names(alloc, domain_said(alloc, conf, values)?)?)
}

/// The addresses of IPv4 as servers.
fn as_servers4(alloc: Global, addresses: &[Ip4]) -> Result<Vec<Server>, AllocError>
    ensures { IfOk result (λ servers. servers.items ≡ map Server.V4 addresses.now) }
{
    addresses.iter().map(|ip| Server::V4(*ip)).collect(alloc)
}

/// The addresses of IPv6 as servers.
fn as_servers6(alloc: Global, addresses: &[Ip6]) -> Result<Vec<Server>, AllocError>
    ensures { IfOk result (λ servers. servers.items ≡ map Server.V6 addresses.now) }
{
    addresses.iter().map(|ip| Server::V6(*ip)).collect(alloc)
}

fn servers4(alloc: Global, conf: &ResolverConf, values: &[Value]) -> Result<Vec<Server>, NoMemory>
    ensures { IfOk result (λ servers. servers.items ≡ servers4 conf.now (values_content values.now)) }
{
    let addresses = servers_said(alloc, conf, values)?;
    Ok(as_servers4(alloc, &addresses)?)
}

/// The servers of a DHCPv6 lease (RFC 3646, section 3).
fn servers6(alloc: Global, values: &[Value]) -> Result<Vec<Server>, NoMemory>
    ensures { IfOk result
        (λ servers. servers.items ≡ map Server.V6 (read_as dns6_in DNS_SERVERS (values_content values.now))) }
{
    let Some(value) = value_in(values, DNS_SERVERS) else {
        return Ok(Vec::new(alloc));
    };
    match dns6_of(alloc, value)? {
        Some(addresses) => Ok(as_servers6(alloc, &addresses)?),
        None => Ok(Vec::new(alloc)),
    }
}

/// The names to search in of a DHCPv6 lease (RFC 3646, section 4).
fn names6(alloc: Global, values: &[Value]) -> Result<Vec<String>, NoMemory>
    ensures { IfOk result
        (λ names. map string_bytes names.items ≡ read_as search6_in DOMAIN_LIST (values_content values.now)) }
{
    let Some(value) = value_in(values, DOMAIN_LIST) else {
        return Ok(Vec::new(alloc));
    };
    match search6_of(alloc, value)? {
        Some(names) => Ok(names),
        None => Ok(Vec::new(alloc)),
    }
}

/// What an interface says of servers and names.
pub fn part_of(managed: &Managed, family: Family, servers: Vec<Server>, names: Vec<String>) -> Part
    requires { IsInterface managed.now.spec.index.number }
    ensures { part_content result ≡ part_of managed.now family servers.items (map string_bytes names.items) }
{
    Part {
        metric: metric_of(managed),
        index: managed.spec.index,
        name: managed.spec.name,
        family,
        servers,
        names,
    }
}

/// The values of a lease that is held.
fn values_held(lease: Option<&Lease4>) -> &[Value]
    ensures { values_content result.now ≡ values_held (option_map (λ lease. lease_content lease.now) lease.entry) }
{
    match lease {
        Some(lease) => &lease.values,
        None => &[],
    }
}

/// The part of IPv4: what is configured goes before what the lease says (RFC 2132, RFC 3397).
pub fn part4_with(
    alloc: Global,
    managed: &Managed,
    lease: Option<&Lease4>,
) -> Result<Part, NoMemory>
    requires { IsInterface managed.now.spec.index.number }
    ensures { IfOk result
        (λ part. part_content part
        ≡ part4_with managed.now (option_map (λ lease. lease_content lease.now) lease.entry)) }
{
    let values = values_held(lease);
    let conf = &managed.conf.resolver;
    let servers = servers4(alloc, conf, values)?;
    let names = names4(alloc, conf, values)?;
    Ok(part_of(managed, Family::V4, servers, names))
}

/// The part of a DHCPv6 lease (RFC 3646).
pub fn part6_with(alloc: Global, managed: &Managed, lease: &Lease6) -> Result<Part, NoMemory>
    requires { IsInterface managed.now.spec.index.number }
    ensures { IfOk result (λ part. part_content part ≡ part6_with managed.now (lease6_content lease.now)) }
{
    let servers = servers6(alloc, &lease.values)?;
    let names = names6(alloc, &lease.values)?;
    Ok(part_of(managed, Family::V6, servers, names))
}

/// Whether a lease is held, or a static address is in force.
pub fn has_part4(iface: &Iface) -> bool
    ensures { result ≡ has_part4 iface.now }
{
    iface_lease(iface).is_some() || (is_in_force(iface) && iface.managed.conf.address.is_some())
}
