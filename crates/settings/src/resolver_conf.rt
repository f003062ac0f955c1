//! What is configured for the resolver.
ghost use Rattle.std.specs.Prelude.{◌≡◌, ◌++◌, IfOk, OnOk, map};
ghost use Rattle.std.specs.String.{string_bytes};

use net_types::Ip4;
use std::alloc::{AllocError, Global};
use std::marker::Model;

/// What `static` lines say of name servers and of names to search in. Each goes before what a DHCPv4 lease says of it,
/// where it isn't empty.
#[derive(Drop)]
pub struct ResolverConf {
    /// `static domain_name_servers`.
    pub servers: Vec<Ip4>,
    /// `static domain_search`.
    pub search: Vec<String>,
    /// `static domain_name`.
    pub domain: String,
}

impl Model for ResolverConf {
    ghost use Rattle.std.specs.Prelude.{map};
    ghost use Rattle.std.specs.String.{string_bytes};
    ghost use Rattle.settings.specs.ResolverSettings.{ResolverSettings};

    ghost Value = { ResolverSettings };

    ghost view = { λ conf.
        record {
          servers = conf.servers.items;
          search = map string_bytes conf.search.items;
          domain = string_bytes conf.domain;
        } };
}

/// Appends a copy of each of these names.
fn add_names(into: &mut Vec<String>, names: &[String]) -> Result<(), AllocError>
    ensures { OnOk result
        (map string_bytes into.new.items ≡ map string_bytes into.old.items ++ map string_bytes names.now) }
{
    let alloc = *into.allocator();
    for name in names {
        into.push(String::from_str(alloc, name)?)?;
    }
    Ok(())
}

/// A copy of these names.
fn names_copied(alloc: Global, names: &[String]) -> Result<Vec<String>, AllocError>
    ensures { IfOk result (λ copy. map string_bytes copy.items ≡ map string_bytes names.now) }
{
    let mut copy = Vec::new(alloc);
    add_names(&mut copy, names)?;
    Ok(copy)
}

impl ResolverConf {
    /// A copy of it.
    pub fn to_owned(&self, alloc: Global) -> Result<ResolverConf, AllocError>
        ensures { IfOk result (λ copy. copy ≡ self.now) }
    {
        Ok(ResolverConf {
            servers: self.servers.to_vec(alloc)?,
            search: names_copied(alloc, &self.search)?,
            domain: String::from_str(alloc, &self.domain)?,
        })
    }
}
