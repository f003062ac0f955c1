//! What is in force for the resolver.
ghost use Rattle.std.specs.Prelude.{◌≡◌, map, option_map, IfOk};
ghost use Rattle.std.specs.String.{string_bytes};
ghost use Rattle.conf_scopes.specs.ScopeContents.{statics_content};
ghost use Rattle.conf_text.specs.Settings.{list_or_none, resolver_in_force};

use crate::lists::list_of;
use conf_scopes::Statics;
use net_types::NoMemory;
use settings::ResolverConf;
use std::alloc::{AllocError, Global};

fn copies(alloc: Global, names: &[String]) -> Result<Vec<String>, AllocError>
    ensures { IfOk result (λ copies. map string_bytes copies.items ≡ map string_bytes names.now) }
{
    let mut copies = Vec::new(alloc);
    for name in names {
        copies.push(String::from_str(alloc, name)?)?;
    }
    Ok(copies)
}

fn search_in_force(
    alloc: Global,
    block: &Option<Vec<String>>,
    global: &Option<Vec<String>>,
) -> Result<Vec<String>, AllocError>
    ensures { IfOk result
        (λ search. map string_bytes search.items
        ≡ list_or_none (option_map (λ names. map string_bytes names.items) block.now)
        (option_map (λ names. map string_bytes names.items) global.now)) }
{
    match (block, global) {
        (Some(names), _) => copies(alloc, names),
        (None, Some(names)) => copies(alloc, names),
        (None, None) => Ok(Vec::new(alloc)),
    }
}

fn domain_in_force(
    alloc: Global,
    block: &Option<String>,
    global: &Option<String>,
) -> Result<String, AllocError>
    ensures { IfOk result
        (λ domain. string_bytes domain
        ≡ list_or_none (option_map string_bytes block.now) (option_map string_bytes global.now)) }
{
    match (block, global) {
        (Some(name), _) => String::from_str(alloc, name),
        (None, Some(name)) => String::from_str(alloc, name),
        (None, None) => Ok(String::new(alloc)),
    }
}

/// What `static` lines give the resolver.
pub fn resolver_in_force(
    alloc: Global,
    global: &Statics,
    block: &Statics,
) -> Result<ResolverConf, NoMemory>
    ensures { IfOk result (λ conf. conf ≡ resolver_in_force (statics_content global.now) (statics_content block.now)) }
{
    Ok(ResolverConf {
        servers: list_of(alloc, &block.name_servers, &global.name_servers)?,
        search: search_in_force(alloc, &block.domain_search, &global.domain_search)?,
        domain: domain_in_force(alloc, &block.domain_name, &global.domain_name)?,
    })
}
