//! The values of `static` lines.
ghost use Rattle.std.specs.Prelude.{◌≡◌, []};
ghost use Rattle.conf_directives.specs.Contents.{static_content};
ghost use Rattle.conf_scopes.specs.ScopeContents.{statics_content};
ghost use Rattle.conf_scopes.specs.Scopes.{statics_together};
ghost use Rattle.conf_scopes.specs.ScopeSteps.{with_static};

use conf_directives::StaticValue;
use net_types::{Ip4, Net4, Net6};

/// What `static` lines give an interface. Each is what the last line of its key says.
#[derive(Drop)]
pub struct Statics {
    pub address: Option<Net4>,
    pub routers: Option<Vec<Ip4>>,
    pub name_servers: Option<Vec<Ip4>>,
    pub domain_name: Option<String>,
    pub domain_search: Option<Vec<String>>,
    pub address6: Option<Net6>,
}

impl Statics {
    /// Nothing is said.
    pub fn none() -> Statics
        ensures { statics_content result ≡ statics_together [] }
    {
        Statics {
            address: None,
            routers: None,
            name_servers: None,
            domain_name: None,
            domain_search: None,
            address6: None,
        }
    }

    /// Takes the value of one line more.
    pub fn say(&mut self, value: StaticValue)
        ensures { statics_content self.new ≡ with_static (static_content value) (statics_content self.old) }
    {
        match value {
            StaticValue::Address(net) => self.address = Some(net),
            StaticValue::Routers(addresses) => self.routers = Some(addresses),
            StaticValue::NameServers(addresses) => self.name_servers = Some(addresses),
            StaticValue::DomainName(name) => self.domain_name = Some(name),
            StaticValue::DomainSearch(names) => self.domain_search = Some(names),
            StaticValue::Address6(net) => self.address6 = Some(net),
        }
    }
}
