//! What is looked at to say which settings are in force for one interface: the configuration, all interfaces, and its
//! block.

use crate::conf::Conf;
use conf_scopes::Scope;
use net_types::IfSpec;

/// An interface of which is made what is in force for it.
#[derive(Clone, Copy)]
pub struct Subject<'a> {
    pub conf: &'a Conf,
    /// All interfaces, managed or not.
    pub ifaces: &'a [IfSpec],
    pub spec: &'a IfSpec,
    /// What its block says.
    pub block: &'a Scope,
}
