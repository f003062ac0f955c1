//! What the configuration says of interfaces, and which rows of the host are theirs to manage.
#![tactic(auto)]

mod dhcp4_conf;
mod dhcp6_conf;
mod flags;
mod hook_conf;
mod interfaces;
mod outlet;
mod resolver_conf;
mod times;

pub use dhcp4_conf::{Dhcp4Conf, Identifier};
pub use dhcp6_conf::{Dhcp6Conf, IaConf, ShareConf};
pub use flags::Flags;
pub use hook_conf::{HookConf, Script};
pub use interfaces::{IfConf, Managed};
pub use outlet::Outlet;
pub use resolver_conf::ResolverConf;
pub use times::Times;
