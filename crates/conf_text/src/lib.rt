//! A whole configuration (dhcpcd.conf(5)): what it says in front of all blocks and for each interface, its first fault,
//! the words that do nothing, and what is in force for an interface.
//!
//! `read_conf` reads a text, in one pass. `settings` and `managed` say what it sets for interfaces.
#![tactic(auto)]

mod answers;
mod associations;
mod block_name;
mod blocks;
mod choosing;
mod conf;
mod constants;
mod hooks;
mod lists;
mod managing;
mod reader;
mod reading;
mod resolver;
mod sharing;
mod subject;

pub use answers::{ConfAnswer, ConfCause, ConfFault};
pub use conf::{Conf, Notice, notices};
pub use constants::bounds_of_a_configuration;
pub use managing::{managed, settings};
pub use reading::read_conf;
