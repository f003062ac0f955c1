//! The command whose words are those of `live`.
ghost use Rattle.std.specs.Prelude.{◌≡◌, false, IfOk};
ghost use Rattle.clap.specs.Words.{app_of, rule_of};
ghost use Rattle.live_words.specs.LiveCommand.{interfaces_rule, live_command, path_rule, place_rule};

use crate::listed::MOST_INTERFACES;
use clap::builder::ValueParser;
use clap::{Arg, Command};
use std::alloc::{AllocError, Global};

/// The port of the link.
pub const PORT: &str = "PORT";

/// The port of the link's peer.
pub const PEER: &str = "PEER";

/// The folder of the store.
pub const FOLDER: &str = "DIR";

/// The script of the host and of the hooks.
pub const SCRIPT: &str = "SCRIPT";

/// The interfaces.
pub const INTERFACES: &str = "IFACE";

/// A word that has to be there.
fn place(alloc: Global, id: &str) -> Arg<'_>
    ensures rule { rule_of result ≡ place_rule id.entry.now }
    ensures local { result.global ≡ false }
{
    Arg::new(alloc, id).required(true)
}

/// A word that has to be there, and isn't empty.
fn path(alloc: Global, id: &str) -> Arg<'_>
    ensures rule { rule_of result ≡ path_rule id.entry.now }
    ensures local { result.global ≡ false }
{
    place(alloc, id).value_parser(ValueParser::NonEmptyString)
}

/// The words at the end, one for each interface.
fn interfaces<'a>(alloc: Global) -> Arg<'a>
    ensures rule { rule_of result ≡ interfaces_rule }
    ensures local { result.global ≡ false }
{
    place(alloc, INTERFACES).num_args(1..=MOST_INTERFACES)
}

/// `live PORT PEER DIR SCRIPT IFACE..`, in which `live` stands for the program. There are no options.
pub fn command<'a>(alloc: Global) -> Result<Command<'a>, AllocError>
    ensures { IfOk result (λ command. app_of command ≡ live_command) }
{
    Command::new(alloc, "live")
        .disable_help_flag(true)
        .arg(place(alloc, PORT))?
        .arg(place(alloc, PEER))?
        .arg(path(alloc, FOLDER))?
        .arg(path(alloc, SCRIPT))?
        .arg(interfaces(alloc))
}
