//! What one line of a configuration says (dhcpcd.conf(5)).
//!
//! `heading_named` and `directive_named` tell a line by its first word. `interface_said` reads which interface a block
//! is of, `directive_said` a directive with its arguments. What a line says holds by itself: that it repeats another
//! one, or that there are too many of its kind, isn't judged here.
#![tactic(auto)]

mod constants;
mod laws;
mod names;
mod option_words;
mod reading;
mod shares;
mod statics;
mod valued;
mod values;

pub use constants::bounds_of_arguments;
pub use laws::{codes_fit, identifiers_fit, lengths_fit, lines_say_one_thing};
pub use names::{
    CodeList, DirectiveName, FlagName, HeadingName, InterfaceList, SecondsName, ValueName,
    directive_named, heading_named,
};
pub use reading::{directive_said, interface_said};
pub use values::{CodesSaid, Directive, IaLine, Identifier, LineSaid, ShareLine, StaticValue};
