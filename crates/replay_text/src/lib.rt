//! Scripts and their texts.
#![tactic(auto)]

mod faults;
mod laws;
mod line_numbers;
mod reading;
mod so_far;
mod unlike;

pub use faults::{ScriptAnswer, ScriptCause, ScriptFault};
pub use laws::{faults_are_one, scripts_are_one};
pub use line_numbers::line_feeds;
pub use reading::read_script;
pub use script_lines::{
    CrashLine, FileLine, LifeLines, Script, TurnLine, begin_of, moment_field_of, salt_field_of,
    spec_of, switch_of,
};
pub use unlike::Interfaces;
