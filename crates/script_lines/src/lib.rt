//! A script, and what its lines say, one by one.
#![tactic(auto)]

mod carriers;
mod clock;
mod crashing;
mod files;
mod lines;
mod polls;
mod script;
mod words;

pub use carriers::begin_of;
pub use clock::Clock;
pub use crashing::crash_of;
pub use files::file_of;
pub use lines::{fail_of, moment_field_of, salt_field_of, spec_of, switch_of, turn_of};
pub use polls::poll_of;
pub use script::{CrashLine, FileLine, LifeLines, Script, TurnLine};
pub use words::{Word, is_text, word_of};
