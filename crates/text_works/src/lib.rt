//! The works that read the whole of an input, make a text of it and write that, and what these stand on: the reading, the
//! heads of transcripts, the writing, and how a work can end.
#![tactic(auto)]

mod auditing;
mod checking;
mod dumping;
mod explaining;
mod heads;
mod importing;
mod input;
mod labs;
mod laws;
mod settling;
mod status;
mod working;
mod writing;

pub use auditing::audit_transcript;
pub use checking::check;
pub use dumping::dump_lease;
pub use explaining::explain_transcript;
pub use heads::Start;
pub use importing::import_capture;
pub use input::read_all;
pub use labs::lab;
pub use laws::labs_hold_apart;
pub use settling::{Settled, read_configuration, settle, settle_script};
pub use status::Status;
pub use writing::{begin_life, write_head, write_live_head, write_text};
