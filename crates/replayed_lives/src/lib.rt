//! The work that replays a script: the devices in memory of each life, its lives one after another, and the transcript
//! that they make; and what holds of all scripts.
#![tactic(auto)]

mod laws;
mod lives;
mod memory;
mod replaying;

pub use laws::hooks_change_nothing;
pub use replaying::{replay, write_transcript};
pub use text_works::{
    Settled, Start, Status, audit_transcript, check, dump_lease, explain_transcript,
    import_capture, lab, labs_hold_apart, read_all, read_configuration, settle_script,
    write_live_head, write_text,
};
