//! A test of how faults are printed that the program doesn't print.

use lease_file::{SaveFault, SaveStep};
use replay_text::{ScriptAnswer, ScriptCause, ScriptFault};
use std::fmt::InlineText;

/// A line that isn't of its form.
const FORM: ScriptFault = ScriptFault {
    line: 12,
    cause: ScriptCause::Form,
};

#[test]
fn faults_are_printed_by_name(rt: HostRuntime) {
    let failed = InlineText::<64>::of(SaveFault::Failed(SaveStep::Sync));
    let unsaved = InlineText::<64>::of(SaveFault::NoMemory);
    let bad = InlineText::<64>::of(ScriptAnswer::Bad(FORM));
    let unread = InlineText::<64>::of(ScriptAnswer::NoMemory);
    assert_eq!(rt;
        [
            failed.as_str(),
            unsaved.as_str(),
            bad.as_str(),
            unread.as_str()
        ],
        ["Failed", "NoMemory", "script line 12: Form", "NoMemory"]
    );
}
