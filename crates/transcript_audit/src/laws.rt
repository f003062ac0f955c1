//! The law on verdicts. This function does nothing: its contract is the law.

ghost use Rattle.transcript_audit.specs.Laws.{AVerdictIsOne};

use iface_judge::all_addresses_are_told;
use transcript_read::a_text_is_one_transcript;

/// Law: a text has one verdict at most, and none where it has a bad line; and it has one first bad line.
pub fn a_verdict_is_one()
    ensures { AVerdictIsOne }
{
    a_text_is_one_transcript();
    all_addresses_are_told();
}
