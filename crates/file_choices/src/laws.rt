//! What a crash may leave of the files. This function does nothing: its contract is the law.

ghost use Rattle.file_choices.specs.LeftWhole.{CallsInTurnLeaveChoices, OnlyGivenIsLeft, SparedIsUntouched, CallsInTurnStayWhole};

/// Law: after each front of calls in their turn, whatever they are answered and whether or not it is told which of them
/// fail, a crash leaves of each file one of its choices by those calls, and each of these may be left. They are at most
/// two where no call failed since a settling that left the file as it reads. A file that isn't kept stays.
pub fn calls_in_turn_leave_whole_files()
    ensures choices { CallsInTurnLeaveChoices }
    ensures given { OnlyGivenIsLeft }
    ensures spared { SparedIsUntouched }
    ensures whole { CallsInTurnStayWhole }
{}
