//! The law that the turn that goes on, and the addresses that are shown, change with each line as in the life of
//! which an auditor is to keep account.

ghost use Rattle.audit_turns.specs.Laws.{GoesOnAsLived};

/// Law: what goes on changes with each line of a turn as the life does of which an auditor is to keep account.
pub fn what_goes_on_is_the_lifes()
    ensures { GoesOnAsLived }
{}
