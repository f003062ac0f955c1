//! Laws of audits by a test of addresses: what is kept line by line tells the verdict on a transcript, which has one
//! at most, and the lines of a life show what the life showed.

ghost use Rattle.audit_model.specs.Laws.{AuditsTell, VerdictsAreOne, VerdictsAreSaid};
ghost use Rattle.audit_model.specs.LivesTold.{LivesAreToldSo};

/// Law: where a test says of each address whether it has its basis, what is kept line by line of a transcript is at the
/// end its verdict: all addresses that are shown on managed interfaces have their basis, or this one is the first, by
/// life, turn and row order, that has none.
pub fn audits_tell_verdicts()
    ensures told { AuditsTell }
    ensures text { VerdictsAreSaid }
{}

/// Law: a transcript has one verdict at most.
pub fn verdicts_are_one()
    ensures { VerdictsAreOne }
{}

/// Law: the lines of a life that was lived show what it showed: its entries, what its opening read, the rows that its
/// calls of the host gave, and whether one of these failed in the last turn.
pub fn lives_are_told_so()
    ensures { LivesAreToldSo }
{}
