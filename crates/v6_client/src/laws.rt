//! What is true of every client. These functions do nothing: their contracts are the laws.

ghost use Rattle.v6_client.specs.QuietLaws.{AllRunsTell, BeginsTell, DuplicatesTell, MessagesTell, RebindsTell, ReleasesTell, TicksTell};
ghost use Rattle.v6_client.specs.RunLaws.{CarriersRun, DuplicatesRun, MessagesRun, RebindsRun, ReleasesRun, StepsRun, TicksRun, TicksWait};
ghost use Rattle.v6_client.specs.RunsStay.{SettingsStay};

/// Law: what a call makes of a client, and what it says, is a function of the client (specs/Runs).
pub fn calls_run6()
    ensures steps { StepsRun }
    ensures ticks { TicksRun }
    ensures waits { TicksWait }
    ensures messages { MessagesRun }
    ensures carriers { CarriersRun }
    ensures duplicates { DuplicatesRun }
    ensures releases { ReleasesRun }
    ensures rebinds { RebindsRun }
{}

/// Law: no call changes the settings.
pub fn keeps_settings6()
    ensures { SettingsStay }
{}

/// Law: where a call has no news, the lease that is kept and the one that is held are as before. The carrier's loss is
/// no such call: then none is held.
pub fn quiet_steps_keep6()
    ensures ticks { TicksTell }
    ensures messages { MessagesTell }
    ensures duplicates { DuplicatesTell }
    ensures begins { BeginsTell }
    ensures rebinds { RebindsTell }
    ensures releases { ReleasesTell }
    ensures runs { AllRunsTell }
{}
