//! These functions do nothing: their contracts are the laws.
ghost use Rattle.safe_texts.specs.SafeJobs.{LifeJobsAreSafe, OpeningJobsAreSafe, TurnJobsAreSafe};
ghost use Rattle.safe_texts.specs.SafeVariables.{MadeVariablesAreSafe};
ghost use Rattle.safe_texts.specs.ExactVariables.{ExactVariablesAreSafe, MadeVariablesAreExact};
ghost use Rattle.safe_texts.specs.ConfiguredTexts.{ConfiguredLivesAreLives, ConfiguredTextsAreSafe, VariablesArePrintable};
ghost use Rattle.safe_texts.specs.SafeCalls.{LivesTellSafely};
ghost use Rattle.safe_texts.specs.ResolverLines.{WantedLinesAreSafe, WrittenLinesAreSafe};

/// Law of hook jobs: what is made of an event has no control character and no byte past ASCII, and each value is of the
/// form that its name tells, whatever servers sent. So it is of every job of an opening and of a turn, and of each job
/// that a life starts or drops: what is configured for the interface stands behind that, and its script is the one that
/// is configured.
pub fn job_variables_are_safe()
    ensures made { MadeVariablesAreSafe }
    ensures opening { OpeningJobsAreSafe }
    ensures turn { TurnJobsAreSafe }
    ensures life { LifeJobsAreSafe }
{}

/// Law of a hook's job: where the lease that is held has a text, as each has that is granted or read, or an address and
/// its length are such, each value that is made of an event is what its form says: an address reads as one, a number is
/// below its limit (a length of 32, an MTU of 65,535, a time or metric of 32 bits), a name is one, and a reason is one
/// of those of dhcpcd-run-hooks(8). That is more than the law above says of every event.
pub fn job_variables_are_exact()
    ensures exact { MadeVariablesAreExact }
    ensures safe { ExactVariablesAreSafe }
{}

/// Law of the resolver's file: over every life it is to be lines of names to search in and of addresses, and nothing
/// else; and so is each text that is written to take its place.
pub fn resolver_lines_are_safe()
    ensures wanted { WantedLinesAreSafe }
    ensures written { WrittenLinesAreSafe }
{}

/// Law of what is configured: the variables that `env` adds to a job and the path of `script` are printable, and each
/// name server is an address, of each interface that a configuration manages. So in every life of these interfaces each
/// variable of a job is printable, and what the resolver is told is lines.
pub fn configured_lives_are_safe()
    ensures texts { ConfiguredTextsAreSafe }
    ensures variables { VariablesArePrintable }
    ensures lives { ConfiguredLivesAreLives }
{}

/// Law of a life up to any moment, whatever its calls were answered: each job that it started or dropped is safe, as
/// above. Where what is configured is printable so is each variable, and where the name servers are addresses and
/// frames are bytes each text that was written to take the place of the resolver's file is lines.
pub fn unfinished_lives_are_safe()
    ensures { LivesTellSafely }
{}
