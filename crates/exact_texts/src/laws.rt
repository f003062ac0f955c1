//! Laws of what hooks are given in a life. These functions do nothing: their contracts are the laws.
ghost use Rattle.exact_texts.specs.ExactCalls.{LivesTellExactly};
ghost use Rattle.exact_texts.specs.ExactJobs.{ConfiguredJobsAreExact, ForetoldJobsAreExact, LifeJobsAreExact};

/// Law of hook jobs: in every life of interfaces that fit, as those are that a configuration manages, each variable
/// that is made for a job is what its form says. So it is of each job that the life starts or drops, in its opening and
/// in each turn, whatever files said and whatever the devices answered, where the frames that came in are bytes. Behind
/// these variables stand those that are configured, and the script is the one that is configured. So it is too of the
/// life that devices foretell which tell what they hold.
pub fn lives_make_exact_variables()
    ensures lives { LifeJobsAreExact }
    ensures configured { ConfiguredJobsAreExact }
    ensures foretold { ForetoldJobsAreExact }
{}

/// Law of a life up to any moment, wherever it was cut off: what it told hooks and the resolver is safe to read, and
/// where the frames that came in are bytes each job that it started or dropped has such variables.
pub fn unfinished_lives_make_exact_variables()
    ensures { LivesTellExactly }
{}
