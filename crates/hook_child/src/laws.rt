//! Laws on calls of a supervisor, one after another. These functions do nothing: their contracts are the laws.
ghost use Rattle.hook_child.specs.HistoryLaws.{AbandonOnTime, CountPuts, DropWhereFull, FewWait, FirstInFirstOut, OneChild, RunOn, StartOnce};

/// Jobs start in the order in which they were put. They are dropped exactly where 1,024 wait, and never do more wait.
pub fn jobs_start_in_order()
    ensures order { FirstInFirstOut }
    ensures dropped { DropWhereFull }
    ensures room { FewWait }
{}

/// Jobs are numbered 1, 2, 3 and so on as they are put, dropped ones included, and none starts twice: for up to 2^64 -
/// 1 calls.
pub fn jobs_are_numbered()
    ensures numbers { CountPuts }
    ensures once { StartOnce }
{}

/// One child runs at a time: between two starts a child ended, was abandoned or couldn't be started. Until then it is
/// the child of the job that was started last, and a poll abandons it exactly from 60,000 ms after that start on.
pub fn one_child_runs()
    ensures one { OneChild }
    ensures runs { RunOn }
    ensures abandoned { AbandonOnTime }
{}
