//! Lists of interfaces: whether their names and hardware addresses are unlike.
#![tactic(auto)]

mod unlike;

pub use unlike::all_unlike;
