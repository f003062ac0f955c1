//! Why the files that a life keeps can be relied on: the law that each is whole at every moment of a life, wherever it
//! is cut off.
#![tactic(auto)]

mod laws;

pub use laws::a_life_leaves_whole_files;
