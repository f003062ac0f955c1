//! What a life is: its opening, its turns and its end, each a program of questions to devices. Definitions, and the
//! laws about them.
#![tactic(auto)]

mod laws;

pub use laws::{
    a_life_holds_the_wanted_rows, a_life_keeps_its_files, a_life_leaves_files_in_order,
    hooks_change_nothing, interfaces_begin_with_their_own_leases,
    unlike_interfaces_are_named_apart,
};
