//! What the devices in memory share: records of their calls, the numbers of the calls that fail, and copies that may want
//! memory.
#![tactic(auto)]

mod record;

pub use record::{
    Numbers, accept, copy_bytes, copy_text, enter, fill_front, make_room, next_fails, next_number,
    refuse,
};
