//! Why what devices hold can be relied on: the laws that a host which tells its rows, and a store which tells its files,
//! hold what they shall in every life, whatever is answered.
#![tactic(auto)]

mod laws;

pub use laws::{a_host_holds_what_is_wanted, a_store_holds_what_is_kept};
