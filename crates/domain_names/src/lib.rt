//! Domain names (RFC 1035): as a text, and compressed as in the search list of RFC 3397.
#![tactic(auto)]

mod compressed;
mod label;
mod laws;
mod search;
mod text;

pub use laws::name_law;
pub use search::{is_search, search_of};
pub use text::{is_name, is_text, text_of};
