//! The options of a DHCPv4 message (RFC 2132): the areas that hold them, the value of a code over all
//! its instances (RFC 3396), the readers of each form of value, and the table of those that have a name.
#![tactic(auto)]

mod area;
pub mod code;
mod constants;
mod form;
mod instances;
mod laws;
mod numbers;
mod overload;
mod routes;
mod table;
mod view;

pub use area::{Front, front_at};
pub use constants::{codes_are_those_assigned, options_are_these};
pub use domain_names::{is_search, is_text, search_of, text_of};
pub use form::{ValueForm, is_well_formed};
pub use instances::{Pieces, addr_at, byte_at, pieces_of, present, u32_at, value};
pub use laws::area_law;
pub use numbers::{addr_of, addrs_of, u16_of, u32_of};
pub use overload::Overload;
pub use routes::{ClasslessRoute, are_routes, routes_of};
pub use table::{KEPT_CODES, OPTIONS, OptionRow, code_named, form_of, is_kept, option_name};
pub use view::{Areas, Malformed, OptionView, options_of};
