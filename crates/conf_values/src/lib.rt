//! The values that arguments of a configuration spell (dhcpcd.conf(5)): words and their lists, texts, variables of
//! hooks, nets, names of interfaces, and what tells a client apart.
#![tactic(auto)]

mod constants;
mod identifiers;
mod nets;
mod patterns;
mod texts;
mod words;

pub use constants::bounds_of_values;
pub use identifiers::identifier;
pub use nets::own_net;
pub use patterns::Pattern;
pub use texts::{
    Env, TEXT_LIMIT, domain_name, domain_names, domain_text, printed, printed_text, variable,
};
pub use words::{
    Word, all_of, all_options, argument_texts, members_of, one_or_more, only, slash_parts,
};
