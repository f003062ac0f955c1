//! What tells that an address is one out of a prefix which another interface holds (RFC 3633, section 12.1).
#![tactic(auto)]

mod kept;
mod laws;
mod prefix;
mod sharing;

pub use kept::kept_shares;
pub use kept_judge::{Kept4, Kept6, Spoken6};
pub use laws::{
    kept_shares_are_told, listed_prefixes_tell_shares, shares_are_of_either, shares_are_told,
};
pub use prefix::HeldPrefix;
pub use sharing::{is_shared, shares_out};
