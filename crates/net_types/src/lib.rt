//! Addresses, interfaces and the faults that every layer shares.
#![tactic(auto)]

mod address;
mod address_text;
mod appending;
mod cutting;
mod fault;
mod fields;
mod hexadecimal;
mod interface;
mod ip6_text;
mod laws;
mod memory;
mod moment;
mod name_text;
mod networks;
mod number;
mod printing;
mod sum;
mod text_lines;

pub use address::{Ip4, Ip6, Mac, Net, Net4, Net6};
pub use address_text::{ip4_of, mac_of, net4_of, read_ip4, read_mac, read_net4};
pub use appending::{append_bytes, append_hex, append_ip4, append_mac, append_net4, append_number};
pub use cutting::{FromText, end_of, list_of, split_at_byte, strip_word};
pub use fault::{BadText, Failed, NoMemory};
pub use fields::{
    field, ip4_field, ip6_field, mac_field, u16_field, u16_octets, u32_field, u32_octets,
};
pub use hexadecimal::{hex_byte_of, hex_of};
pub use interface::{IfIndex, IfSpec, Name};
pub use ip6_text::{ip6_of, net6_of, printed_ip6_of, printed_net6_of, read_ip6, read_net6};
pub use laws::{ip6_texts_spell_one, networks_share_a_prefix};
pub use moment::{MOMENT_LIMIT, moments_have_fifteen_digits};
pub use name_text::{name_of, read_name};
pub use number::{number_of, u8_of, u64_of};
pub use printing::{Hex, append_text, print_ip4, print_ip6};
pub use sum::Sum;
pub use sum::calls::{sum_add, sum_is_right, sum_new, sum_value};
pub use text_lines::{LineFault, LineState, TextFault, read_lines};
