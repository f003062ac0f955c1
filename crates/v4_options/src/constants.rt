//! The numbers that the definitions take from the code. The functions do nothing: their contracts hold each of them.

ghost use Rattle.std.specs.Prelude.{◌≡◌, [], ◌∷◌, filter, length, true};
ghost use Rattle.std.specs.List.{list_all};
ghost use Rattle.v4_options.specs.OptionTable.{is_kept, option_rows};

use crate::code::{
    BROADCAST_ADDRESS, CLASSLESS_ROUTES, CLIENT_IDENTIFIER, DOMAIN_NAME, DOMAIN_NAME_SERVERS,
    DOMAIN_SEARCH, END, HOST_NAME, INTERFACE_MTU, LEASE_TIME, MAXIMUM_MESSAGE_SIZE, MESSAGE_TYPE,
    NTP_SERVERS, OVERLOAD, PAD, PARAMETER_REQUEST_LIST, REBINDING_TIME, RENEWAL_TIME,
    REQUESTED_ADDRESS, ROUTERS, SERVER_IDENTIFIER, SUBNET_MASK, VENDOR_CLASS,
};
use crate::overload::{BOTH, FILE, SNAME};
use crate::table::{KEPT_CODES, OPTIONS};

/// Law: the codes of options are those of RFC 2132, RFC 3397 and RFC 3442, and the values of option 52 those of RFC
/// 2132, section 9.3.
pub fn codes_are_those_assigned()
    ensures pad { PAD ≡ 0 }
    ensures subnet_mask { SUBNET_MASK ≡ 1 }
    ensures routers { ROUTERS ≡ 3 }
    ensures domain_name_servers { DOMAIN_NAME_SERVERS ≡ 6 }
    ensures host_name { HOST_NAME ≡ 12 }
    ensures domain_name { DOMAIN_NAME ≡ 15 }
    ensures interface_mtu { INTERFACE_MTU ≡ 26 }
    ensures broadcast_address { BROADCAST_ADDRESS ≡ 28 }
    ensures ntp_servers { NTP_SERVERS ≡ 42 }
    ensures requested_address { REQUESTED_ADDRESS ≡ 50 }
    ensures lease_time { LEASE_TIME ≡ 51 }
    ensures overload { OVERLOAD ≡ 52 }
    ensures message_type { MESSAGE_TYPE ≡ 53 }
    ensures server_identifier { SERVER_IDENTIFIER ≡ 54 }
    ensures parameter_request_list { PARAMETER_REQUEST_LIST ≡ 55 }
    ensures maximum_message_size { MAXIMUM_MESSAGE_SIZE ≡ 57 }
    ensures renewal_time { RENEWAL_TIME ≡ 58 }
    ensures rebinding_time { REBINDING_TIME ≡ 59 }
    ensures vendor_class { VENDOR_CLASS ≡ 60 }
    ensures client_identifier { CLIENT_IDENTIFIER ≡ 61 }
    ensures domain_search { DOMAIN_SEARCH ≡ 119 }
    ensures classless_routes { CLASSLESS_ROUTES ≡ 121 }
    ensures end { END ≡ 255 }
    ensures file { FILE ≡ 1 }
    ensures sname { SNAME ≡ 2 }
    ensures both { BOTH ≡ 3 }
{}

/// Law: the table of options, and the codes of the values that a lease keeps, are these; the codes are those of the rows
/// that say so.
pub fn options_are_these()
    ensures options { OPTIONS ≡ option_rows }
    ensures codes { KEPT_CODES ≡ 3 ∷ 6 ∷ 12 ∷ 15 ∷ 26 ∷ 28 ∷ 42 ∷ 119 ∷ 121 ∷ [] }
    ensures kept { list_all is_kept KEPT_CODES ≡ true }
    ensures all { length (filter (λ row. row.kept) OPTIONS) ≡ length KEPT_CODES }
{}
