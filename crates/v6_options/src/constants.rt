//! The numbers that the definitions take from the code. The function does nothing: its contract holds each of them.

ghost use Rattle.std.specs.Prelude.{◌≡◌};

use crate::code::{
    CLIENT_IDENTIFIER, DNS_SERVERS, DOMAIN_LIST, ELAPSED_TIME, IA_ADDRESS, IA_NA, IA_PD, IA_PREFIX,
    OPTION_REQUEST, PREFERENCE, RAPID_COMMIT, SERVER_IDENTIFIER, SOL_MAX_RT, STATUS_CODE,
};

/// Law: the codes of options are those of RFC 8415, section 24, and RFC 3646.
pub fn codes_are_those_assigned()
    ensures client_identifier { CLIENT_IDENTIFIER ≡ 1 }
    ensures server_identifier { SERVER_IDENTIFIER ≡ 2 }
    ensures ia_na { IA_NA ≡ 3 }
    ensures ia_address { IA_ADDRESS ≡ 5 }
    ensures option_request { OPTION_REQUEST ≡ 6 }
    ensures preference { PREFERENCE ≡ 7 }
    ensures elapsed_time { ELAPSED_TIME ≡ 8 }
    ensures status_code { STATUS_CODE ≡ 13 }
    ensures rapid_commit { RAPID_COMMIT ≡ 14 }
    ensures dns_servers { DNS_SERVERS ≡ 23 }
    ensures domain_list { DOMAIN_LIST ≡ 24 }
    ensures ia_pd { IA_PD ≡ 25 }
    ensures ia_prefix { IA_PREFIX ≡ 26 }
    ensures sol_max_rt { SOL_MAX_RT ≡ 82 }
{}
