//! The numbers that the definitions take from the code. The function does nothing: its contract holds each of them.

ghost use Rattle.std.specs.Prelude.{◌≡◌};

use crate::parameters::{DECLINE, REBIND, RENEW, REQUEST, SOL_MAX_RT, SOLICIT};

/// Law: messages are said again by the parameters of RFC 8415, section 7.6, in milliseconds.
pub fn parameters_are_those_of_rfc_8415()
    ensures sol_max_rt { SOL_MAX_RT ≡ 3600000 }
    ensures solicit_irt { SOLICIT.irt ≡ 1000 }
    ensures solicit_mrt { SOLICIT.mrt ≡ 3600000 }
    ensures solicit_mrc { SOLICIT.mrc ≡ 0 }
    ensures request_irt { REQUEST.irt ≡ 1000 }
    ensures request_mrt { REQUEST.mrt ≡ 30000 }
    ensures request_mrc { REQUEST.mrc ≡ 10 }
    ensures renew_irt { RENEW.irt ≡ 10000 }
    ensures renew_mrt { RENEW.mrt ≡ 600000 }
    ensures renew_mrc { RENEW.mrc ≡ 0 }
    ensures rebind_irt { REBIND.irt ≡ 10000 }
    ensures rebind_mrt { REBIND.mrt ≡ 600000 }
    ensures rebind_mrc { REBIND.mrc ≡ 0 }
    ensures decline_irt { DECLINE.irt ≡ 1000 }
    ensures decline_mrt { DECLINE.mrt ≡ 0 }
    ensures decline_mrc { DECLINE.mrc ≡ 4 }
{}
