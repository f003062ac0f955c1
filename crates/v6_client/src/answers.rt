//! What a server's message says to a client.

ghost use Rattle.std.specs.Prelude.{◌≡◌, ◌≤◌, IfSome, IfOk};
ghost use Rattle.std.specs.Option.{option_map};
ghost use Rattle.v6_message.specs.Shown.{message_shown};
ghost use Rattle.lease6_text.specs.Leases.{lease6_content};
ghost use Rattle.v6_client.specs.Answers as answers;

use crate::states::{Answer6, State6};
use lease6_text::Lease6;
use v6_items::SECOND;
use v6_options::Duid;

/// The least seconds that a server may tell as the longest time between two SOLICITs, and the most (RFC 8415, section
/// 21.24).
pub const LEAST_SOL_MAX: u32 = 60;

/// The most seconds, beside `LEAST_SOL_MAX`.
pub const MOST_SOL_MAX: u32 = 86_400;

/// The transaction id of the exchange whose answer counts.
pub(crate) fn awaited(last: Option<u32>, state: State6) -> Option<u32>
    ensures { result ≡ answers.awaited last state }
{
    match state {
        State6::Off | State6::Waiting { .. } => None,
        State6::Soliciting { exchange, .. }
        | State6::Requesting { exchange }
        | State6::Renewing { exchange }
        | State6::Rebinding { exchange }
        | State6::Restarting { exchange, .. }
        | State6::Declining { exchange } => Some(exchange.xid),
        State6::Bound => last,
    }
}

pub(crate) fn is_awaited(awaited: Option<u32>, xid: u32) -> bool
    ensures { result ≡ answers.is_awaited awaited xid }
{
    match awaited {
        Some(awaited) => awaited == xid,
        None => false,
    }
}

/// Whether the bytes are those that a message tells.
pub fn has_bytes(told: Option<&[u8]>, bytes: &[u8]) -> bool
    ensures { result ≡ answers.has_bytes (option_map (λ v. v.now) told.entry) bytes.now }
{
    match told {
        Some(told) => told == bytes,
        None => false,
    }
}

/// Whether the bytes are a DUID's (RFC 8415, section 11.1).
pub fn is_duid(bytes: &[u8]) -> bool
    ensures { result ≡ answers.is_duid bytes.now }
{
    Duid::LEN_MIN <= bytes.len() && bytes.len() <= Duid::LEN_MAX
}

/// Whether a message is of a server that may answer: of the chosen one, where one is.
pub(crate) fn is_from(chosen: Option<&[u8]>, server: Option<&[u8]>) -> bool
    ensures { result ≡ answers.is_from (option_map (λ v. v.now) chosen.entry) (option_map (λ v. v.now) server.entry) }
{
    let Some(server) = server else {
        return false;
    };
    match chosen {
        Some(chosen) => is_duid(server) && server == chosen,
        None => is_duid(server),
    }
}

/// The server that alone may answer: that of the lease, or the one that is asked.
pub(crate) fn chosen<'a>(
    state: State6,
    leased: Option<&'a [u8]>,
    pleaded: Option<&'a [u8]>,
) -> Option<&'a [u8]>
    ensures { option_map (λ v. v.now) result
        ≡ answers.chosen state (option_map (λ v. v.now) leased.entry) (option_map (λ v. v.now) pleaded.entry) }
{
    match state {
        State6::Requesting { .. } | State6::Declining { .. } => pleaded,
        State6::Renewing { .. } => leased,
        State6::Off
        | State6::Waiting { .. }
        | State6::Soliciting { .. }
        | State6::Bound
        | State6::Rebinding { .. }
        | State6::Restarting { .. } => None,
    }
}

/// The longest time between two SOLICITs in milliseconds, where a server tells it.
pub(crate) fn sol_max_with(told: Option<u32>, before: u64) -> u64
    ensures { result ≡ answers.sol_max_with told before }
{
    match told {
        Some(seconds) if LEAST_SOL_MAX <= seconds && seconds <= MOST_SOL_MAX => {
            SECOND * u64::from(seconds)
        }
        _ => before,
    }
}

/// Whether an Advertise is waited for.
pub(crate) fn takes_offers(state: State6) -> bool
    ensures { result ≡ answers.takes_offers state }
{
    match state {
        State6::Soliciting { .. } => true,
        State6::Off
        | State6::Waiting { .. }
        | State6::Requesting { .. }
        | State6::Bound
        | State6::Renewing { .. }
        | State6::Rebinding { .. }
        | State6::Restarting { .. }
        | State6::Declining { .. } => false,
    }
}

/// Whether the items of a Reply are waited for. `rapid` says whether it may answer a SOLICIT.
pub(crate) fn takes_replies(rapid: bool, state: State6) -> bool
    ensures { result ≡ answers.takes_replies rapid state }
{
    match state {
        State6::Soliciting { .. } => rapid,
        State6::Requesting { .. }
        | State6::Renewing { .. }
        | State6::Rebinding { .. }
        | State6::Restarting { .. } => true,
        State6::Off | State6::Waiting { .. } | State6::Bound | State6::Declining { .. } => false,
    }
}

/// What a Reply says, which grants `fresh` where it is taken.
pub(crate) fn reply_answer(
    declining: bool,
    taken: bool,
    kept: &Option<Lease6>,
    fresh: &Option<Lease6>,
) -> Answer6
    ensures { result
        ≡ answers.reply_answer declining taken (option_map lease6_content kept.now)
        (option_map lease6_content fresh.now) }
{
    if declining {
        return match kept {
            Some(_) => Answer6::Keeps,
            None => Answer6::Empties,
        };
    }
    if !taken {
        return Answer6::Nothing;
    }
    match fresh {
        Some(_) => Answer6::Grants,
        None => Answer6::Empties,
    }
}
