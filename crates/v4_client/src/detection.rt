//! What conflict detection says of an address that is checked or held.

ghost use Rattle.std.specs.Prelude.{◌≡◌};
ghost use Rattle.net_types.specs.Moments.{IsMoment};
ghost use Rattle.v4_client.specs.Detection as detection;

use crate::states::{Origin4, State4, Step4, Turn4};
use crate::steps::{binds, bound_news, declines, gives_up, rests, standing_news};
use arp_acd::{Acd, AcdSays, ArpSay};
use lease_text::Terms4;

/// Of an address that is checked.
pub(crate) fn checked(
    turn: Turn4,
    xid: u32,
    terms: Terms4,
    origin: Origin4,
    acd: Acd,
    stands: Option<Terms4>,
    says: AcdSays,
) -> Step4
    requires { IsMoment turn.at }
    ensures { result ≡ detection.checked turn xid terms origin acd stands says }
{
    let stays = rests(
        turn,
        State4::Checking {
            xid,
            terms,
            origin,
            acd,
            stands,
        },
    );
    match says {
        // a probe is said
        AcdSays::SayProbe => Step4 {
            arp: Some(ArpSay::Probe(terms.net.ip)),
            ..stays
        },
        // it has passed: it is bound and announced
        AcdSays::Passed => Step4 {
            arp: Some(ArpSay::Announce(terms.net.ip)),
            ..binds(turn, xid, terms, bound_news(origin), Some(acd))
        },
        // another host has it
        AcdSays::Conflict => declines(turn, xid, terms, standing_news(stands)),
        AcdSays::Quiet | AcdSays::SayAnnounce | AcdSays::GivenUp => stays,
    }
}

/// The state with the conflict detection of a held address.
pub(crate) fn with_acd(state: State4, acd: Acd) -> State4
    ensures { result ≡ detection.with_acd state acd }
{
    match state {
        State4::Bound { xid, terms, .. } => State4::Bound {
            xid,
            terms,
            acd: Some(acd),
        },
        State4::Renewing {
            exchange,
            terms,
            due,
            ..
        } => State4::Renewing {
            exchange,
            terms,
            acd: Some(acd),
            due,
        },
        State4::Rebinding {
            exchange,
            terms,
            due,
            ..
        } => State4::Rebinding {
            exchange,
            terms,
            acd: Some(acd),
            due,
        },
        State4::Off
        | State4::Init { .. }
        | State4::Selecting { .. }
        | State4::Requesting { .. }
        | State4::Rebooting { .. }
        | State4::Checking { .. }
        | State4::Waiting { .. } => state,
    }
}

/// Of an address that is held.
pub(crate) fn defended(turn: Turn4, xid: u32, terms: Terms4, state: State4, says: AcdSays) -> Step4
    requires { IsMoment turn.at }
    ensures { result ≡ detection.defended turn xid terms state says }
{
    let stays = rests(turn, state);
    match says {
        // it is announced
        AcdSays::SayAnnounce => Step4 {
            arp: Some(ArpSay::Announce(terms.net.ip)),
            ..stays
        },
        // another host contests it
        AcdSays::GivenUp => gives_up(turn, xid, terms),
        AcdSays::Quiet | AcdSays::SayProbe | AcdSays::Passed | AcdSays::Conflict => stays,
    }
}
