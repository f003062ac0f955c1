//! What a client does when the carrier comes, a send fails, or the host wishes it.

ghost use Rattle.std.specs.Prelude.{◌≡◌, IfSome};
ghost use Rattle.net_types.specs.Moments.{IsMoment};
ghost use Rattle.v4_client.specs.Inputs as inputs;
ghost use Rattle.v4_client.specs.Sound.{FitsState};

use crate::moments::{Backoff, SECOND, expiry};
use crate::saying::release;
use crate::states::{Keep4, News4, State4, Step4, Tell, Turn4};
use crate::steps::{goes_to, new_exchange, new_xid, rebinding, rebooting, rests, stops, to_init};
use arp_acd::acd_unsent;
use lease_text::Terms4;
use machine::has_come;

/// The terms of the kept lease, where the client stands on it from now on.
fn stood(turn: Turn4, may_stand: bool, terms: Terms4) -> Option<Terms4>
    ensures { result ≡ inputs.stood turn may_stand terms }
{
    if turn.site.flags.persistent && may_stand && terms.origin.is_some() {
        Some(terms)
    } else {
        None
    }
}

/// Where the client goes as it begins, with the terms of the kept lease.
fn entered(turn: Turn4, may_stand: bool, kept: Option<Terms4>) -> Step4
    requires at { IsMoment turn.at }
    requires first { IfSome kept (λ terms. IsMoment terms.first) }
    ensures { result ≡ inputs.entered turn may_stand kept }
{
    let Some(terms) = kept else {
        return to_init(turn);
    };
    // it is expired, or there is no time to ask for it
    if has_come(expiry(terms), turn.at) || turn.site.times.reboot == 0 {
        return to_init(turn);
    }
    // REQUEST for its address
    let end = turn.at + SECOND * u64::from(turn.site.times.reboot);
    rebooting(
        turn,
        new_exchange(turn, terms.net.ip),
        Backoff::Four,
        end,
        stood(turn, may_stand, terms),
    )
}

/// The client begins, with the terms of the kept lease. At the first one alone it may stand on that.
fn begins(turn: Turn4, may_stand: bool, kept: Option<Terms4>) -> Step4
    requires at { IsMoment turn.at }
    requires first { IfSome kept (λ terms. IsMoment terms.first) }
    ensures { result ≡ inputs.begins turn may_stand kept }
{
    Step4 {
        spends: true,
        ..entered(turn, may_stand, kept)
    }
}

/// The carrier comes.
pub(crate) fn begin_row(turn: Turn4, may_stand: bool, kept: Option<Terms4>, state: State4) -> Step4
    requires at { IsMoment turn.at }
    requires first { IfSome kept (λ terms. IsMoment terms.first) }
    ensures { result ≡ inputs.begin_row turn may_stand kept state }
{
    match state {
        State4::Off => begins(turn, may_stand, kept),
        State4::Init { .. }
        | State4::Selecting { .. }
        | State4::Requesting { .. }
        | State4::Rebooting { .. }
        | State4::Checking { .. }
        | State4::Waiting { .. }
        | State4::Bound { .. }
        | State4::Renewing { .. }
        | State4::Rebinding { .. } => rests(turn, state),
    }
}

/// The carrier goes.
pub(crate) fn off_row(turn: Turn4) -> Step4
    ensures { result ≡ inputs.off_row turn }
{
    stops(turn)
}

/// The lease that is held isn't held any more.
fn released(turn: Turn4, tell: Tell, terms: Terms4) -> Step4
    ensures { result ≡ inputs.released turn tell terms }
{
    match tell {
        // RELEASE with a new xid
        Tell::Server => {
            let xid = new_xid(turn);
            Step4 {
                keep: Keep4::Clears,
                say: Some(release(turn.site, terms, xid)),
                news: News4::Stop,
                spends: true,
                ..goes_to(State4::Off, Some(xid))
            }
        }
        Tell::Nobody => Step4 {
            news: News4::Stop,
            ..stops(turn)
        },
    }
}

/// The kept lease on which the client stands isn't held any more.
fn released_standing(turn: Turn4, tell: Tell, stands: Option<Terms4>) -> Step4
    ensures { result ≡ inputs.released_standing turn tell stands }
{
    match stands {
        Some(terms) => released(turn, tell, terms),
        None => stops(turn),
    }
}

/// The client stops.
pub(crate) fn release_row(turn: Turn4, tell: Tell, state: State4) -> Step4
    ensures { result ≡ inputs.release_row turn tell state }
{
    match state {
        // a lease is held
        State4::Bound { terms, .. }
        | State4::Renewing { terms, .. }
        | State4::Rebinding { terms, .. } => released(turn, tell, terms),
        // the kept one may be held meanwhile
        State4::Rebooting { stands, .. } | State4::Checking { stands, .. } => {
            released_standing(turn, tell, stands)
        }
        State4::Off
        | State4::Init { .. }
        | State4::Selecting { .. }
        | State4::Requesting { .. }
        | State4::Waiting { .. } => stops(turn),
    }
}

/// The lease is to be rebound at once.
pub(crate) fn rebind_row(turn: Turn4, kept: Option<Terms4>, state: State4) -> Step4
    requires at { IsMoment turn.at }
    requires first { IfSome kept (λ terms. IsMoment terms.first) }
    requires fits { FitsState state }
    ensures { result ≡ inputs.rebind_row turn kept state }
{
    match state {
        // the client begins; it was released before, so that it stands on no lease
        State4::Off => begins(turn, false, kept),
        // REQUEST to everyone
        State4::Bound { terms, acd, .. } | State4::Renewing { terms, acd, .. } => {
            rebinding(turn, new_exchange(turn, terms.net.ip), terms, acd)
        }
        State4::Init { .. }
        | State4::Selecting { .. }
        | State4::Requesting { .. }
        | State4::Rebooting { .. }
        | State4::Checking { .. }
        | State4::Waiting { .. }
        | State4::Rebinding { .. } => rests(turn, state),
    }
}

/// A frame of the interface couldn't be sent, which may have been a probe.
pub(crate) fn unsent_row(turn: Turn4, state: State4) -> State4
    requires { IsMoment turn.at }
    ensures { result ≡ inputs.unsent_row turn state }
{
    match state {
        State4::Checking {
            xid,
            terms,
            origin,
            mut acd,
            stands,
        } => {
            acd_unsent(&mut acd, turn.at, turn.salt);
            State4::Checking {
                xid,
                terms,
                origin,
                acd,
                stands,
            }
        }
        State4::Off
        | State4::Init { .. }
        | State4::Selecting { .. }
        | State4::Requesting { .. }
        | State4::Rebooting { .. }
        | State4::Waiting { .. }
        | State4::Bound { .. }
        | State4::Renewing { .. }
        | State4::Rebinding { .. } => state,
    }
}
