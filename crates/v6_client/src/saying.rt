//! The messages that a client says.

ghost use Rattle.std.specs.Prelude.{◌≡◌, ◌≤◌, length, map, option_map, IfOk};
ghost use Rattle.v6_message.specs.Requests.{asked_content};
ghost use Rattle.v6_client.specs.Clients.{kept_in, plea_content, plea_in};
ghost use Rattle.lease6_text.specs.Leases.{lease6_content};
ghost use Rattle.v6_client.specs.Saying as saying;

use crate::leases::{Leases6, Plea6, duid_copied};
use crate::states::Say6;
use lease6_text::Lease6;
use net_types::NoMemory;
use std::alloc::Global;
use v6_items::{
    IaAsk, Scope6, ias_asked, ias_copied, ias_declined, ias_of, ias_released, ias_solicited,
};
use v6_message::{IaAsked, Kind6, Said6};
use v6_options::Duid;

fn plea_ias(plea: &Option<Plea6>) -> &[IaAsked]
    ensures asked { map asked_content result.now ≡ saying.plea_ias (option_map plea_content plea.now) }
    ensures few { length result.now ≤ 6 }
{
    match plea {
        Some(plea) => &plea.ias,
        None => &[],
    }
}

/// The IAs that a message names. `scope` is the client's as it stands when it has said the message, and `stood` what a
/// server is asked that isn't asked for held items.
fn ias_said(
    alloc: Global,
    kind: Kind6,
    scope: Scope6,
    kept: &Option<Lease6>,
    stood: &[IaAsked],
    asks: &[IaAsk],
) -> Result<Vec<IaAsked>, NoMemory>
    ensures { IfOk result
        (λ ias. map asked_content ias.items
        ≡ saying.ias_said kind scope asks.now (option_map lease6_content kept.now) (map asked_content stood.now)) }
{
    match kind {
        Kind6::Solicit => ias_solicited(alloc, asks),
        Kind6::Request => ias_copied(alloc, stood),
        Kind6::Renew | Kind6::Rebind => ias_asked(alloc, scope, ias_of(kept), asks),
        Kind6::Release => ias_released(alloc, ias_of(kept), asks),
        Kind6::Decline => ias_declined(alloc, ias_of(kept), stood),
    }
}

fn lease_server(alloc: Global, kept: &Option<Lease6>) -> Result<Option<Duid>, NoMemory>
    ensures { IfOk result
        (λ server. option_map (λ server. server.bytes.items) server
        ≡ saying.lease_server (option_map lease6_content kept.now)) }
{
    match kept {
        Some(lease) => Ok(Some(duid_copied(alloc, &lease.server)?)),
        None => Ok(None),
    }
}

fn plea_server(alloc: Global, plea: &Option<Plea6>) -> Result<Option<Duid>, NoMemory>
    ensures { IfOk result
        (λ server. option_map (λ server. server.bytes.items) server
        ≡ saying.plea_server (option_map plea_content plea.now)) }
{
    match plea {
        Some(plea) => Ok(Some(duid_copied(alloc, &plea.server)?)),
        None => Ok(None),
    }
}

/// The server that is spoken to.
fn server_said(alloc: Global, kind: Kind6, leases: &Leases6) -> Result<Option<Duid>, NoMemory>
    ensures { IfOk result
        (λ server. option_map (λ server. server.bytes.items) server
        ≡ saying.server_said kind (kept_in leases.now) (plea_in leases.now)) }
{
    match kind {
        Kind6::Solicit | Kind6::Rebind => Ok(None),
        Kind6::Request | Kind6::Decline => plea_server(alloc, &leases.plea),
        Kind6::Renew | Kind6::Release => lease_server(alloc, &leases.kept),
    }
}

fn rapid_said(kind: Kind6, rapid: bool) -> bool
    ensures { result ≡ saying.rapid_said kind rapid }
{
    match kind {
        Kind6::Solicit => rapid,
        Kind6::Request | Kind6::Renew | Kind6::Rebind | Kind6::Release | Kind6::Decline => false,
    }
}

/// The message with all that it names.
pub(crate) fn spoken_by(
    alloc: Global,
    rapid: bool,
    scope: Scope6,
    leases: &Leases6,
    asks: &[IaAsk],
    say: Say6,
) -> Result<Said6, NoMemory>
    requires { length asks.now ≤ 6 }
    ensures { IfOk result
        (λ said. saying.spoken_content said
        ≡ saying.spoken_by rapid scope asks.now (kept_in leases.now) (plea_in leases.now) say) }
{
    let stood = plea_ias(&leases.plea);
    let ias = ias_said(alloc, say.kind, scope, &leases.kept, stood, asks)?;
    Ok(Said6 {
        kind: say.kind,
        xid: say.xid,
        elapsed: say.elapsed,
        server: server_said(alloc, say.kind, leases)?,
        rapid: rapid_said(say.kind, rapid),
        ias,
    })
}
