//! The client: its calls, each a step of the table.

ghost use Rattle.std.specs.Prelude.{◌≡◌, true, option_map, IfOk, IfSome, OnErr, OnOk};
ghost use Rattle.net_types.specs.Moments.{IsMoment};
ghost use Rattle.machine.specs.Moment.{moment_of};
ghost use Rattle.net_types.specs.NameText.{FitsName};
ghost use Rattle.lease_text.specs.Bounds.{FitsLease};
ghost use Rattle.lease_text.specs.Leases.{lease_content};
ghost use Rattle.v4_message.specs.Requests.{AskFits, ask_content};
ghost use Rattle.v4_client.specs.Answers.{answer_of};
ghost use Rattle.v4_client.specs.Awaited.{is_awaited};
ghost use Rattle.v4_client.specs.Calls.{Hears, answer_to, arp_step, carrier_step, rebind_step, release_step, unsent_step};
ghost use Rattle.v4_client.specs.Clients.{client_made, held_of, kept_terms, out_content, turn_of};
ghost use Rattle.v4_client.specs.Moves.{IsStep4, is_grant, takes_room, with_values};
ghost use Rattle.v4_client.specs.Granting.{kept_values};
ghost use Rattle.v4_client.specs.Messages.{arrival_from, arrival_of};
ghost use Rattle.v4_client.specs.Rests.{IsQuietAnswer, Ticks, tick_rests};
ghost use Rattle.v4_client.specs.Settings.{settings_content};
ghost use Rattle.v4_client.specs.Sound.{IsSoundStep};
ghost use Rattle.v4_client.specs.Due.{due_of};
ghost use Rattle.v4_options.specs.OptionViews.{view_instances};

use crate::answers::{Arrival4, answer_of};
use crate::hearing::{arp_row, heard_row};
use crate::inputs::{begin_row, off_row, rebind_row, release_row, unsent_row};
use crate::leases::{Leases4, is_held};
use crate::options::kept_values;
use crate::setup::{Set4, Site4};
use crate::states::{Answer4, Carrier, News4, Say4, State4, Step4, Tell, Turn4};
use crate::ticking::{due_of, tick_row};
use arp_acd::ArpSay;
use frame_link::ArpView;
use lease_text::{Lease4, Terms4};
use machine::{Machine, clamp_moment, has_come};
use net_types::{Mac, NoMemory};
use std::alloc::Global;
use std::marker::Model;
use v4_message::{Ask4, Msg4};
use v4_options::OptionView;

/// What a step says.
#[derive(Drop)]
pub struct Out4 {
    /// A message that is to be sent.
    pub say: Option<Say4>,
    /// An ARP message that is to be sent.
    pub arp: Option<ArpSay>,
    /// What has become of the lease.
    pub news: News4,
    /// The lease that was held before, where the news is of it.
    pub old: Option<Lease4>,
}

/// The DHCPv4 client of one interface. After a call that wanted memory it isn't used again.
#[derive(Drop)]
pub struct Client4 {
    alloc: Global,
    set: Set4,
    /// The transaction id of the last exchange.
    last: Option<u32>,
    state: State4,
    /// Whether it may still stand on the lease with which it was made: it didn't begin yet, nor was it released.
    may_stand: bool,
    leases: Leases4,
}

impl Model for Client4 {
    ghost use Rattle.v4_client.specs.Clients.{ClientContent, client_content};
    ghost use Rattle.v4_client.specs.Sound.{IsSound};

    ghost Value = { ClientContent };

    ghost view = { λ c. client_content c.set c.last c.state c.may_stand c.leases.kept c.leases.fresh.items };

    ghost invariant = { λ c. IsSound
        (client_content c.set c.last c.state c.may_stand c.leases.kept c.leases.fresh.items) };
}

impl Client4 {
    /// What the table looks at beside the state.
    fn turn(&self, at: u64, salt: u64) -> Turn4
        ensures { result ≡ turn_of at salt self.now }
    {
        Turn4 {
            site: Site4 {
                iface: self.set.iface,
                flags: self.set.flags,
                times: self.set.times,
            },
            last: self.last,
            at,
            salt,
        }
    }

    /// The terms of the kept lease.
    fn kept_terms(&self) -> Option<Terms4>
        ensures value { result ≡ kept_terms self.now }
        ensures first { IfSome result (λ terms. IsMoment terms.first) }
    {
        match &self.leases.kept {
            Some(lease) => Some(lease.terms()),
            None => None,
        }
    }

    /// Goes a step of the table.
    fn go(&mut self, step: Step4) -> Result<Out4, NoMemory>
        requires { IsSoundStep (kept_terms self.old) self.old.state step }
        ensures memory { OnErr result (takes_room step self.old ≡ true) }
        ensures step { IfOk result (λ out. IsStep4 step self.old self.new (out_content out)) }
    {
        let old = self
            .leases
            .keep(self.alloc, self.set.iface.name, self.state, &step)?;
        self.state = step.state;
        self.last = step.last;
        if step.spends {
            self.may_stand = false;
        }
        Ok(Out4 {
            say: step.say,
            arp: step.arp,
            news: step.news,
            old,
        })
    }

    /// What the message says in the state.
    fn answer_to(&self, arrival: &Arrival4) -> Answer4
        ensures { result ≡ answer_to (arrival_of arrival.now) self.now }
    {
        answer_of(&self.set, arrival, self.state)
    }

    /// Takes the values that come with an acceptable ACK.
    fn bring(&mut self, answer: Answer4, options: &OptionView) -> Result<(), NoMemory>
        ensures memory { OnErr result (is_grant answer ≡ true) }
        ensures values { OnOk result
            (self.new
            ≡ with_values answer
            (kept_values self.old.settings.refused (view_instances options.now)) self.old) }
    {
        match answer {
            Answer4::Ack(_) => {
                self.leases.fresh = kept_values(self.alloc, options, &self.set.refused)?;
                Ok(())
            }
            Answer4::Nothing | Answer4::Offer { .. } | Answer4::Nak => Ok(()),
        }
    }
}

/// A client that is off, with the lease that was kept before.
pub fn client4_new(alloc: Global, set: Set4, kept: Option<Lease4>) -> Client4
    requires name { FitsName set.iface.name }
    requires ask { AskFits (ask_content set.ask) }
    requires kept { IfSome (option_map lease_content kept) FitsLease }
    ensures { result ≡ client_made (settings_content set) (option_map lease_content kept) }
{
    Client4 {
        alloc,
        set,
        last: None,
        state: State4::Off,
        may_stand: true,
        leases: Leases4 {
            kept,
            fresh: Vec::new(alloc),
        },
    }
}

impl Machine for Client4 {
    type Out = Result<Out4, NoMemory>;

    ghost due_of = { λ c. due_of c.state };

    ghost ticks = { Ticks };

    ghost is_quiet = { IsQuietAnswer };

    ghost rests = { tick_rests };

    fn due(&self) -> Option<u64> {
        due_of(self.state)
    }

    fn tick(&mut self, at: u64, salt: u64) -> Result<Out4, NoMemory> {
        let at = clamp_moment(at);
        if !has_come(self.due(), at) {
            return Ok(Out4 {
                say: None,
                arp: None,
                news: News4::Nothing,
                old: None,
            });
        }
        let step = tick_row(self.turn(at, salt), self.state);
        self.go(step)
    }
}

/// Hears a message whose frame came from the hardware address `from`. Memory is wanted only for an ACK that is taken,
/// which is an answer that is waited for; what is not acceptable changes nothing.
pub fn heard4(c: &mut Client4, msg: &Msg4, from: Mac, at: u64, salt: u64) -> Result<Out4, NoMemory>
    ensures memory { OnErr result
        (is_grant (answer_of c.old.settings (arrival_from from (moment_of at) msg.now) c.old.state) ≡ true) }
    ensures awaited { OnErr result
        (is_awaited c.old.settings (arrival_from from (moment_of at) msg.now) c.old.state ≡ true) }
    ensures step { IfOk result
        (λ out. Hears salt (arrival_from from (moment_of at) msg.now) c.old c.new (out_content out)) }
{
    let arrival = Arrival4 {
        message: *msg,
        source: from,
        at: clamp_moment(at),
    };
    let answer = c.answer_to(&arrival);
    let step = heard_row(c.turn(arrival.at, salt), answer, c.state);
    c.bring(answer, &msg.options)?;
    c.go(step)
}

/// Hears an ARP packet. `own` holds the hardware addresses of all interfaces of the host's client.
pub fn heard_arp4(
    c: &mut Client4,
    arp: &ArpView,
    at: u64,
    salt: u64,
    own: &[Mac],
) -> Result<Out4, NoMemory>
    ensures memory { OnErr result (takes_room (arp_step own.now (moment_of at) salt arp.now c.old) c.old ≡ true) }
    ensures step { IfOk result
        (λ out. IsStep4 (arp_step own.now (moment_of at) salt arp.now c.old) c.old c.new (out_content out)) }
{
    let turn = c.turn(clamp_moment(at), salt);
    let step = arp_row(own, turn, arp, c.state);
    c.go(step)
}

/// A frame of the interface couldn't be sent in the turn before: the probing of a checked address begins anew.
pub fn unsent4(c: &mut Client4, at: u64, salt: u64)
    ensures { c.new ≡ unsent_step (moment_of at) salt c.old }
{
    let turn = c.turn(clamp_moment(at), salt);
    c.state = unsent_row(turn, c.state);
}

/// The carrier comes or goes.
pub fn carrier4(c: &mut Client4, carrier: Carrier, at: u64, salt: u64) -> Result<Out4, NoMemory>
    ensures memory { OnErr result (takes_room (carrier_step carrier (moment_of at) salt c.old) c.old ≡ true) }
    ensures step { IfOk result
        (λ out. IsStep4 (carrier_step carrier (moment_of at) salt c.old) c.old c.new (out_content out)) }
{
    let turn = c.turn(clamp_moment(at), salt);
    let step = match carrier {
        Carrier::Up => begin_row(turn, c.may_stand, c.kept_terms(), c.state),
        Carrier::Down => off_row(turn),
    };
    c.go(step)
}

/// The client stops; where a lease is held, `tell` says whether its server is told.
pub fn release4(c: &mut Client4, tell: Tell, at: u64, salt: u64) -> Result<Out4, NoMemory>
    ensures memory { OnErr result (takes_room (release_step tell (moment_of at) salt c.old) c.old ≡ true) }
    ensures step { IfOk result
        (λ out. IsStep4 (release_step tell (moment_of at) salt c.old) c.old c.new (out_content out)) }
{
    let turn = c.turn(clamp_moment(at), salt);
    let step = release_row(turn, tell, c.state);
    c.go(step)
}

/// The lease is to be rebound at once; a client that is off begins.
pub fn rebind4(c: &mut Client4, at: u64, salt: u64) -> Result<Out4, NoMemory>
    ensures memory { OnErr result (takes_room (rebind_step (moment_of at) salt c.old) c.old ≡ true) }
    ensures step { IfOk result (λ out. IsStep4 (rebind_step (moment_of at) salt c.old) c.old c.new (out_content out)) }
{
    let turn = c.turn(clamp_moment(at), salt);
    let step = rebind_row(turn, c.kept_terms(), c.state);
    c.go(step)
}

/// The lease that is held.
pub fn held4(c: &Client4) -> Option<&Lease4>
    ensures value { option_map (λ lease. lease_content lease.now) result ≡ held_of c.now }
    ensures fits { IfSome (option_map (λ lease. lease_content lease.now) result) FitsLease }
{
    if !is_held(c.state) {
        return None;
    }
    c.leases.kept.as_ref()
}

/// The lease that is kept for the next start.
pub fn kept4(c: &Client4) -> Option<&Lease4>
    ensures value { option_map (λ lease. lease_content lease.now) result ≡ c.now.kept }
    ensures fits { IfSome (option_map (λ lease. lease_content lease.now) result) FitsLease }
{
    c.leases.kept.as_ref()
}

/// What the client says of itself in its messages.
pub fn ask4(c: &Client4) -> &Ask4
    ensures value { ask_content result.now ≡ c.now.settings.ask }
    ensures fits { AskFits (ask_content result.now) }
{
    &c.set.ask
}
