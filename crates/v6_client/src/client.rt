//! The client: its calls, each a step of the table.

ghost use Rattle.std.specs.Prelude.{◌≡◌, ◌≤◌, length, true, option_map, IfOk, IfSome, OnErr, OnOk};
ghost use Rattle.net_types.specs.Moments.{IsMoment};
ghost use Rattle.machine.specs.Moment.{moment_of};
ghost use Rattle.v6_message.specs.Shown.{message_shown};
ghost use Rattle.net_types.specs.NameText.{FitsName};
ghost use Rattle.lease6_text.specs.Bounds.{FitsLease6};
ghost use Rattle.lease6_text.specs.Leases.{lease6_content};
ghost use Rattle.v6_items.specs.Bounds.{FitsAsks};
ghost use Rattle.v6_client.specs.Answers as answers;
ghost use Rattle.v6_client.specs.Calls as calls;
ghost use Rattle.v6_client.specs.Clients.{client_made, held_of, plea_content, turn_of};
ghost use Rattle.v6_items.specs.Items as own;
ghost use Rattle.v6_client.specs.Moves.{IsStep6, declining_now, given_up, lapsed, missing, out_content};
ghost use Rattle.v6_client.specs.declared.states.Carrier6.TheVariants.{Up};
ghost use Rattle.v6_client.specs.Rests.{IsQuietAnswer, Ticks, tick_rests};
ghost use Rattle.v6_client.specs.Settings.{settings_content};
ghost use Rattle.v6_client.specs.Times.{FitsTurn};

use crate::answers::{
    awaited, chosen, has_bytes, is_awaited, is_from, reply_answer, sol_max_with, takes_offers,
    takes_replies,
};
use crate::hearing::{heard_row, is_kept_offer};
use crate::holding::{holds, is_at_end, is_declining, is_off, is_restarting, met_scope, scope_of};
use crate::inputs::{begin_row, duplicate_row, off_row, rebind_row, release_row};
use crate::leases::{Leases6, Plea6};
use crate::saying::spoken_by;
use crate::setup::{Set6, Site6};
use crate::states::{Answer6, Carrier6, News6, State6, Step6, Tell6};
use crate::ticking::{due_row, tick_row};
use crate::turn::Turn6;
use lease6_text::Lease6;
use machine::{Machine, clamp_moment, has_come};
use net_types::{Ip6, NoMemory};
use std::alloc::Global;
use std::marker::Model;
use v6_items::{
    Cause6, Dates6, IaAsk, Meeting6, Parting6, Scope6, dates_of, ias_of, ias_offered,
    lease_granted, parting_of, serves,
};
use v6_message::{Msg6, Said6, ServerKind6};
use v6_options::Duid;
use v6_retrans::parameters::SOL_MAX_RT;

/// What a step says.
#[derive(Drop)]
pub struct Out6 {
    /// A message that is to be sent.
    pub say: Option<Said6>,
    /// What has become of the items.
    pub news: News6,
    /// The lease that was held before, where the news is of it.
    pub old: Option<Lease6>,
}

impl Out6 {
    /// Nothing is said.
    fn quiet() -> Out6
        ensures { IsQuietAnswer (Ok result) }
    {
        Out6 {
            say: None,
            news: News6::Nothing,
            old: None,
        }
    }
}

/// The DHCPv6 client of one interface. After a call that wanted memory it isn't used again.
#[derive(Drop)]
pub struct Client6 {
    alloc: Global,
    set: Set6,
    /// The transaction id of the last exchange.
    last: Option<u32>,
    /// The longest time between two SOLICITs, in milliseconds.
    sol_max: u64,
    state: State6,
    leases: Leases6,
    /// Whether it neither began nor was turned off: the kept lease is the one that was read at the start.
    fresh: bool,
}

impl Model for Client6 {
    ghost use Rattle.v6_client.specs.Clients.{ClientContent, client_content};
    ghost use Rattle.v6_client.specs.Sound.{IsSound};

    ghost Value = { ClientContent };

    ghost view = { λ c. client_content c.set c.last c.sol_max c.state c.leases c.fresh };

    ghost invariant = { λ c. IsSound (client_content c.set c.last c.sol_max c.state c.leases c.fresh) };
}

impl Client6 {
    /// What the table looks at beside the state.
    fn turn(&self, at: u64, salt: u64) -> Turn6
        requires { IsMoment at }
        ensures value { result ≡ turn_of at salt self.now }
        ensures fits { FitsTurn result }
    {
        Turn6 {
            site: Site6 {
                iface: self.set.iface,
                flags: self.set.flags,
                rapid: self.set.rapid,
            },
            last: self.last,
            sol_max: self.sol_max,
            at,
            salt,
        }
    }

    fn dates(&self) -> Dates6
        ensures { result ≡ calls.dates_in self.now }
    {
        dates_of(scope_of(self.state), &self.leases.kept, &self.set.ias)
    }

    /// What goes of the items in a scope, and what stays.
    fn parting(&self, cause: Cause6, scope: Scope6) -> Parting6
        ensures { result ≡ own.parting_of cause scope (own.ias_of self.now.kept) self.now.settings.asks }
    {
        parting_of(cause, scope, ias_of(&self.leases.kept), &self.set.ias)
    }

    /// Goes a step of the table. `fresh` is the lease that a Reply grants.
    fn go(&mut self, step: Step6, fresh: Option<Lease6>) -> Result<Out6, NoMemory>
        requires { IfSome (option_map lease6_content fresh) FitsLease6 }
        ensures { IfOk result
            (λ out. IsStep6 step (option_map lease6_content fresh) self.old self.new (out_content out)) }
    {
        let say = match step.say {
            Some(say) => Some(spoken_by(
                self.alloc,
                self.set.rapid,
                scope_of(step.state),
                &self.leases,
                &self.set.ias,
                say,
            )?),
            None => None,
        };
        let old = self.leases.go(self.alloc, holds(self.state), step, fresh)?;
        self.state = step.state;
        self.last = step.last;
        self.fresh = self.fresh && !step.spends;
        Ok(Out6 {
            say,
            news: step.news,
            old,
        })
    }

    /// Held items whose valid lifetime is over go.
    fn lapse(&mut self, at: u64, parting: Parting6) -> Result<(), NoMemory>
        ensures { OnOk result (self.new ≡ lapsed at parting self.old) }
    {
        if holds(self.state) && parting.goes && !is_at_end(at, self.state) {
            self.leases.lapse(self.alloc, at, parting)?;
        }
        Ok(())
    }

    /// A held address is declined.
    fn decline(&mut self, address: Ip6) -> Result<(), NoMemory>
        ensures { OnOk result (self.new ≡ declining_now address self.old) }
    {
        self.leases.decline(
            self.alloc,
            Cause6::Duplicate(address),
            is_declining(self.state),
            &self.set.ias,
        )?;
        Ok(())
    }

    /// A held address of a restart isn't asked for again.
    fn miss(&mut self, address: Ip6, parting: Parting6) -> Result<(), NoMemory>
        ensures { OnOk result (self.new ≡ missing address parting self.old) }
    {
        self.leases
            .leave(self.alloc, Cause6::Duplicate(address), parting)?;
        Ok(())
    }

    /// A held address goes.
    fn give_up(&mut self, address: Ip6, parting: Parting6) -> Result<(), NoMemory>
        ensures { OnOk result (self.new ≡ given_up address parting self.old) }
    {
        if !holds(self.state) || !parting.goes {
            return Ok(());
        }
        if is_restarting(self.state) {
            return self.miss(address, parting);
        }
        self.decline(address)
    }

    /// Whether the client stands on the lease that was read, where it begins. `parting` is of the items that are valid.
    fn stands_by(&self, parting: Parting6) -> bool
        ensures { result ≡ calls.stands_by parting self.now }
    {
        is_off(self.state)
            && self.fresh
            && self.set.flags.persistent
            && self.leases.has_origin()
            && parting.stays
    }

    /// A client that stands keeps the items alone that it asks for again.
    fn prune(&mut self, at: u64, stands: bool) -> Result<(), NoMemory>
        ensures { OnOk result (self.new ≡ calls.pruned at stands self.old) }
    {
        if stands {
            self.leases.prune(self.alloc, at, &self.set.ias)?;
        }
        Ok(())
    }

    /// A client that is off begins.
    fn begin(&mut self, at: u64, salt: u64) -> Result<Out6, NoMemory>
        requires { IsMoment at }
        ensures { IfOk result (λ out. calls.IsCarried Up at salt self.old self.new (out_content out)) }
    {
        let parting = self.parting(Cause6::Lapse(at), Scope6::All);
        let stands = self.stands_by(parting);
        let step = begin_row(self.turn(at, salt), stands, parting, self.state);
        self.prune(at, stands)?;
        self.go(step, None)
    }

    /// Whether a message counts.
    fn counts(&self, message: &Msg6) -> bool
        ensures { result ≡ answers.counts self.now (message_shown message.now) }
    {
        let chosen = chosen(
            self.state,
            self.leases.leased_by(),
            self.leases.pleaded_with(),
        );
        is_awaited(awaited(self.last, self.state), message.xid)
            && has_bytes(message.client, self.set.duid.as_slice())
            && is_from(chosen, message.server)
    }

    /// Learns what a server tells.
    fn learn(&mut self, told: Option<u32>)
        ensures { self.new ≡ answers.learnt told self.old }
    {
        self.sol_max = sol_max_with(told, self.sol_max);
    }

    /// What an Advertise says.
    fn advertise_answer(&self, message: &Msg6) -> Answer6
        ensures { result ≡ answers.advertise_answer self.now (message_shown message.now) }
    {
        if takes_offers(self.state) && serves(&self.set.ias, message) {
            return Answer6::Offer {
                preference: message.preference,
            };
        }
        Answer6::Nothing
    }

    /// An offer that the client keeps is what it asks for.
    fn advertised(&mut self, answer: Answer6, message: &Msg6) -> Result<(), NoMemory>
        ensures { OnOk result (self.new ≡ answers.advertised answer (message_shown message.now) self.old) }
    {
        if is_kept_offer(answer, self.state) {
            self.leases.plea = plea_offered(self.alloc, &self.set.ias, message)?;
        }
        Ok(())
    }

    /// Hears an Advertise that counts.
    fn hear_advertise(&mut self, message: &Msg6, at: u64, salt: u64) -> Result<Out6, NoMemory>
        requires { IsMoment at }
        ensures { IfOk result
            (λ out. calls.Advertises at salt (message_shown message.now) self.old self.new (out_content out)) }
    {
        let answer = self.advertise_answer(message);
        let step = heard_row(self.turn(at, salt), answer, self.state);
        self.advertised(answer, message)?;
        self.go(step, None)
    }

    fn is_taken(&self, message: &Msg6) -> bool
        ensures { result ≡ answers.is_taken self.now (message_shown message.now) }
    {
        takes_replies(message.rapid && self.set.rapid, self.state) && serves(&self.set.ias, message)
    }

    /// The lease that a Reply grants, where it is taken.
    fn fresh_lease(&self, message: &Msg6, at: u64, taken: bool) -> Result<Option<Lease6>, NoMemory>
        requires { IsMoment at }
        ensures lease { IfOk result
            (λ fresh. option_map lease6_content fresh
            ≡ answers.fresh_of at taken self.now (message_shown message.now)) }
        ensures fits { IfOk result (λ fresh. IfSome (option_map lease6_content fresh) FitsLease6) }
    {
        if !taken {
            return Ok(None);
        }
        let Some(server) = server_of(self.alloc, message)? else {
            return Ok(None);
        };
        let meeting = Meeting6 {
            at,
            scope: met_scope(self.state),
            kept: &self.leases.kept,
            message,
        };
        lease_granted(self.alloc, self.set.iface, server, meeting, &self.set.ias)
    }

    /// Hears a Reply that counts.
    fn hear_reply(&mut self, message: &Msg6, at: u64, salt: u64) -> Result<Out6, NoMemory>
        requires { IsMoment at }
        ensures { IfOk result
            (λ out. calls.Replies at salt (message_shown message.now) self.old self.new (out_content out)) }
    {
        let taken = self.is_taken(message);
        let fresh = self.fresh_lease(message, at, taken)?;
        let declining = is_declining(self.state);
        let answer = reply_answer(declining, taken, &self.leases.kept, &fresh);
        let step = heard_row(self.turn(at, salt), answer, self.state);
        self.go(step, fresh)
    }
}

impl Client6 {
    /// Hears a message that counts.
    fn hear(&mut self, message: &Msg6, at: u64, salt: u64) -> Result<Out6, NoMemory>
        requires { IsMoment at }
        ensures { IfOk result
            (λ out. calls.IsAnswered at salt (message_shown message.now) message.now.kind self.old self.new
            (out_content out)) }
    {
        match message.kind {
            ServerKind6::Advertise => self.hear_advertise(message, at, salt),
            ServerKind6::Reply => self.hear_reply(message, at, salt),
        }
    }
}

/// The server of a message, where it is told by a DUID.
fn server_of(alloc: Global, message: &Msg6) -> Result<Option<Duid>, NoMemory>
    ensures { IfOk result
        (λ server. option_map (λ d. d.bytes.items) server ≡ answers.server_of (message_shown message.now)) }
{
    match message.server {
        Some(server) => Duid::new(alloc, server),
        None => Ok(None),
    }
}

/// What a server offers.
fn plea_offered(alloc: Global, asks: &[IaAsk], message: &Msg6) -> Result<Option<Plea6>, NoMemory>
    requires { length asks.now ≤ 6 }
    ensures { IfOk result
        (λ plea. option_map plea_content plea
        ≡ option_map (answers.plea_offered asks.now (message_shown message.now))
        (answers.server_of (message_shown message.now))) }
{
    let Some(server) = server_of(alloc, message)? else {
        return Ok(None);
    };
    let ias = ias_offered(alloc, message.options, asks)?;
    Ok(Some(Plea6 { server, ias }))
}

/// A client that is off, with the lease that was kept before.
pub fn client6_new(alloc: Global, set: Set6, kept: Option<Lease6>) -> Client6
    requires name { FitsName set.iface.name }
    requires asks { FitsAsks set.ias.items }
    requires kept { IfSome (option_map lease6_content kept) FitsLease6 }
    ensures { result ≡ client_made (settings_content set) (option_map lease6_content kept) }
{
    Client6 {
        alloc,
        set,
        last: None,
        sol_max: SOL_MAX_RT,
        state: State6::Off,
        leases: Leases6 { kept, plea: None },
        fresh: true,
    }
}

impl Machine for Client6 {
    type Out = Result<Out6, NoMemory>;

    ghost due_of = { λ c. calls.due_of c };

    ghost ticks = { Ticks };

    ghost is_quiet = { IsQuietAnswer };

    ghost rests = { tick_rests };

    fn due(&self) -> Option<u64> {
        due_row(self.dates(), self.state)
    }

    fn tick(&mut self, at: u64, salt: u64) -> Result<Out6, NoMemory> {
        let at = clamp_moment(at);
        if !has_come(self.due(), at) {
            return Ok(Out6::quiet());
        }
        let parting = self.parting(Cause6::Lapse(at), scope_of(self.state));
        let step = tick_row(self.turn(at, salt), self.dates(), parting, self.state);
        self.lapse(at, parting)?;
        self.go(step, None)
    }
}

/// Hears a message. Memory is wanted only for one that counts; any other changes nothing.
pub fn heard6(c: &mut Client6, message: &Msg6, at: u64, salt: u64) -> Result<Out6, NoMemory>
    ensures memory { OnErr result (answers.counts c.old (message_shown message.now) ≡ true) }
    ensures step { IfOk result
        (λ out. calls.Hears (moment_of at) salt (message_shown message.now) c.old c.new (out_content out)) }
{
    let at = clamp_moment(at);
    if !c.counts(message) {
        return Ok(Out6::quiet());
    }
    c.learn(message.sol_max);
    c.hear(message, at, salt)
}

/// The carrier comes or goes.
pub fn carrier6(c: &mut Client6, carrier: Carrier6, at: u64, salt: u64) -> Result<Out6, NoMemory>
    ensures { IfOk result (λ out. calls.IsCarried carrier (moment_of at) salt c.old c.new (out_content out)) }
{
    let at = clamp_moment(at);
    match carrier {
        Carrier6::Up => c.begin(at, salt),
        Carrier6::Down => c.go(off_row(c.turn(at, salt)), None),
    }
}

/// Another host uses an address.
pub fn duplicate6(c: &mut Client6, address: Ip6, at: u64, salt: u64) -> Result<Out6, NoMemory>
    ensures { IfOk result (λ out. calls.IsContested address (moment_of at) salt c.old c.new (out_content out)) }
{
    let turn = c.turn(clamp_moment(at), salt);
    let parting = c.parting(Cause6::Duplicate(address), scope_of(c.state));
    let step = duplicate_row(turn, parting, c.state);
    c.give_up(address, parting)?;
    c.go(step, None)
}

/// The client stops; where items are held, `tell` says whether their server is told.
pub fn release6(c: &mut Client6, tell: Tell6, at: u64, salt: u64) -> Result<Out6, NoMemory>
    ensures { IfOk result
        (λ out. IsStep6 (calls.release_step tell (moment_of at) salt c.old) None c.old c.new (out_content out)) }
{
    let turn = c.turn(clamp_moment(at), salt);
    let step = release_row(turn, tell, c.leases.is_kept(), c.state);
    c.go(step, None)
}

/// Held items are to be rebound at once; a client that is off begins.
pub fn rebind6(c: &mut Client6, at: u64, salt: u64) -> Result<Out6, NoMemory>
    ensures { IfOk result
        (λ out. IsStep6 (calls.rebind_step (moment_of at) salt c.old) None c.old c.new (out_content out)) }
{
    let at = clamp_moment(at);
    let turn = c.turn(at, salt);
    let parting = c.parting(Cause6::Lapse(at), Scope6::All);
    let step = rebind_row(turn, parting, c.state);
    c.go(step, None)
}

/// The DUID that the client says, and that messages to it name.
pub fn duid6(c: &Client6) -> &Duid
    ensures { result.now.bytes.items ≡ c.now.settings.duid }
{
    &c.set.duid
}

/// The lease that is held.
pub fn held6(c: &Client6) -> Option<&Lease6>
    ensures value { option_map (λ lease. lease6_content lease.now) result ≡ held_of c.now }
    ensures fits { IfSome (option_map (λ lease. lease6_content lease.now) result) FitsLease6 }
{
    if holds(c.state) {
        return c.leases.kept.as_ref();
    }
    None
}

/// The lease that is kept for the next start.
pub fn kept6(c: &Client6) -> Option<&Lease6>
    ensures value { option_map (λ lease. lease6_content lease.now) result ≡ c.now.kept }
    ensures fits { IfSome (option_map (λ lease. lease6_content lease.now) result) FitsLease6 }
{
    c.leases.kept.as_ref()
}
