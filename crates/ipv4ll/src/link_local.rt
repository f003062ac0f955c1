//! The state machine of an interface's IPv4 link-local address: it waits for a lease, chooses an address, has it
//! probed and defended, and chooses again after a conflict.

ghost use Rattle.std.specs.Prelude.{◌≡◌};
ghost use Rattle.machine.specs.Moment.{moment_of};
ghost use Rattle.ipv4ll.specs.Choice.{choice_of};
ghost use Rattle.ipv4ll.specs.Rests.{tick_rests};
ghost use Rattle.ipv4ll.specs.Table.{IsQuiet, IsStep, after_conflict, choosing, due_of, held_in, ll_armed, ll_hears, ll_restarts, ll_tick, news_after, off, said_row};

use arp_acd::timing::{MAX_CONFLICTS, RATE_LIMIT_INTERVAL};
use arp_acd::{Acd, AcdSays, ArpSay, acd_addr, acd_begin, acd_heard, acd_held, acd_unsent};
use frame_link::ArpView;
use machine::{Machine, clamp_moment, draw, has_come};
use net_types::{IfIndex, Ip4, Mac};

/// 169.254.1.0, the first address that a host may choose by itself (RFC 3927, section 2.1).
const FIRST_CHOICE: u32 = 0xa9fe_0100;
/// How many such addresses there are, up to 169.254.254.255.
const CHOICES: u32 = 254 * 256;
/// What an armed machine waits for until its moment.
#[derive(Clone, Copy, PartialEq, Eq)]
pub enum Waits {
    /// A lease: at the moment it is told that none came.
    ForLease,
    ForNothing,
}

/// What an armed machine does at its moment.
#[derive(Clone, Copy, PartialEq, Eq)]
pub enum Fallback {
    /// It chooses an address.
    Choose,
    GoOff,
}

/// Where the link-local address of an interface stands. Moments are in milliseconds, and conflicts are
/// counted since arming.
#[derive(Clone, Copy, PartialEq, Eq)]
pub enum State {
    Off,
    /// At `due` the wait is over, and `fallback` follows.
    Armed {
        due: u64,
        waits: Waits,
        fallback: Fallback,
    },
    /// An address is chosen; `acd` probes and defends it.
    Chosen {
        conflicts: u64,
        acd: Acd,
    },
    /// There were many conflicts: the next address is chosen at `due`.
    Waiting {
        conflicts: u64,
        due: u64,
    },
}

/// What has become of the link-local address.
#[derive(Clone, Copy, Debug, PartialEq, Eq)]
pub enum LlNews {
    Nothing,
    /// The time for a lease is over.
    Timeout,
    /// The address has passed its probes and is held.
    Gained,
    /// The address that was held is lost to another host.
    Lost(Ip4),
}

/// What a step of the link-local machine says.
#[derive(Clone, Copy, Debug, PartialEq, Eq)]
pub struct LlOut {
    pub arp: Option<ArpSay>,
    pub news: LlNews,
}

/// The link-local address of one interface (RFC 3927).
#[derive(Clone, Copy, PartialEq, Eq)]
pub struct LinkLocal {
    iface: IfIndex,
    state: State,
}

impl LlOut {
    const QUIET: LlOut = LlOut {
        arp: None,
        news: LlNews::Nothing,
    };

    fn new(arp: Option<ArpSay>, news: LlNews) -> LlOut
        ensures { result ≡ record { arp = arp; news = news } }
    {
        LlOut { arp, news }
    }
}

/// The machine of an interface, off.
pub fn ll_off(iface: IfIndex) -> LinkLocal
    ensures { result ≡ off iface }
{
    LinkLocal {
        iface,
        state: State::Off,
    }
}

/// Arms the machine where it is off. At `due`, in milliseconds, it tells that no lease came, where it waits for
/// one, and chooses an address or goes off.
pub fn ll_arm(ll: &mut LinkLocal, due: u64, waits: Waits, fallback: Fallback)
    ensures { ll.new ≡ ll_armed ll.old due waits fallback }
{
    match ll.state {
        State::Off => {
            ll.state = State::Armed {
                due,
                waits,
                fallback,
            };
        }
        State::Armed { .. } | State::Chosen { .. } | State::Waiting { .. } => {}
    }
}

impl Machine for LinkLocal {
    type Out = LlOut;

    ghost due_of = { λ ll. due_of ll.state };

    ghost ticks = { λ old at salt new out. IsStep (ll_tick old (moment_of at) salt) new out };

    ghost is_quiet = { IsQuiet };

    ghost rests = { tick_rests };

    fn due(&self) -> Option<u64> {
        match self.state {
            State::Off => None,
            State::Armed { due, .. } | State::Waiting { due, .. } => Some(due),
            State::Chosen { acd, .. } => acd.due(),
        }
    }

    fn tick(&mut self, at: u64, salt: u64) -> LlOut {
        if !has_come(self.due(), clamp_moment(at)) {
            return LlOut::QUIET;
        }
        match self.state {
            State::Off => LlOut::QUIET,
            // the time for a lease is over
            State::Armed {
                waits,
                fallback,
                ..
            } => {
                self.state = match fallback {
                    Fallback::Choose => choose(self.iface, 0, at, salt),
                    Fallback::GoOff => State::Off,
                };
                LlOut::new(None, news_after(waits))
            }
            State::Chosen { conflicts, mut acd } => {
                let says = acd.tick(at, salt);
                self.follow(conflicts, acd, at, salt, says)
            }
            // the minute after a late conflict is over
            State::Waiting { conflicts, .. } => {
                self.state = choose(self.iface, conflicts, at, salt);
                LlOut::QUIET
            }
        }
    }
}

impl LinkLocal {
    /// Goes on as conflict detection of the chosen address says.
    fn follow(&mut self, conflicts: u64, acd: Acd, at: u64, salt: u64, says: AcdSays) -> LlOut
        ensures { IsStep (said_row self.old.iface conflicts acd (moment_of at) salt says) self.new result }
    {
        let addr = acd_addr(&acd);
        self.state = match says {
            AcdSays::Quiet | AcdSays::SayProbe | AcdSays::SayAnnounce | AcdSays::Passed => {
                State::Chosen { conflicts, acd }
            }
            AcdSays::Conflict | AcdSays::GivenUp => {
                choose_again(self.iface, conflicts.saturating_add(1), at, salt)
            }
        };
        match says {
            AcdSays::Quiet | AcdSays::Conflict => LlOut::QUIET,
            AcdSays::SayProbe => LlOut::new(Some(ArpSay::Probe(addr)), LlNews::Nothing),
            AcdSays::SayAnnounce => LlOut::new(Some(ArpSay::Announce(addr)), LlNews::Nothing),
            AcdSays::Passed => LlOut::new(Some(ArpSay::Announce(addr)), LlNews::Gained),
            AcdSays::GivenUp => LlOut::new(None, LlNews::Lost(addr)),
        }
    }
}

/// What is told when the moment of an armed machine has come.
fn news_after(waits: Waits) -> LlNews
    ensures { result ≡ news_after waits }
{
    match waits {
        Waits::ForLease => LlNews::Timeout,
        Waits::ForNothing => LlNews::Nothing,
    }
}

/// Hears an ARP packet. `own` holds the hardware addresses of all interfaces of the client.
pub fn ll_heard(ll: &mut LinkLocal, arp: &ArpView, at: u64, salt: u64, own: &[Mac]) -> LlOut
    ensures { IsStep (ll_hears own.now ll.old arp.now (moment_of at) salt) ll.new result }
{
    match ll.state {
        State::Chosen { conflicts, mut acd } => {
            let says = acd_heard(&mut acd, arp, at, own);
            ll.follow(conflicts, acd, at, salt, says)
        }
        State::Off | State::Armed { .. } | State::Waiting { .. } => LlOut::QUIET,
    }
}

/// Begins the probing anew where a frame of the interface could not be sent.
pub fn ll_unsent(ll: &mut LinkLocal, at: u64, salt: u64)
    ensures { ll.new ≡ ll_restarts ll.old (moment_of at) salt }
{
    match ll.state {
        State::Chosen { conflicts, mut acd } => {
            acd_unsent(&mut acd, at, salt);
            ll.state = State::Chosen { conflicts, acd };
        }
        State::Off | State::Armed { .. } | State::Waiting { .. } => {}
    }
}

/// Turns the machine off, without news.
pub fn ll_drop(ll: &mut LinkLocal)
    ensures { ll.new ≡ off ll.old.iface }
{
    ll.state = State::Off;
}

/// The address that is held: it has passed its probes, and isn't lost.
pub fn ll_held(ll: &LinkLocal) -> Option<Ip4>
    ensures { result ≡ held_in ll.now.state }
{
    match ll.state {
        State::Chosen { acd, .. } => acd_held(&acd),
        State::Off | State::Armed { .. } | State::Waiting { .. } => None,
    }
}

/// The choice after a conflict, which is put off from the tenth one on (RFC 3927, section 2.2.1).
fn choose_again(iface: IfIndex, conflicts: u64, at: u64, salt: u64) -> State
    ensures { result ≡ after_conflict iface conflicts (moment_of at) salt }
{
    if conflicts < MAX_CONFLICTS {
        return choose(iface, conflicts, at, salt);
    }
    State::Waiting {
        conflicts,
        due: clamp_moment(at) + RATE_LIMIT_INTERVAL,
    }
}

/// Chooses an address and begins to probe it.
fn choose(iface: IfIndex, conflicts: u64, at: u64, salt: u64) -> State
    ensures { result ≡ choosing iface conflicts (moment_of at) salt }
{
    let addr = choice(iface, conflicts, salt);
    State::Chosen {
        conflicts,
        acd: acd_begin(iface, addr, at, salt),
    }
}

/// The address that is chosen after so many conflicts (RFC 3927, section 2.1).
fn choice(iface: IfIndex, conflicts: u64, salt: u64) -> Ip4
    ensures { result ≡ choice_of iface conflicts salt }
{
    let count = u64::from(CHOICES);
    let place = (u64::from(draw(salt, iface, CHOICES)) + conflicts % count) % count;
    Ip4 {
        number: FIRST_CHOICE + place as u32,
    }
}
