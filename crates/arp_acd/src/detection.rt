//! The timed state machine that probes whether an IPv4 address is free, announces it, and then defends it or gives it
//! up where another host uses it (RFC 5227).

ghost use Rattle.std.specs.Prelude.{◌≡◌, ◌^◌, ◌<◌};
ghost use Rattle.machine.specs.Moment.{moment_of};
ghost use Rattle.arp_acd.specs.Table.{IsQuiet, IsStep, acd_begun, acd_hears, acd_restarts, acd_tick, contested_row, due_after, due_of, held_in, probing_anew};
ghost use Rattle.arp_acd.specs.Rests.{tick_rests};

use crate::foreign::{is_contested, is_used};
use crate::timing::{
    ANNOUNCE_INTERVAL, ANNOUNCE_WAIT, DEFEND_INTERVAL, PROBE_MAX, PROBE_MIN, PROBE_NUM, PROBE_WAIT,
};
use frame_link::ArpView;
use machine::{Machine, clamp_moment, draw, has_come};
use net_types::{IfIndex, Ip4, Mac};

/// Where a conflict detection stands. Moments are in milliseconds.
#[derive(Clone, Copy, PartialEq, Eq)]
pub enum Phase {
    /// So many probes were sent; what follows is due at `due`.
    Probing {
        sent: u8,
        due: u64,
    },
    /// The address has passed and was announced once; the second announcement is due at `due`.
    Announcing {
        due: u64,
        last_conflict: Option<u64>,
    },
    /// The address was announced twice. A conflict over it came last at `last_conflict`.
    Held {
        last_conflict: Option<u64>,
    },
    /// A conflict ended it.
    Over,
}

/// What a step of conflict detection says.
#[derive(Clone, Copy, Debug, PartialEq, Eq)]
pub enum AcdSays {
    Quiet,
    /// A probe is to be sent.
    SayProbe,
    /// An announcement is to be sent.
    SayAnnounce,
    /// The address may be used, and is to be announced.
    Passed,
    /// Another host has the address, or probes it too: it can't be used.
    Conflict,
    /// Another host contests the address that is used: it isn't any more.
    GivenUp,
}

/// An ARP message that is to be sent.
#[derive(Clone, Copy, Debug, PartialEq, Eq)]
pub enum ArpSay {
    Probe(Ip4),
    Announce(Ip4),
}

/// Conflict detection for one address on one interface (RFC 5227).
#[derive(Clone, Copy, PartialEq, Eq)]
pub struct Acd {
    iface: IfIndex,
    addr: Ip4,
    phase: Phase,
}

/// Conflict detection that begins at the moment `at`.
pub fn acd_begin(iface: IfIndex, addr: Ip4, at: u64, salt: u64) -> Acd
    ensures { result ≡ acd_begun iface addr (moment_of at) salt }
{
    Acd {
        iface,
        addr,
        phase: first_probe(iface, at, salt),
    }
}

/// The probing at its start, where no probe is sent yet.
fn first_probe(iface: IfIndex, at: u64, salt: u64) -> Phase
    ensures { result ≡ probing_anew iface (moment_of at) salt }
{
    let due = clamp_moment(at) + u64::from(draw(salt, iface, PROBE_WAIT + 1));
    Phase::Probing { sent: 0, due }
}

/// The address that is probed, held or lost.
pub fn acd_addr(acd: &Acd) -> Ip4
    ensures { result ≡ acd.now.addr }
{
    acd.addr
}

/// The address while it is in use: it has passed, and wasn't given up.
pub fn acd_held(acd: &Acd) -> Option<Ip4>
    ensures { result ≡ held_in acd.now.addr acd.now.phase }
{
    match acd.phase {
        Phase::Announcing { .. } | Phase::Held { .. } => Some(acd.addr),
        Phase::Probing { .. } | Phase::Over => None,
    }
}

impl Machine for Acd {
    type Out = AcdSays;

    ghost due_of = { λ acd. due_of acd.phase };

    ghost ticks = { λ old at salt new says. IsStep (acd_tick old (moment_of at) salt) new says };

    ghost is_quiet = { IsQuiet };

    ghost rests = { tick_rests };

    fn due(&self) -> Option<u64> {
        match self.phase {
            Phase::Probing { due, .. } | Phase::Announcing { due, .. } => Some(due),
            Phase::Held { .. } | Phase::Over => None,
        }
    }

    fn tick(&mut self, at: u64, salt: u64) -> AcdSays {
        let at = clamp_moment(at);
        if !has_come(self.due(), at) {
            return AcdSays::Quiet;
        }
        match self.phase {
            // fewer than three sent: a probe
            Phase::Probing { sent, .. } if sent < PROBE_NUM => {
                self.phase = Phase::Probing {
                    sent: sent + 1,
                    due: self.due_after(sent + 1, at, salt),
                };
                AcdSays::SayProbe
            }
            // three sent: the address has passed
            Phase::Probing { .. } => {
                self.phase = Phase::Announcing {
                    due: at + ANNOUNCE_INTERVAL,
                    last_conflict: None,
                };
                AcdSays::Passed
            }
            // the second announcement
            Phase::Announcing { last_conflict, .. } => {
                self.phase = Phase::Held { last_conflict };
                AcdSays::SayAnnounce
            }
            Phase::Held { .. } | Phase::Over => AcdSays::Quiet,
        }
    }
}

impl Acd {
    /// A conflict over the address, which has passed: it's defended, and the detection goes on as
    /// `defended`, or it's given up (RFC 5227, section 2.4).
    fn defend(&mut self, last_conflict: Option<u64>, at: u64, defended: Phase) -> AcdSays
        ensures { IsStep (contested_row self.old last_conflict at defended) self.new result }
    {
        match last_conflict {
            Some(last) if at.saturating_sub(last) < DEFEND_INTERVAL => {
                self.phase = Phase::Over;
                AcdSays::GivenUp
            }
            _ => {
                self.phase = defended;
                AcdSays::SayAnnounce
            }
        }
    }

    /// The moment after the probe that made them `sent` (RFC 5227, section 2.1.1).
    fn due_after(&self, sent: u8, at: u64, salt: u64) -> u64
        requires { at < 2 ^ 63 }
        ensures { result ≡ due_after self.now.iface sent at salt }
    {
        if sent == PROBE_NUM {
            at + ANNOUNCE_WAIT
        } else {
            let more = draw(salt, self.iface, PROBE_MAX - PROBE_MIN + 1);
            at + u64::from(PROBE_MIN) + u64::from(more)
        }
    }
}

/// Hears an ARP packet. `own` holds the hardware addresses of all interfaces of the client.
pub fn acd_heard(acd: &mut Acd, arp: &ArpView, at: u64, own: &[Mac]) -> AcdSays
    ensures { IsStep (acd_hears own.now acd.old arp.now (moment_of at)) acd.new result }
{
    let at = clamp_moment(at);
    match acd.phase {
        // a conflict ends the probing
        Phase::Probing { .. } if is_contested(acd.addr, arp, own) => {
            acd.phase = Phase::Over;
            AcdSays::Conflict
        }
        // the address is defended or given up
        Phase::Announcing { due, last_conflict } if is_used(acd.addr, arp, own) => {
            let defended = Phase::Announcing {
                due,
                last_conflict: Some(at),
            };
            acd.defend(last_conflict, at, defended)
        }
        Phase::Held { last_conflict } if is_used(acd.addr, arp, own) => {
            let defended = Phase::Held {
                last_conflict: Some(at),
            };
            acd.defend(last_conflict, at, defended)
        }
        Phase::Probing { .. } | Phase::Announcing { .. } | Phase::Held { .. } | Phase::Over =>
            AcdSays::Quiet,
    }
}

/// Begins the probing anew where a frame of the interface could not be sent, since it may have been a
/// probe.
pub fn acd_unsent(acd: &mut Acd, at: u64, salt: u64)
    ensures { acd.new ≡ acd_restarts acd.old (moment_of at) salt }
{
    match acd.phase {
        Phase::Probing { sent, .. } if sent > 0 => {
            acd.phase = first_probe(acd.iface, at, salt);
        }
        Phase::Probing { .. } | Phase::Announcing { .. } | Phase::Held { .. } | Phase::Over => {}
    }
}
