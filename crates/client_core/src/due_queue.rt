//! When interfaces are due, kept in a queue: each machine has a number, by the place of its interface, then as machines
//! tick.

ghost use Rattle.std.specs.Prelude.{◌≡◌, ◌==◌, ℕ, ◌<◌, if◌then◌else◌, IfOk, MatchOption};
ghost use Rattle.std.specs.FinMap as map;
ghost use Rattle.std.specs.List.{list_any};
ghost use Rattle.timer_queue.specs.Moments.{due_after, IsEarliest};
ghost use Rattle.iface_core.specs.Looks.{looked};
ghost use Rattle.client_core.specs.Due.{PutsMoments, dues_of, is_taken, looks_after, number_of, place_in, rank_of};
ghost use Rattle.client_core.specs.Places.{has};

use crate::places::{PLACES, Places};
use client_model::{Iface, TimedMachine};
use iface_core::look;
use net_types::NoMemory;
use std::alloc::Global;
use std::marker::Model;
use timer_queue::{Plain, Queue, Steps};

/// How many timed machines an interface has.
const RANKS: usize = 3;

/// The timed machines of an interface, by rank.
const MACHINES: [TimedMachine; RANKS] = [
    TimedMachine::Dhcp4,
    TimedMachine::LinkLocal,
    TimedMachine::Dhcp6,
];

/// The numbers of the machines of all interfaces with a place below 64 are below this.
const NUMBERS: usize = 192;

/// When interfaces are due: the moments of the machines of those with a place below 64.
#[derive(Drop)]
pub struct Dues {
    queue: Queue<NUMBERS>,
    /// Room for the numbers that are taken, so that this takes no memory.
    taken: Vec<usize>,
}

impl Model for Dues {
    ghost use Rattle.std.specs.Prelude.{◌≤◌};
    ghost use Rattle.std.specs.Vec.{vec_capacity};
    ghost use Rattle.timer_queue.specs.Moments.{Moments, moments_code};
    ghost use Rattle.client_core.specs.declared.due_queue.TheConstants.{NUMBERS};

    ghost Value = { Moments };

    ghost coded = { moments_code };

    ghost view = { λ dues. dues.queue };

    ghost invariant = { λ dues. NUMBERS ≤ vec_capacity dues.taken };
}

/// A machine's rank among those of its interface, as they tick.
fn rank(machine: TimedMachine) -> usize
    ensures { result ≡ rank_of machine }
{
    match machine {
        TimedMachine::Dhcp4 => 0,
        TimedMachine::LinkLocal => 1,
        TimedMachine::Dhcp6 => 2,
    }
}

/// The places of the interfaces with these numbers.
fn places_of(numbers: &[usize]) -> Places
    ensures { (place : ℕ) → place < 64 → has result place ≡ list_any (λ key. place_in key == place) numbers.now }
{
    let mut places = Places::none();
    for number in numbers {
        places = places.with(number / RANKS);
    }
    places
}

/// Says when a machine of the interface at a place is due, or that it isn't.
fn put_one(queue: &mut Queue<NUMBERS>, place: usize, machine: TimedMachine, due: Option<u64>)
    requires { place < 64 }
    ensures { (key : ℕ)
        → map.get queue.new key ≡ (if key == number_of place machine then due else map.get queue.old key) }
{
    let number = place * RANKS + rank(machine);
    match due {
        Some(at) => queue.set(number, at, &mut Steps::new(Plain)),
        None => queue.clear(number, &mut Steps::new(Plain)),
    }
}

/// Says when the machines of the interface at a place are due, which is asked of each.
fn put_each(queue: &mut Queue<NUMBERS>, place: usize, iface: &Iface, looks: &mut u64)
    requires { place < 64 }
    ensures puts { PutsMoments place (dues_of iface.now) queue.old queue.new }
    ensures counted { looks.new ≡ looked 3 looks.old }
{
    for machine in &MACHINES {
        let due = look(iface, *machine, looks);
        put_one(queue, place, *machine, due);
    }
}

impl Dues {
    /// No interface is due. All memory is taken here.
    pub fn new(alloc: Global) -> Result<Dues, NoMemory>
        ensures { IfOk result (λ dues. dues ≡ map.empty) }
    {
        Ok(Dues {
            queue: Queue::new(alloc)?,
            taken: Vec::with_capacity(alloc, NUMBERS)?,
        })
    }

    /// Says when the machines of the interface at a place are due, where that is below 64. That each was asked is
    /// counted.
    pub fn put(&mut self, place: usize, iface: &Iface, looks: &mut u64)
        ensures puts { PutsMoments place (dues_of iface.now) self.old self.new }
        ensures counted { looks.new ≡ looks_after place looks.old }
    {
        if place < PLACES {
            put_each(&mut self.queue, place, iface, looks);
        }
    }

    /// Takes out what is due at or before `at`, and gives the places of those interfaces. The others stay.
    pub fn take(&mut self, at: u64) -> Places
        ensures taken { (place : ℕ) → place < 64 → has result place ≡ is_taken at self.old place }
        ensures left { self.new ≡ due_after at self.old }
    {
        self.taken.clear();
        self.queue
            .take_due(at, &mut self.taken, &mut Steps::new(Plain));
        places_of(&self.taken)
    }

    /// The earliest moment at which one is due.
    pub fn first(&self) -> Option<u64>
        ensures { MatchOption result (self.now ≡ map.empty) (IsEarliest self.now) }
    {
        self.queue.next_due()
    }
}
