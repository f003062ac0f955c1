//! The leases that are held.
ghost use Rattle.std.specs.Prelude.{◌≡◌, ◌↔◌, ◌++◌, ◌∷◌, [], true, IfOk, OnOk, drop, map, option_to_list};
ghost use Rattle.lab_model.specs.LabLines.{lease_line, lease_lines, lines_text};
ghost use Rattle.lab_text.specs.HeldLeases.{line_of};
ghost use Rattle.lab_text.specs.Living.{Says};

use client_model::Iface;
use iface_core::iface_lease;
use line_grammar::append_line;
use net_types::{IfIndex, Net4, NoMemory, append_bytes};
use std::alloc::Global;
use std::marker::Model;

/// The address of a DHCPv4 lease that an interface holds.
#[derive(Clone, Copy, Debug, PartialEq, Eq)]
pub struct Held {
    pub iface: IfIndex,
    pub net: Net4,
}

/// The leases that were held last, and their lines: as long as these are the same they are told again as they stand.
#[derive(Drop)]
pub struct Leases {
    held: Vec<Held>,
    text: Vec<u8>,
}

impl Model for Leases {
    ghost use Rattle.std.specs.Prelude.{◌≡◌, List, map};
    ghost use Rattle.lab_model.specs.LabLines.{lines_text};
    ghost use Rattle.lab_text.specs.declared.leases.Held.{Held};
    ghost use Rattle.lab_text.specs.HeldLeases.{line_of};

    ghost Value = { List Held };

    ghost view = { λ leases. leases.held.items };

    ghost invariant = { λ leases. leases.text.items ≡ lines_text (map line_of leases.held.items) };
}

/// What the interface holds.
fn held_by(iface: &Iface) -> Option<Held>
    ensures { map line_of (option_to_list result) ≡ lease_line iface.now }
{
    match iface_lease(iface) {
        Some(lease) => Some(Held {
            iface: iface.managed.spec.index,
            net: lease.terms().net,
        }),
        None => None,
    }
}

/// Adds what the interface holds.
fn push_held(iface: &Iface, all: &mut Vec<Held>) -> Result<(), NoMemory>
    ensures { OnOk result (map line_of all.new.items ≡ map line_of all.old.items ++ lease_line iface.now) }
{
    match held_by(iface) {
        Some(held) => {
            all.push(held)?;
            Ok(())
        }
        None => Ok(()),
    }
}

/// What the interfaces hold, in their order.
fn held_now(alloc: Global, ifaces: &[Iface]) -> Result<Vec<Held>, NoMemory>
    ensures { IfOk result (λ held. map line_of held.items ≡ lease_lines ifaces.now) }
{
    let mut all = Vec::with_capacity(alloc, ifaces.len())?;
    for iface in ifaces {
        push_held(iface, &mut all)?;
    }
    Ok(all)
}

fn are_same(one: &[Held], other: &[Held]) -> bool
    ensures { result ≡ true ↔ one.now ≡ other.now }
{
    one == other
}

/// Appends the line of a lease.
fn say_held(held: Held, text: &mut Vec<u8>) -> Result<(), NoMemory>
    ensures { OnOk result (Says (line_of held ∷ []) text.old.items text.new.items) }
{
    append_line(b"lease ", &(held.iface.number, held.net), text)
}

/// The lines of leases, as text.
fn text_of(alloc: Global, held: &[Held]) -> Result<Vec<u8>, NoMemory>
    ensures { IfOk result (λ text. text.items ≡ lines_text (map line_of held.now)) }
{
    let mut text = Vec::new(alloc);
    for one in held {
        say_held(*one, &mut text)?;
    }
    Ok(text)
}

impl Leases {
    /// No lease.
    pub fn new(alloc: Global) -> Leases
        ensures { result ≡ [] }
    {
        Leases {
            held: Vec::new(alloc),
            text: Vec::new(alloc),
        }
    }

    /// These leases, with their lines.
    fn of(alloc: Global, held: Vec<Held>) -> Result<Leases, NoMemory>
        ensures { IfOk result (λ leases. leases ≡ held.items) }
    {
        let text = text_of(alloc, &held)?;
        Ok(Leases { held, text })
    }

    /// These leases, with the lines that there are where they are the same.
    fn with(self, alloc: Global, held: Vec<Held>) -> Result<Leases, NoMemory>
        ensures { IfOk result (λ leases. leases ≡ held.items) }
    {
        if are_same(&held, &self.held) {
            Ok(self)
        } else {
            Leases::of(alloc, held)
        }
    }

    /// Appends their lines.
    fn append(&self, text: &mut Vec<u8>) -> Result<(), NoMemory>
        ensures { OnOk result (Says (map line_of self.now) text.old.items text.new.items) }
    {
        append_bytes(&self.text, text)
    }

    /// Appends a line for each DHCPv4 lease that is held, in order of the interfaces.
    pub fn say(
        self,
        alloc: Global,
        ifaces: &[Iface],
        text: &mut Vec<u8>,
    ) -> Result<Leases, NoMemory>
        ensures { OnOk result (Says (lease_lines ifaces.now) text.old.items text.new.items) }
    {
        let leases = self.with(alloc, held_now(alloc, ifaces)?)?;
        leases.append(text)?;
        Ok(leases)
    }
}
