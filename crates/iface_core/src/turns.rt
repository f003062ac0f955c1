//! A turn of one interface: a failed send begins anew, the protocol machines that are due act, and then what came is
//! handed to those that it concerns.

ghost use Rattle.std.specs.Prelude.{◌≡◌, ◌==◌, OnOk, true};
ghost use Rattle.net_types.specs.Moments.{IsMoment};
ghost use Rattle.machine.specs.Moment.{is_due};
ghost use Rattle.settings.specs.Fitting.{FitsManaged};
ghost use Rattle.world.specs.Rows.{IsInterface};
ghost use Rattle.client_model.specs.IfaceSteps.{index_of};
ghost use Rattle.v6_frames.specs.Heard.{heard6_in};
ghost use Rattle.client_model.specs.Interfaces as run;
ghost use Rattle.client_model.specs.IfaceTurns.{hears, hears_message6, hears_packet, iface_turned};
ghost use Rattle.iface_machines.specs.Inputs.{hears_server, input_of, turn_of};
ghost use Rattle.iface_core.specs.Looks.{looked};
ghost use Rattle.iface_machines.specs.Outcomes.{Goes, asked_in};

use crate::interfaces::{carry, contains, halt, look, rebind, release};
use client_model::{Iface, TimedMachine};
use frame_link::ArpView;
use iface_machines::{
    Outs, Turn, TurnInput, arp_in_frame, contest, hear_local, hear_message, hear_message6,
    hear_packet, tick_dhcp4, tick_dhcp6, tick_local,
};
use ipv4ll::ll_unsent;
use machine::has_come;
use net_types::{Mac, NoMemory};
use v4_client::unsent4;
use v4_frames::heard4_of;
use v6_frames::heard6_of;

/// A frame of the interface couldn't be sent in the turn before.
pub fn iface_unsent(iface: &mut Iface, at: u64, salt: u64)
    requires { IsMoment at }
    ensures { iface.new ≡ run.restarted at salt iface.old }
{
    unsent4(&mut iface.dhcp4, at, salt);
    ll_unsent(&mut iface.local, at, salt);
}

/// Ticks a machine that is due.
pub fn iface_tick(
    iface: &mut Iface,
    machine: TimedMachine,
    at: u64,
    salt: u64,
    outs: &mut Outs,
) -> Result<(), NoMemory>
    requires at { IsMoment at }
    requires due { is_due (run.machine_due machine iface.old) at ≡ true }
    requires fits { FitsManaged iface.old.managed }
    ensures { OnOk result
        (Goes (run.machine_ticked machine at salt iface.old) iface.new (asked_in outs.old) (asked_in outs.new)) }
{
    match machine {
        TimedMachine::Dhcp4 => tick_dhcp4(iface, at, salt, outs),
        TimedMachine::LinkLocal => tick_local(iface, at, salt, outs),
        TimedMachine::Dhcp6 => tick_dhcp6(iface, at, salt, outs),
    }
}

/// Ticks a machine where it is due, for which it is asked once; where it isn't, a tick would change nothing and say
/// nothing.
fn tick_if_due(
    iface: &mut Iface,
    machine: TimedMachine,
    turn: &Turn<'_>,
    outs: &mut Outs,
    looks: &mut u64,
) -> Result<(), NoMemory>
    requires at { IsMoment turn.now.at }
    requires fits { FitsManaged iface.old.managed }
    ensures goes { OnOk result
        (Goes (run.machine_ticked machine turn.now.at turn.now.salt iface.old) iface.new (asked_in outs.old)
        (asked_in outs.new)) }
    ensures counted { looks.new ≡ looked 1 looks.old }
{
    if has_come(look(iface, machine, looks), turn.at) {
        iface_tick(iface, machine, turn.at, turn.salt, outs)
    } else {
        Ok(())
    }
}

/// Handles an input, which may be another interface's. `own` holds the hardware addresses of all interfaces of the
/// host. After a stop every input counts as quiet.
pub fn iface_input(
    iface: &mut Iface,
    turn: &Turn<'_>,
    own: &[Mac],
    outs: &mut Outs,
) -> Result<(), NoMemory>
    requires at { IsMoment turn.now.at }
    requires fits { FitsManaged iface.old.managed }
    ensures { OnOk result
        (Goes (input_of own.now turn.now iface.old) iface.new (asked_in outs.old) (asked_in outs.new)) }
{
    if iface.stopped {
        return Ok(());
    }
    match turn.input {
        TurnInput::Frame {
            iface: index,
            bytes,
        } if is_numbered(iface, index) => hear(iface, bytes, turn, own, outs),
        TurnInput::Carrier { iface: index, up } if is_numbered(iface, index) => {
            carry(iface, up, turn.at, turn.salt, outs)
        }
        TurnInput::Duplicate { iface: index, addr } if is_numbered(iface, index) => {
            contest(iface, addr, turn.at, turn.salt, outs)
        }
        TurnInput::Release { iface: index } if is_numbered(iface, index) => {
            release(iface, turn.at, turn.salt, outs)
        }
        TurnInput::Rebind { iface: index } if is_numbered(iface, index) => {
            rebind(iface, turn.at, turn.salt, outs)
        }
        TurnInput::Stop => halt(iface, turn.at, turn.salt, outs),
        TurnInput::Frame { .. } => Ok(()),
        TurnInput::Carrier { .. } => Ok(()),
        TurnInput::Duplicate { .. } => Ok(()),
        TurnInput::Release { .. } => Ok(()),
        TurnInput::Rebind { .. } => Ok(()),
        TurnInput::Quiet => Ok(()),
    }
}

fn is_numbered(iface: &Iface, number: u32) -> bool
    ensures { result ≡ (index_of iface.now == number) }
{
    iface.managed.spec.index.number == number
}

/// DHCPv4 and link-local hear an ARP packet.
fn hear_arp(
    iface: &mut Iface,
    arp: &ArpView,
    turn: &Turn<'_>,
    own: &[Mac],
    outs: &mut Outs,
) -> Result<(), NoMemory>
    requires at { IsMoment turn.now.at }
    requires fits { FitsManaged iface.old.managed }
    ensures { OnOk result
        (Goes (hears_packet own.now turn.now.at turn.now.salt arp.now iface.old) iface.new (asked_in outs.old)
        (asked_in outs.new)) }
{
    hear_packet(iface, arp, turn.at, turn.salt, own, outs)?;
    hear_local(iface, arp, turn.at, turn.salt, own, outs)
}

/// A DHCPv6 server's message, where the frame has one for the interface.
fn hear_dhcp6(
    iface: &mut Iface,
    bytes: &[u8],
    turn: &Turn<'_>,
    outs: &mut Outs,
) -> Result<(), NoMemory>
    requires at { IsMoment turn.now.at }
    requires fits { FitsManaged iface.old.managed }
    ensures { OnOk result
        (Goes
        (hears_message6 turn.now.at turn.now.salt (heard6_in iface.old.managed.spec.mac bytes.now) iface.old)
        iface.new
        (asked_in outs.old) (asked_in outs.new)) }
{
    match heard6_of(iface.managed.spec.mac, bytes) {
        None => Ok(()),
        Some(heard) => hear_message6(iface, &heard, turn.at, turn.salt, outs),
    }
}

/// A server's message, of DHCPv4 or of DHCPv6, where the frame has one for the interface.
fn hear_server(
    iface: &mut Iface,
    bytes: &[u8],
    turn: &Turn<'_>,
    outs: &mut Outs,
) -> Result<(), NoMemory>
    requires at { IsMoment turn.now.at }
    requires fits { FitsManaged iface.old.managed }
    ensures { OnOk result
        (Goes (hears_server turn.now.at turn.now.salt bytes.now iface.old) iface.new (asked_in outs.old)
        (asked_in outs.new)) }
{
    match heard4_of(iface.managed.spec.mac, bytes) {
        None => hear_dhcp6(iface, bytes, turn, outs),
        Some(heard) => hear_message(iface, &heard, turn.at, turn.salt, outs),
    }
}

/// Hears a frame: an ARP packet of any destination, or a server's message.
fn hear(
    iface: &mut Iface,
    bytes: &[u8],
    turn: &Turn<'_>,
    own: &[Mac],
    outs: &mut Outs,
) -> Result<(), NoMemory>
    requires at { IsMoment turn.now.at }
    requires fits { FitsManaged iface.old.managed }
    ensures { OnOk result
        (Goes (hears own.now turn.now.at turn.now.salt bytes.now iface.old) iface.new (asked_in outs.old)
        (asked_in outs.new)) }
{
    match arp_in_frame(bytes) {
        Some(arp) => hear_arp(iface, &arp, turn, own, outs),
        None => hear_server(iface, bytes, turn, outs),
    }
}

/// A failed send of the turn before, where it was this interface's.
fn restart(iface: &mut Iface, turn: &Turn<'_>)
    requires at { IsMoment turn.now.at }
    requires index { IsInterface (index_of iface.old) }
    ensures { iface.new ≡ run.unsent_in turn.now.unsent turn.now.at turn.now.salt iface.old }
{
    if contains(turn.unsent, iface.managed.spec.index) {
        iface_unsent(iface, turn.at, turn.salt);
    }
}

/// The ticks of the machines that are due, in order.
fn tick_machines(
    iface: &mut Iface,
    turn: &Turn<'_>,
    outs: &mut Outs,
    looks: &mut u64,
) -> Result<(), NoMemory>
    requires at { IsMoment turn.now.at }
    requires fits { FitsManaged iface.old.managed }
    ensures goes { OnOk result
        (Goes (run.ticked turn.now.at turn.now.salt iface.old) iface.new (asked_in outs.old) (asked_in outs.new)) }
    ensures counted { OnOk result (looks.new ≡ looked 3 looks.old) }
{
    tick_if_due(iface, TimedMachine::Dhcp4, turn, outs, looks)?;
    tick_if_due(iface, TimedMachine::LinkLocal, turn, outs, looks)?;
    tick_if_due(iface, TimedMachine::Dhcp6, turn, outs, looks)
}

/// A turn of an interface: a failed send of the turn before, the ticks of its machines, then the input. Each machine is
/// asked once when it is due, which is counted.
pub fn iface_turn(
    iface: &mut Iface,
    turn: &Turn<'_>,
    own: &[Mac],
    outs: &mut Outs,
    looks: &mut u64,
) -> Result<(), NoMemory>
    requires at { IsMoment turn.now.at }
    requires fits { FitsManaged iface.old.managed }
    ensures goes { OnOk result
        (Goes (iface_turned own.now (turn_of turn.now) iface.old) iface.new (asked_in outs.old) (asked_in outs.new)) }
    ensures counted { OnOk result (looks.new ≡ looked 3 looks.old) }
{
    restart(iface, turn);
    tick_machines(iface, turn, outs, looks)?;
    iface_input(iface, turn, own, outs)
}
