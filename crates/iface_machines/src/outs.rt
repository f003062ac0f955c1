//! What a turn asks of the outside, what is new in it, and what hooks are told of that.
ghost use Rattle.std.specs.Prelude.{◌≡◌, [], ◌∷◌, IfOk, OnOk, map, option_map, option_to_list};
ghost use Rattle.v6_client.specs.Saying.{spoken_content};
ghost use Rattle.client_model.specs.Messages.{Arp, Dhcp4};
ghost use Rattle.client_model.specs.Clients.{spelled};
ghost use Rattle.iface_machines.specs.Outcomes.{Offers, arp_text, ask_in, asked_in, dhcp6_said, framed, spec_in};

use arp_acd::ArpSay;
use client_model::{Iface, News};
use frame_link::arp_frame;
use net_types::{IfIndex, Ip4, Mac, Net6, NoMemory};
use std::alloc::{AllocError, Global};
use v4_client::{Say4, ask4};
use v4_frames::build4;
use v6_client::duid6;
use v6_frames::build6;
use v6_message::Said6;
use world::HookJob;

/// A frame that is offered on an interface.
#[derive(Drop)]
pub struct Sending {
    pub iface: IfIndex,
    pub bytes: Vec<u8>,
}

/// What an interface tells hooks (dhcpcd-run-hooks(8)).
#[derive(Drop)]
pub enum Told {
    /// A job of its own.
    Own(HookJob),
    /// The address, with its length, that another interface has out of a delegated prefix.
    Shared { iface: IfIndex, net: Net6 },
}

/// What a turn asks of the outside, what is new in it, and what hooks are told of that, each in order.
#[derive(Drop)]
pub struct Outs {
    alloc: Global,
    pub sends: Vec<Sending>,
    pub news: Vec<News>,
    pub told: Vec<Told>,
}

impl Outs {
    /// Nothing is asked, nothing is new, and hooks are told nothing.
    pub fn new(alloc: Global) -> Outs
        ensures { asked_in result ≡ record { sends = []; news = []; told = [] } }
    {
        Outs {
            alloc,
            sends: Vec::new(alloc),
            news: Vec::new(alloc),
            told: Vec::new(alloc),
        }
    }

    /// Offers a frame of the interface.
    fn offer(&mut self, iface: &Iface, bytes: Vec<u8>) -> Result<(), NoMemory>
        ensures { OnOk result
            (Offers (framed (spec_in iface.now) bytes.items ∷ []) (asked_in self.old) (asked_in self.new)) }
    {
        self.sends.push(Sending {
            iface: iface.managed.spec.index,
            bytes,
        })?;
        Ok(())
    }

    /// Offers the frame of a DHCPv4 message, where there is one.
    pub fn say_dhcp4(&mut self, iface: &Iface, message: Option<Say4>) -> Result<(), NoMemory>
        ensures { OnOk result
            (Offers (map (spelled (spec_in iface.now) (ask_in iface.now)) (map Dhcp4 (option_to_list message)))
            (asked_in self.old) (asked_in self.new)) }
    {
        let Some(message) = message else {
            return Ok(());
        };
        let bytes = build4(self.alloc, &message.sent(), ask4(&iface.dhcp4))?;
        self.offer(iface, bytes)
    }

    /// Offers the frame of an ARP message, where there is one.
    pub fn say_arp(&mut self, iface: &Iface, message: Option<ArpSay>) -> Result<(), NoMemory>
        ensures { OnOk result
            (Offers (map (spelled (spec_in iface.now) (ask_in iface.now)) (map Arp (option_to_list message)))
            (asked_in self.old) (asked_in self.new)) }
    {
        let Some(message) = message else {
            return Ok(());
        };
        let bytes = arp_bytes(self.alloc, iface.managed.spec.mac, message)?;
        self.offer(iface, bytes)
    }

    /// Offers the frame of a DHCPv6 message, where there is one.
    pub fn say_dhcp6(&mut self, iface: &Iface, message: Option<&Said6>) -> Result<(), NoMemory>
        ensures { OnOk result
            (Offers
            (map (spelled (spec_in iface.now) (ask_in iface.now))
            (dhcp6_said iface.now (option_map (λ said. spoken_content said.now) message.entry)))
            (asked_in self.old) (asked_in self.new)) }
    {
        let Some(message) = message else {
            return Ok(());
        };
        let mac = iface.managed.spec.mac;
        let bytes = build6(self.alloc, mac, message, duid6(&iface.dhcp6))?;
        self.offer(iface, bytes)
    }
}

/// The frame of an ARP message of the interface with this hardware address.
fn arp_bytes(alloc: Global, mac: Mac, message: ArpSay) -> Result<Vec<u8>, AllocError>
    ensures { IfOk result (λ bytes. bytes.items ≡ arp_text mac message) }
{
    match message {
        ArpSay::Probe(addr) => arp_frame(mac, Ip4::UNSPECIFIED, addr).to_vec(alloc),
        ArpSay::Announce(addr) => arp_frame(mac, addr, addr).to_vec(alloc),
    }
}
