//! The server, and what it makes of the frames that it hears.

ghost use Rattle.std.specs.Prelude.{◌≡◌, ◌^◌, ◌<◌, Some, IfErr, IfOk, OnOk};
ghost use Rattle.std.specs.Option.{option_map};
ghost use Rattle.server_data.specs.ServerFrames.{server_frame};
ghost use Rattle.lab_peer.specs.Hearing as texts;

use crate::binding::{Bound4, bind, have_bound, keep_from, last_address, lease_end};
use crate::client_frame::client_sent;
use crate::pool::Pool;
use net_types::{Ip4, Mac, NoMemory};
use server_data::{Reply, ReplyKind, SERVER, server_frame};
use std::alloc::Global;
use std::marker::Model;
use v4_message::{Kind4, Said4};

/// A scripted server at 10.0.0.1: what it has to give, what it gave, and the addresses that it gives no more.
#[derive(Drop)]
pub struct Peer {
    pool: Pool,
    bindings: Vec<Bound4>,
    spoiled: Vec<Ip4>,
}

impl Model for Peer {
    ghost use Rattle.lab_peer.specs.Hearing.{PeerState};

    ghost Value = { PeerState };

    ghost view = { λ p. record { pool = p.pool; bindings = p.bindings.items; spoiled = p.spoiled.items } };
}

impl Peer {
    /// A server that has given nothing yet.
    pub fn open(alloc: Global, pool: Pool) -> Peer
        ensures { result ≡ texts.peer_open pool }
    {
        Peer {
            pool,
            bindings: Vec::new(alloc),
            spoiled: Vec::new(alloc),
        }
    }

    /// The bindings, one for each address, in the order in which they were made or renewed.
    pub fn bound(&self) -> &[Bound4]
        ensures { result.now ≡ self.now.bindings }
    {
        &self.bindings
    }

    /// Hears a frame at a moment in milliseconds since 1970, and hands back the frame that it answers. A DISCOVER is
    /// offered the client's last address, or the lowest free one; a REQUEST is granted or refused; a DECLINE spoils an
    /// address of the client; a RELEASE, and what no client says, change nothing (RFC 2131, section 4.3). Only want of
    /// memory is an error, and it changes nothing.
    pub fn hear(
        &mut self,
        alloc: Global,
        frame: &[u8],
        at: u64,
    ) -> Result<Option<Vec<u8>>, NoMemory>
        requires { at < 10 ^ 15 }
        ensures heard { OnOk result (self.new ≡ (texts.hears at frame.now self.old).peer) }
        ensures made { IfOk result
            (λ made. option_map (λ v. v.items) made ≡ texts.made (texts.hears at frame.now self.old)) }
        ensures kept { IfErr result (λ _. self.new ≡ self.old) }
    {
        match client_sent(alloc, frame)? {
            Some(sent) => self.hear_message(alloc, sent.said, at),
            None => Ok(None),
        }
    }

    fn hear_message(
        &mut self,
        alloc: Global,
        said: Said4,
        at: u64,
    ) -> Result<Option<Vec<u8>>, NoMemory>
        requires { at < 10 ^ 15 }
        ensures heard { OnOk result (self.new ≡ (texts.hears_kind at said self.old said.kind).peer) }
        ensures made { IfOk result
            (λ made. option_map (λ v. v.items) made ≡ texts.made (texts.hears_kind at said self.old said.kind)) }
        ensures kept { IfErr result (λ _. self.new ≡ self.old) }
    {
        match said.kind {
            Kind4::Discover => self.offer(alloc, said, at),
            Kind4::Request if is_for_another(said.server) => Ok(None),
            Kind4::Request => self.answer(alloc, said, at),
            Kind4::Decline => {
                self.decline(said)?;
                Ok(None)
            }
            Kind4::Release => Ok(None),
        }
    }

    fn is_spoiled(&self, addr: Ip4) -> bool
        ensures { result ≡ texts.is_spoiled addr self.now }
    {
        self.spoiled.iter().any(|spoiled| *spoiled == addr)
    }

    /// Whether an address is free for a client.
    fn is_free(&self, addr: Ip4, mac: Mac, at: u64) -> bool
        ensures { result ≡ texts.is_free addr mac at self.now }
    {
        self.pool.contains(addr)
            && !self.is_spoiled(addr)
            && !keep_from(&self.bindings, addr, mac, at)
    }

    #[tactic(auto, using(crate::proofs::Lowest::this_one, crate::proofs::Lowest::not_this, crate::proofs::Lowest::last_one, crate::proofs::Lowest::not_last))]
    fn lowest_free(&self, mac: Mac, at: u64) -> Option<Ip4>
        ensures { result ≡ texts.lowest_free mac at self.now }
    {
        'addresses: for number in self.pool.low.number..self.pool.high.number {
            let addr = Ip4 { number };
            if self.is_free(addr, mac, at) {
                return Some(addr);
            }
        }
        if self.is_free(self.pool.high, mac, at) {
            return Some(self.pool.high);
        }
        None
    }

    /// The address that a client is offered.
    fn offered(&self, mac: Mac, at: u64) -> Option<Ip4>
        ensures { result ≡ texts.offered mac at self.now }
    {
        match last_address(mac, &self.bindings) {
            Some(last) if self.is_free(last, mac, at) => Some(last),
            Some(_) | None => self.lowest_free(mac, at),
        }
    }

    fn reply_to(&self, said: Said4, kind: ReplyKind, addr: Ip4) -> Reply
        ensures { result ≡ texts.reply_to said self.now kind addr }
    {
        Reply {
            kind,
            chaddr: said.mac,
            xid: said.xid,
            yiaddr: addr,
            server: SERVER,
            lease: self.pool.lease,
        }
    }

    /// The answer to a DISCOVER. It binds nothing.
    fn offer(&self, alloc: Global, said: Said4, at: u64) -> Result<Option<Vec<u8>>, NoMemory>
        ensures { IfOk result
            (λ made. option_map (λ v. v.items) made ≡ texts.made (texts.discovered at said self.now)) }
    {
        let Some(addr) = self.offered(said.mac, at) else {
            return Ok(None);
        };
        let frame = server_frame(alloc, &self.reply_to(said, ReplyKind::Offer, addr))?;
        Ok(Some(frame))
    }

    /// The answer to a REQUEST to this server or to all.
    fn answer(&mut self, alloc: Global, said: Said4, at: u64) -> Result<Option<Vec<u8>>, NoMemory>
        requires { at < 10 ^ 15 }
        ensures heard { OnOk result
            (self.new ≡ (texts.requested at said (texts.address_wanted said.asked said.ciaddr) self.old).peer) }
        ensures made { IfOk result
            (λ made. option_map (λ v. v.items) made
            ≡ texts.made (texts.requested at said (texts.address_wanted said.asked said.ciaddr) self.old)) }
        ensures kept { IfErr result (λ _. self.new ≡ self.old) }
    {
        let addr = address_wanted(said.asked, said.ciaddr);
        if self.is_free(addr, said.mac, at) {
            self.grant(alloc, said, addr, at)
        } else {
            self.refuse(alloc, said, addr)
        }
    }

    /// The address becomes the client's, and the answer is an ACK.
    fn grant(
        &mut self,
        alloc: Global,
        said: Said4,
        addr: Ip4,
        at: u64,
    ) -> Result<Option<Vec<u8>>, NoMemory>
        requires { at < 10 ^ 15 }
        ensures heard { OnOk result (self.new ≡ texts.with_binding at said addr self.old) }
        ensures made { IfOk result
            (λ made. option_map (λ v. v.items) made
            ≡ Some (server_frame (texts.reply_to said self.old ReplyKind.Ack addr))) }
        ensures kept { IfErr result (λ _. self.new ≡ self.old) }
    {
        let end = lease_end(self.pool.lease, at);
        let bindings = bind(alloc, addr, said.mac, end, &self.bindings)?;
        let frame = server_frame(alloc, &self.reply_to(said, ReplyKind::Ack, addr))?;
        self.bindings = bindings;
        Ok(Some(frame))
    }

    fn refuse(&self, alloc: Global, said: Said4, addr: Ip4) -> Result<Option<Vec<u8>>, NoMemory>
        ensures { IfOk result
            (λ made. option_map (λ v. v.items) made
            ≡ Some (server_frame (texts.reply_to said self.now ReplyKind.Nak addr))) }
    {
        let frame = server_frame(alloc, &self.reply_to(said, ReplyKind::Nak, addr))?;
        Ok(Some(frame))
    }

    /// Spoils a declined address that is bound to the client.
    fn decline(&mut self, said: Said4) -> Result<(), NoMemory>
        ensures heard { OnOk result (self.new ≡ texts.declined said.mac said.asked self.old) }
        ensures kept { IfErr result (λ _. self.new ≡ self.old) }
    {
        let Some(addr) = said.asked else {
            return Ok(());
        };
        if !have_bound(&self.bindings, addr, said.mac) {
            return Ok(());
        }
        self.spoiled.push(addr)?;
        Ok(())
    }
}

/// The address that a REQUEST is for: the one that it asks for, else the client's own (RFC 2131, section 4.3.2).
fn address_wanted(asked: Option<Ip4>, ciaddr: Ip4) -> Ip4
    ensures { result ≡ texts.address_wanted asked ciaddr }
{
    asked.unwrap_or(ciaddr)
}

fn is_for_another(server: Option<Ip4>) -> bool
    ensures { result ≡ texts.is_for_another server }
{
    match server {
        Some(server) => server != SERVER,
        None => false,
    }
}
