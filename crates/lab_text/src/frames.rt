//! The frames of a lab, numbered from 1 in the order in which they came about.
ghost use Rattle.std.specs.Prelude.{◌≡◌, ◌++◌, ◌+◌, [], ◌∷◌, IfOk, OnOk, length, map, option_map, option_to_list};
ghost use Rattle.std.specs.List.{AllByRecursion};
ghost use Rattle.client_core.specs.Stepping.{IsOnInterface};
ghost use Rattle.iface_core.specs.Outcomes.{sending_of};
ghost use Rattle.lab_model.specs.Exchanges.{xids_unlike};
ghost use Rattle.lab_model.specs.LabLines.{ClientFrame, client_lines, peer_lines};
ghost use Rattle.lab_model.specs.Labs.{numbered};
ghost use Rattle.lab_text.specs.Living.{Says, place_of};
ghost use Rattle.lab_text.specs.Noting.{are_unlike};

use crate::exchanges::{Exchanges, Xids};
use iface_core::Sending;
use lab_peer::client_sent;
use line_grammar::append_line;
use net_types::{Hex, NoMemory};
use std::alloc::Global;
use std::marker::Model;

/// The frames so far, and the exchanges that those of the clients make.
#[derive(Drop)]
pub struct Frames {
    sent: Vec<Sending>,
    made: Vec<Vec<u8>>,
    exchanges: Exchanges,
}

impl Model for Frames {
    ghost use Rattle.std.specs.Prelude.{map};
    ghost use Rattle.iface_core.specs.Outcomes.{sending_of};
    ghost use Rattle.lab_model.specs.Exchanges.{messages_of};
    ghost use Rattle.lab_text.specs.Living.{FramesContent};
    ghost use Rattle.lab_text.specs.Noting.{KeepsThose};

    ghost Value = { FramesContent };

    ghost view = { λ frames.
        record { sent = map sending_of frames.sent.items; made = map (λ frame. frame.items) frames.made.items } };

    ghost invariant = { λ frames. KeepsThose (messages_of (map sending_of frames.sent.items)) frames.exchanges };
}

/// The place of the frame of a number, which counts from 1.
#[tactic(auto, using(crate::proofs::NumberedFrames::place_some, crate::proofs::NumberedFrames::place_none))]
fn place_of(number: u64) -> Option<usize>
    ensures { result ≡ place_of number }
{
    if number >= 1 {
        Some((number - 1) as usize)
    } else {
        None
    }
}

/// The frame of a number.
#[tactic(auto, using(crate::proofs::NumberedFrames::numbered_some, crate::proofs::NumberedFrames::numbered_none))]
fn frame_of<T>(frames: &[T], number: u64) -> Option<&T>
    ensures { option_map (λ frame. frame.now) result ≡ numbered number frames.now }
{
    match place_of(number) {
        Some(place) => frames.get(place),
        None => None,
    }
}

impl Frames {
    /// No frames.
    pub fn new(alloc: Global) -> Frames
        ensures { result ≡ record { sent = []; made = [] } }
    {
        Frames {
            sent: Vec::new(alloc),
            made: Vec::new(alloc),
            exchanges: Exchanges::new(alloc),
        }
    }

    /// The bytes of the clients' frame of a number.
    #[tactic(auto, using(crate::proofs::NumberedFrames::numbered_map))]
    pub fn sent(&self, number: u64) -> Option<&[u8]>
        ensures { option_map (λ bytes. bytes.now) result
            ≡ option_map (λ sending. sending.bytes) (numbered number self.now.sent) }
    {
        match frame_of(&self.sent, number) {
            Some(sending) => Some(&sending.bytes),
            None => None,
        }
    }

    /// The peer's frame of a number.
    #[tactic(auto, using(crate::proofs::NumberedFrames::numbered_map))]
    pub fn made(&self, number: u64) -> Option<&[u8]>
        ensures { option_map (λ bytes. bytes.now) result ≡ numbered number self.now.made }
    {
        match frame_of(&self.made, number) {
            Some(frame) => Some(frame),
            None => None,
        }
    }

    /// Whether two exchanges of one interface had the same number.
    pub fn xids(&self) -> Xids
        ensures { are_unlike result ≡ xids_unlike self.now.sent }
    {
        self.exchanges.seen.xids
    }

    /// With a frame that the clients send.
    fn with_sent(self, alloc: Global, sending: Sending) -> Result<Frames, NoMemory>
        requires { IsOnInterface (sending_of sending) }
        ensures { IfOk result (λ frames. frames ≡ record self { sent = self.sent ++ sending_of sending ∷ [] }) }
    {
        let Frames {
            mut sent,
            made,
            exchanges,
        } = self;
        let exchanges = match client_sent(alloc, &sending.bytes)? {
            Some(message) => exchanges.with(sending.iface, message.said)?,
            None => exchanges,
        };
        sent.push(sending)?;
        Ok(Frames {
            sent,
            made,
            exchanges,
        })
    }

    /// With a frame that the clients send, and its line.
    fn send_one(
        self,
        alloc: Global,
        sending: Sending,
        text: &mut Vec<u8>,
    ) -> Result<Frames, NoMemory>
        requires { IsOnInterface (sending_of sending) }
        ensures frames { IfOk result (λ frames. frames ≡ record self { sent = self.sent ++ sending_of sending ∷ [] }) }
        ensures says { OnOk result
            (Says (ClientFrame (length self.sent + 1) sending.bytes.items ∷ []) text.old.items text.new.items) }
    {
        let number = self.sent.len() as u64 + 1;
        append_line(b"client ", &(number, Hex(&sending.bytes)), text)?;
        self.with_sent(alloc, sending)
    }

    /// With the frames that the clients send, and a line for each.
    pub fn send(
        self,
        alloc: Global,
        sends: Vec<Sending>,
        text: &mut Vec<u8>,
    ) -> Result<Frames, NoMemory>
        requires { AllByRecursion IsOnInterface (map sending_of sends.items) }
        ensures frames { IfOk result
            (λ frames. frames ≡ record self { sent = self.sent ++ map sending_of sends.items }) }
        ensures says { OnOk result
            (Says (client_lines (length self.sent) (map sending_of sends.items)) text.old.items text.new.items) }
    {
        let mut frames = self;
        for sending in sends {
            frames = frames.send_one(alloc, sending, text)?;
        }
        Ok(frames)
    }

    /// With the frame that the peer makes, and its line.
    pub fn make(self, made: Option<Vec<u8>>, text: &mut Vec<u8>) -> Result<Frames, NoMemory>
        ensures frames { IfOk result
            (λ frames. frames
            ≡ record self { made = self.made ++ option_to_list (option_map (λ frame. frame.items) made) }) }
        ensures says { OnOk result
            (Says
            (peer_lines (length self.made) (option_map (λ frame. frame.items) made)) text.old.items
            text.new.items) }
    {
        let Some(bytes) = made else {
            return Ok(self);
        };
        let Frames {
            sent,
            mut made,
            exchanges,
        } = self;
        let number = made.len() as u64 + 1;
        append_line(b"peer ", &(number, Hex(&bytes)), text)?;
        made.push(bytes)?;
        Ok(Frames {
            sent,
            made,
            exchanges,
        })
    }
}
