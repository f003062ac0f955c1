//! The fields that lines of a transcript have of their own, printed.
ghost use Rattle.std.specs.Prelude.{◌≡◌, ◌++◌, ◌∷◌, map, codes};
ghost use Rattle.std.specs.String.{string_bytes};
ghost use Rattle.net_types.specs.AddressText.{net_text};
ghost use Rattle.world.specs.Reasons.{reason_word};
ghost use Rattle.world.specs.RowText.{row_text};
ghost use Rattle.script_model.specs.Lines.{carrier_text, event_text, moment_text, outcome_text, poll_text, reading_text, up_text};
ghost use Rattle.transcript_text.specs.LineFields.{names_text};
ghost use Rattle.transcript_text.specs.Printed.{reading_of};

use crate::appending::{append_names, append_shown};
use crate::carriers::append_carriers;
use crate::lines::Reading;
use line_grammar::AppendField;
use net_types::{Hex, Net, NoMemory, append_bytes, append_hex, append_number};
use world::{Event, HostRow, Poll, Reason, reason_text};

/// Bytes as they are.
#[derive(Clone, Copy)]
pub struct Text<'a>(pub &'a [u8]);

impl AppendField for Text<'_> {
    ghost shown = { λ text. text.0.now };

    fn append(&self, into: &mut Vec<u8>) -> Result<(), NoMemory> {
        append_bytes(self.0, into)
    }
}

/// A word, and then fields.
#[derive(Clone, Copy)]
pub struct Worded<'a, F>(pub &'a [u8], pub F);

impl<F: AppendField> AppendField for Worded<'_, F> {
    ghost shown = { λ worded. worded.0.now ++ F.shown worded.1 };

    #[tactic(auto, using(std::proofs::Common::append_assoc))]
    fn append(&self, into: &mut Vec<u8>) -> Result<(), NoMemory> {
        append_bytes(self.0, into)?;
        self.1.append(into)
    }
}

/// Whether a call was done.
#[derive(Clone, Copy)]
pub struct Done(pub bool);

impl AppendField for Done {
    ghost shown = { λ done. outcome_text done.0 };

    fn append(&self, into: &mut Vec<u8>) -> Result<(), NoMemory> {
        append_bytes(if self.0 { b"ok" } else { b"failed" }, into)
    }
}

/// The interfaces whose bits are set.
#[derive(Clone, Copy)]
pub struct Carriers(pub u64);

impl AppendField for Carriers {
    ghost shown = { λ carriers. up_text carriers.0 };

    fn append(&self, into: &mut Vec<u8>) -> Result<(), NoMemory> {
        append_carriers(self.0, into)
    }
}

/// Whether an interface has carrier.
#[derive(Clone, Copy)]
pub struct Carrier(pub bool);

impl AppendField for Carrier {
    ghost shown = { λ carrier. carrier_text carrier.0 };

    fn append(&self, into: &mut Vec<u8>) -> Result<(), NoMemory> {
        append_bytes(if self.0 { b"up" } else { b"down" }, into)
    }
}

/// The names of files, each after a blank.
#[derive(Clone, Copy)]
pub struct Names<'a>(pub &'a [String]);

impl AppendField for Names<'_> {
    ghost shown = { λ names. names_text (map string_bytes names.0.now) };

    fn append(&self, into: &mut Vec<u8>) -> Result<(), NoMemory> {
        append_names(self.0, into)
    }
}

impl AppendField for Reading<'_> {
    ghost shown = { λ reading. reading_text (reading_of reading) };

    fn append(&self, into: &mut Vec<u8>) -> Result<(), NoMemory> {
        match *self {
            Reading::Found(bytes) => append_hex(bytes, into),
            Reading::Missing => append_bytes(b"none", into),
            Reading::Unread => append_bytes(b"failed", into),
        }
    }
}

/// What came, with the bytes of a frame.
#[derive(Clone, Copy)]
pub struct Came<'a> {
    pub event: Event,
    pub bytes: &'a [u8],
}

impl AppendField for Came<'_> {
    ghost shown = { λ came. event_text came.event came.bytes.now };

    #[tactic(auto, using(std::proofs::Common::append_assoc))]
    fn append(&self, into: &mut Vec<u8>) -> Result<(), NoMemory> {
        match self.event {
            Event::Frame { iface, .. } => {
                Worded(b"frame ", (iface, Hex(self.bytes))).append(into)
            }
            Event::Carrier { iface, up } => {
                Worded(b"carrier ", (iface, Carrier(up))).append(into)
            }
            Event::Duplicate { iface, addr } => { Worded(b"dup ", (iface, addr)).append(into) }
            Event::Release { iface } => Worded(b"release ", iface).append(into),
            Event::Rebind { iface } => Worded(b"rebind ", iface).append(into),
            Event::Stop => append_bytes(b"stop", into),
            Event::Quiet => append_bytes(b"quiet", into),
            Event::End => append_bytes(b"end", into),
        }
    }
}

/// What a poll of a hook's child said; nothing where it failed.
#[derive(Clone, Copy)]
pub struct Polled(pub Option<Poll>);

impl AppendField for Polled {
    ghost shown = { λ polled. poll_text polled.0 };

    fn append(&self, into: &mut Vec<u8>) -> Result<(), NoMemory> {
        match self.0 {
            Some(Poll::Running) => append_bytes(b"run", into),
            Some(Poll::Ended(status)) => Worded(b"ended ", status).append(into),
            None => append_bytes(b"failed", into),
        }
    }
}

/// Why a hook runs.
#[derive(Clone, Copy)]
pub struct Why(pub Reason);

impl AppendField for Why {
    ghost shown = { λ why. reason_word why.0 };

    fn append(&self, into: &mut Vec<u8>) -> Result<(), NoMemory> {
        append_bytes(reason_text(self.0).as_bytes(), into)
    }
}

/// A variable of a hook.
#[derive(Clone, Copy)]
pub struct Variable<'a> {
    pub name: &'a [u8],
    pub value: &'a [u8],
}

impl AppendField for Variable<'_> {
    ghost shown = { λ variable. variable.name.now ++ 61 ∷ variable.value.now };

    #[tactic(auto, using(std::proofs::Common::append_assoc))]
    fn append(&self, into: &mut Vec<u8>) -> Result<(), NoMemory> {
        append_bytes(self.name, into)?;
        append_bytes(b"=", into)?;
        append_bytes(self.value, into)
    }
}

/// A moment in milliseconds since 1970, or none.
#[derive(Clone, Copy)]
pub struct Moment(pub Option<u64>);

impl AppendField for Moment {
    ghost shown = { λ moment. moment_text moment.0 };

    fn append(&self, into: &mut Vec<u8>) -> Result<(), NoMemory> {
        match self.0 {
            Some(at) => append_number(at, into),
            None => append_bytes(b"none", into),
        }
    }
}

/// A row of the host.
#[derive(Clone, Copy)]
pub struct Row<'a>(pub &'a HostRow);

impl AppendField for Row<'_> {
    ghost shown = { λ row. row_text row.0.now };

    fn append(&self, into: &mut Vec<u8>) -> Result<(), NoMemory> {
        append_shown(*self.0, into)
    }
}

/// A network of either family.
#[derive(Clone, Copy)]
pub struct AnyNet(pub Net);

impl AppendField for AnyNet {
    ghost shown = { λ net. net_text net.0 };

    fn append(&self, into: &mut Vec<u8>) -> Result<(), NoMemory> {
        append_shown(self.0, into)
    }
}
