//! The records of a capture (draft-ietf-opsawg-pcap, section 5).

ghost use Rattle.std.specs.Prelude.{◌≡◌, ◌+◌, ◌≤◌, ◌∷◌, [], length, MatchOption};
ghost use Rattle.capture_script.specs.Captures.{fractions_of_one, moment_at, packets_in};
ghost use Rattle.capture_script.specs.PacketViews.{packet_shown};

use crate::forms::{Form, Fraction, number_at};

/// How long the fields before the bytes of a packet are: seconds, fraction, captured and original length.
pub(crate) const RECORD_LEN: usize = 16;
/// Where the captured length stands.
const SIZE_AT: usize = 8;
/// The longest frame of a script, in bytes.
pub(crate) const FRAME_ROOM: usize = 2048;

/// A packet of a capture.
#[derive(Clone, Copy)]
pub struct Packet<'a> {
    /// When it was captured, in milliseconds since 1970.
    pub at: u64,
    pub bytes: &'a [u8],
}

/// How many fractions a millisecond has.
fn fractions_of_one(fraction: Fraction) -> u64
    ensures { result ≡ fractions_of_one fraction }
{
    match fraction {
        Fraction::Microseconds => 1000,
        Fraction::Nanoseconds => 1_000_000,
    }
}

/// The moment of the record in front.
fn moment_at(form: Form, bytes: &[u8]) -> u64
    requires { 16 ≤ length bytes.now }
    ensures { result ≡ moment_at form bytes.now }
{
    let seconds = u64::from(number_at(form.order, bytes, 0));
    let fraction = u64::from(number_at(form.order, bytes, 4));
    seconds * 1000 + fraction / fractions_of_one(form.fraction)
}

/// The first packet of records, and the records after it. A record that runs past the end is none.
#[tactic(auto, using(crate::proofs::PacketSteps::too_short, crate::proofs::PacketSteps::cut_off, crate::proofs::PacketSteps::whole))]
pub(crate) fn first_packet<'a>(form: Form, bytes: &'a [u8]) -> Option<(Packet<'a>, &'a [u8])>
    ensures { MatchOption result (packets_in form bytes.now ≡ [])
        (λ x. packets_in form bytes.now ≡ packet_shown x.0 ∷ packets_in form x.1.now) }
{
    if bytes.len() < RECORD_LEN {
        return None;
    }
    let size = number_at(form.order, bytes, SIZE_AT) as usize;
    let (_, data) = bytes.split_at(RECORD_LEN);
    if data.len() < size {
        return None;
    }
    let (packet, rest) = data.split_at(size);
    let at = moment_at(form, bytes);
    Some((Packet { at, bytes: packet }, rest))
}
