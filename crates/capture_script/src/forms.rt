//! The header of a capture (draft-ietf-opsawg-pcap, section 4).

ghost use Rattle.std.specs.Prelude.{◌≡◌, ◌+◌, ◌≤◌, length, IfOk};
ghost use Rattle.capture_script.specs.Captures.{number_at, fraction_of, form_by, form_at, capture_form};

use byteorder::{BigEndian, ByteOrder, LittleEndian};
use thiserror::Error;

/// How long the header is, in bytes.
pub(crate) const HEADER_LEN: usize = 24;
/// Where the number with the link type stands.
pub(crate) const LINK_TYPE_AT: usize = 20;
/// The magic number of a capture whose fractions are microseconds.
pub(crate) const MICROSECONDS: u32 = 0xa1b2_c3d4;
/// The magic number of a capture whose fractions are nanoseconds.
pub(crate) const NANOSECONDS: u32 = 0xa1b2_3c4d;
/// The link type of Ethernet.
pub(crate) const ETHERNET: u32 = 1;

/// Why bytes are no capture that can be imported.
#[derive(Clone, Copy, Debug, PartialEq, Eq, Error)]
pub enum CaptureCause {
    /// There are fewer bytes than a header has.
    #[error("Short")]
    Short,
    /// The first four bytes are no magic number in either order; those of pcapng aren't.
    #[error("Magic")]
    Magic,
    /// The link isn't Ethernet.
    #[error("LinkType")]
    LinkType,
}

/// In which order the bytes of each number stand.
#[derive(Clone, Copy, PartialEq, Eq)]
pub enum Order {
    /// The highest byte first.
    Big,
    /// The lowest byte first.
    Little,
}

/// What the fraction of a packet's moment counts.
#[derive(Clone, Copy, PartialEq, Eq)]
pub enum Fraction {
    Microseconds,
    Nanoseconds,
}

/// How the numbers of a capture are to be read.
#[derive(Clone, Copy, PartialEq, Eq)]
pub struct Form {
    pub order: Order,
    pub fraction: Fraction,
}

/// The number of four bytes at a place.
pub(crate) fn number_at(order: Order, bytes: &[u8], at: usize) -> u32
    requires { at + 4 ≤ length bytes.now }
    ensures { result ≡ number_at order at bytes.now }
{
    match order {
        Order::Big => BigEndian::read_u32(&bytes[at..]),
        Order::Little => LittleEndian::read_u32(&bytes[at..]),
    }
}

/// What a magic number says of fractions.
fn fraction_of(magic: u32) -> Option<Fraction>
    ensures { result ≡ fraction_of magic }
{
    match magic {
        MICROSECONDS => Some(Fraction::Microseconds),
        NANOSECONDS => Some(Fraction::Nanoseconds),
        _ => None,
    }
}

/// The form of a capture whose numbers stand in this order.
fn form_by(order: Order, bytes: &[u8]) -> Option<Form>
    requires { 4 ≤ length bytes.now }
    ensures { result ≡ form_by order bytes.now }
{
    let fraction = fraction_of(number_at(order, bytes, 0))?;
    Some(Form { order, fraction })
}

/// The form that the first four bytes tell.
#[tactic(auto, unfolding(crate::specs::Captures::form_at))]
fn form_at(bytes: &[u8]) -> Option<Form>
    requires { 4 ≤ length bytes.now }
    ensures { result ≡ form_at bytes.now }
{
    match form_by(Order::Big, bytes) {
        Some(form) => Some(form),
        None => form_by(Order::Little, bytes),
    }
}

/// The form of a capture, or the first cause by which the bytes are none.
#[tactic(auto, unfolding(crate::specs::Captures::capture_form))]
pub(crate) fn capture_form(bytes: &[u8]) -> Result<Form, CaptureCause>
    ensures is { result ≡ capture_form bytes.now }
    ensures long { IfOk result (λ _. 24 ≤ length bytes.now) }
{
    if bytes.len() < HEADER_LEN {
        return Err(CaptureCause::Short);
    }
    let Some(form) = form_at(bytes) else {
        return Err(CaptureCause::Magic);
    };
    if number_at(form.order, bytes, LINK_TYPE_AT) % 65_536 == ETHERNET {
        Ok(form)
    } else {
        Err(CaptureCause::LinkType)
    }
}
