//! The types of messages, by their numbers (RFC 2132, section 9.6).
ghost use Rattle.std.specs.Prelude.{◌≡◌};
ghost use Rattle.v4_message.specs.Kinds.{kind_with};

/// A client looks for servers (RFC 2131, section 3.1).
pub const DISCOVER: u8 = 1;

/// A server offers an address.
pub const OFFER: u8 = 2;

/// A client asks for an address, or for more time.
pub const REQUEST: u8 = 3;

/// A client found its address in use.
pub const DECLINE: u8 = 4;

/// A server commits a lease.
pub const ACK: u8 = 5;

/// A server refuses a client's notion of its address.
pub const NAK: u8 = 6;

/// A client gives its address back.
pub const RELEASE: u8 = 7;

/// A client that has an address asks for parameters alone.
pub const INFORM: u8 = 8;

/// The type of a message.
#[derive(Clone, Copy, Debug, PartialEq, Eq)]
pub enum MessageKind {
    /// A client looks for servers.
    Discover,
    /// A server offers an address.
    Offer,
    /// A client asks for an address, or to keep one.
    Request,
    /// A client found its address in use.
    Decline,
    /// A server grants an address.
    Ack,
    /// A server refuses an address.
    Nak,
    /// A client gives its address back.
    Release,
    /// A client asks for options alone.
    Inform,
}

/// The type with this number, where there is one.
pub fn kind_with(number: u8) -> Option<MessageKind>
    ensures { result ≡ kind_with number }
{
    match number {
        DISCOVER => Some(MessageKind::Discover),
        OFFER => Some(MessageKind::Offer),
        REQUEST => Some(MessageKind::Request),
        DECLINE => Some(MessageKind::Decline),
        ACK => Some(MessageKind::Ack),
        NAK => Some(MessageKind::Nak),
        RELEASE => Some(MessageKind::Release),
        INFORM => Some(MessageKind::Inform),
        _ => None,
    }
}
