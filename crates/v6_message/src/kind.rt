//! The types of messages, by their numbers (RFC 8415, section 7.3).

ghost use Rattle.std.specs.Prelude.{◌≡◌};
ghost use Rattle.v6_message.specs.Kinds.{number_of_kind, server_kind_by};

const SOLICIT: u8 = 1;

const ADVERTISE: u8 = 2;

const REQUEST: u8 = 3;

const RENEW: u8 = 5;

const REBIND: u8 = 6;

const REPLY: u8 = 7;

const RELEASE: u8 = 8;

const DECLINE: u8 = 9;

/// The messages that a client says (RFC 8415, section 7.3).
#[derive(Clone, Copy, Debug, PartialEq, Eq)]
pub enum Kind6 {
    /// It looks for servers.
    Solicit,
    /// It asks a server for what that offered.
    Request,
    /// It asks its server to keep what it has.
    Renew,
    /// It asks any server to keep what it has.
    Rebind,
    /// It gives back what it has.
    Release,
    /// It found addresses in use.
    Decline,
}

/// The messages of a server to a client (RFC 8415, section 7.3).
#[derive(Clone, Copy, Debug, PartialEq, Eq)]
pub enum ServerKind6 {
    /// It offers.
    Advertise,
    /// It answers a request, or a SOLICIT with rapid commit.
    Reply,
}

impl Kind6 {
    /// The number of the type.
    pub fn number(self) -> u8
        ensures { result ≡ number_of_kind self }
    {
        match self {
            Kind6::Solicit => SOLICIT,
            Kind6::Request => REQUEST,
            Kind6::Renew => RENEW,
            Kind6::Rebind => REBIND,
            Kind6::Release => RELEASE,
            Kind6::Decline => DECLINE,
        }
    }
}

/// The server's message of this number.
pub(crate) fn server_kind_of(number: u8) -> Option<ServerKind6>
    ensures { result ≡ server_kind_by number }
{
    match number {
        ADVERTISE => Some(ServerKind6::Advertise),
        REPLY => Some(ServerKind6::Reply),
        _ => None,
    }
}
