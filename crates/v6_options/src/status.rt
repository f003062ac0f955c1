//! Statuses: how a request went.

ghost use Rattle.std.specs.Prelude.{◌≡◌, ◌==◌};
ghost use Rattle.v6_options.specs.Statuses.{status_in, success};

use crate::area::word_at;
use crate::code;
use crate::options::first_value;

/// How a request went, by its number (RFC 8415, section 21.13).
#[derive(Clone, Copy, Debug, PartialEq, Eq)]
pub struct Status {
    pub number: u16,
}

impl Status {
    /// All went well.
    pub const SUCCESS: Status = Status { number: 0 };
    /// It failed for a reason that no other status tells.
    pub const UNSPEC_FAIL: Status = Status { number: 1 };
    /// The server has no address for the IA.
    pub const NO_ADDRS_AVAIL: Status = Status { number: 2 };
    /// The server knows nothing of the IA.
    pub const NO_BINDING: Status = Status { number: 3 };
    /// An address or a prefix isn't of the link.
    pub const NOT_ON_LINK: Status = Status { number: 4 };
    /// The client is to send to all servers.
    pub const USE_MULTICAST: Status = Status { number: 5 };
    /// The server has no prefix for the IA.
    pub const NO_PREFIX_AVAIL: Status = Status { number: 6 };

    /// Whether the status says success (RFC 8415, section 21.13).
    pub fn is_success(self) -> bool
        ensures { result ≡ (self.number == success) }
    {
        self.number == Status::SUCCESS.number
    }
}

/// The status among options, by the first status option. Without one all went well.
pub fn status_of(options: &[u8]) -> Status
    ensures { result.number ≡ status_in options.now }
{
    match first_value(options, code::STATUS_CODE) {
        Some(value) => Status {
            number: word_at(value, 0),
        },
        None => Status::SUCCESS,
    }
}
