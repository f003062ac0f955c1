//! Directives of one word, which are on where a line has them.
ghost use Rattle.std.specs.Prelude.{◌≡◌, ◌||◌};
ghost use Rattle.settings.specs.Flags.{either, no_flags};

/// Which of them are on.
#[derive(Clone, Copy, PartialEq, Eq)]
pub struct Flags {
    /// `ipv4only`: DHCPv6 doesn't run.
    pub ipv4only: bool,
    /// `ipv6only`: neither DHCPv4 runs, nor is a link-local address chosen.
    pub ipv6only: bool,
    /// `nodhcp`: no DHCPv4 runs.
    pub nodhcp: bool,
    /// `nodhcp6`: no DHCPv6 runs.
    pub nodhcp6: bool,
    /// `noipv4ll`: no link-local address is chosen.
    pub noipv4ll: bool,
    /// `noarp`: a leased address is used without being probed first.
    pub noarp: bool,
    /// `nodelay`: the first DISCOVER, and the first SOLICIT, goes out without the random delay.
    pub nodelay: bool,
    /// `broadcast`: servers are asked to answer by broadcast (RFC 2131, section 4.1).
    pub broadcast: bool,
    /// `release`: the server of a held lease is told at a stop.
    pub release: bool,
    /// `persistent`: a lease that was filed stays in force while it is reconfirmed.
    pub persistent: bool,
}

fn is_either(one: bool, other: bool) -> bool
    ensures { result ≡ (one || other) }
{
    one || other
}

impl Flags {
    /// None is on.
    pub fn none() -> Flags
        ensures { result ≡ no_flags }
    {
        Flags {
            ipv4only: false,
            ipv6only: false,
            nodhcp: false,
            nodhcp6: false,
            noipv4ll: false,
            noarp: false,
            nodelay: false,
            broadcast: false,
            release: false,
            persistent: false,
        }
    }

    /// Those that are on in either.
    pub fn or(self, other: Flags) -> Flags
        ensures { result ≡ either self other }
    {
        Flags {
            ipv4only: is_either(self.ipv4only, other.ipv4only),
            ipv6only: is_either(self.ipv6only, other.ipv6only),
            nodhcp: is_either(self.nodhcp, other.nodhcp),
            nodhcp6: is_either(self.nodhcp6, other.nodhcp6),
            noipv4ll: is_either(self.noipv4ll, other.noipv4ll),
            noarp: is_either(self.noarp, other.noarp),
            nodelay: is_either(self.nodelay, other.nodelay),
            broadcast: is_either(self.broadcast, other.broadcast),
            release: is_either(self.release, other.release),
            persistent: is_either(self.persistent, other.persistent),
        }
    }
}
