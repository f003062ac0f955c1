//! Directives of one word, which are on where a line has them.
ghost use Rattle.std.specs.Prelude.{◌≡◌};
ghost use Rattle.conf_scopes.specs.Flags.{with_flag};

use conf_directives::FlagName;
use settings::Flags;

/// Turns one on.
pub fn turn_on(flags: &mut Flags, name: FlagName)
    ensures { flags.new ≡ with_flag name flags.old }
{
    match name {
        FlagName::Ipv4Only => flags.ipv4only = true,
        FlagName::Ipv6Only => flags.ipv6only = true,
        FlagName::NoDhcp => flags.nodhcp = true,
        FlagName::NoDhcp6 => flags.nodhcp6 = true,
        FlagName::NoIpv4ll => flags.noipv4ll = true,
        FlagName::NoArp => flags.noarp = true,
        FlagName::NoDelay => flags.nodelay = true,
        FlagName::Broadcast => flags.broadcast = true,
        FlagName::Release => flags.release = true,
        FlagName::Persistent => flags.persistent = true,
    }
}
