//! The first words of lines.
ghost use Rattle.std.specs.Prelude.{◌≡◌, map};
ghost use Rattle.conf_directives.specs.Names.{directive_at, heading_at, named};

use v6_options::IaKind;

/// A line that begins a block.
#[derive(Clone, Copy)]
pub enum HeadingName {
    /// `interface`: what follows holds for one interface.
    Interface,
    /// `profile`: what follows is skipped.
    Profile,
    /// `ssid`: what follows is skipped.
    Ssid,
}

/// A directive of one word. Further words on its line are ignored.
#[derive(Clone, Copy, Debug)]
pub enum FlagName {
    /// `ipv4only`: DHCPv6 doesn't run.
    Ipv4Only,
    /// `ipv6only`: neither DHCPv4 runs, nor is a link-local address chosen.
    Ipv6Only,
    /// `nodhcp`: no DHCPv4 runs.
    NoDhcp,
    /// `nodhcp6`: no DHCPv6 runs.
    NoDhcp6,
    /// `noipv4ll`: no link-local address is chosen.
    NoIpv4ll,
    /// `noarp`: a leased address is used without being probed first.
    NoArp,
    /// `nodelay`: the first DISCOVER goes out at once.
    NoDelay,
    /// `broadcast`: servers are asked to answer by broadcast.
    Broadcast,
    /// `release`: the server of a held lease is told at a stop.
    Release,
    /// `persistent`: a lease that was filed stays in force while it is reconfirmed.
    Persistent,
}

/// A directive of a number of seconds.
#[derive(Clone, Copy, Debug)]
pub enum SecondsName {
    /// `timeout`: for how long a lease is waited for before a link-local address is chosen.
    Timeout,
    /// `reboot`: for how long a kept lease is asked for again.
    Reboot,
}

/// A directive of options, by their names or codes.
#[derive(Clone, Copy, Debug)]
pub enum CodeList {
    /// `option`: they are asked for.
    Asked,
    /// `nooption`: they are neither asked for nor taken.
    Refused,
    /// `require`: without them no offer and no lease is taken.
    Required,
}

/// A directive of interfaces, by their names or how these begin.
#[derive(Clone, Copy, Debug)]
pub enum InterfaceList {
    /// `allowinterfaces`: no others are managed.
    Allowed,
    /// `denyinterfaces`: they aren't managed.
    Denied,
}

/// A directive whose arguments are one value or a list, each of a given form.
#[derive(Clone, Copy)]
pub enum ValueName {
    Seconds(SecondsName),
    /// `metric`: that of the interface's routes.
    Metric,
    /// `vendorclassid`: the vendor and kind of client that is told.
    VendorClass,
    /// `clientid`: what tells the client apart from others.
    ClientId,
    /// `env`: a variable of hooks.
    Env,
    /// `blacklist`: servers that aren't listened to.
    Blacklist,
    /// Stands before all blocks alone.
    Interfaces(InterfaceList),
    /// `script`: the program that hooks run. Stands before all blocks alone.
    Script,
}

/// A directive, by its first word.
#[derive(Clone, Copy)]
pub enum DirectiveName {
    Flag(FlagName),
    /// `duid`: the client is told apart by its DUID (RFC 4361). Further words are ignored.
    Duid,
    /// `static`: an address, or values that go before those of a lease.
    Static,
    /// `hostname`: the name that the client tells.
    HostName,
    Codes(CodeList),
    /// `ia_na`, `ia_pd`: an identity association (RFC 8415).
    Ia(IaKind),
    Value(ValueName),
}

/// What the first row of a word says.
pub(crate) fn named<X: Copy>(rows: &[(&str, X)], word: &[u8]) -> Option<X>
    ensures { result ≡ named (map (λ row. (row.0.now, row.1)) rows.now) word.now }
{
    for (name, said) in rows {
        if name.as_bytes() == word {
            return Some(*said);
        }
    }
    None
}

/// The heading that a word names.
#[tactic(auto, unfolding(crate::specs::Names::heading_at))]
pub fn heading_named(word: &[u8]) -> Option<HeadingName>
    ensures { result ≡ heading_at word.now }
{
    let rows = [
        ("interface", HeadingName::Interface),
        ("profile", HeadingName::Profile),
        ("ssid", HeadingName::Ssid),
    ];
    named(&rows, word)
}

/// The directive that a word names.
#[tactic(auto, unfolding(crate::specs::Names::directive_at))]
pub fn directive_named(word: &[u8]) -> Option<DirectiveName>
    ensures { result ≡ directive_at word.now }
{
    let rows = [
        ("ipv4only", DirectiveName::Flag(FlagName::Ipv4Only)),
        ("ipv6only", DirectiveName::Flag(FlagName::Ipv6Only)),
        ("nodhcp", DirectiveName::Flag(FlagName::NoDhcp)),
        ("nodhcp6", DirectiveName::Flag(FlagName::NoDhcp6)),
        ("noipv4ll", DirectiveName::Flag(FlagName::NoIpv4ll)),
        ("noarp", DirectiveName::Flag(FlagName::NoArp)),
        ("nodelay", DirectiveName::Flag(FlagName::NoDelay)),
        ("broadcast", DirectiveName::Flag(FlagName::Broadcast)),
        ("release", DirectiveName::Flag(FlagName::Release)),
        ("persistent", DirectiveName::Flag(FlagName::Persistent)),
        (
            "timeout",
            DirectiveName::Value(ValueName::Seconds(SecondsName::Timeout)),
        ),
        (
            "reboot",
            DirectiveName::Value(ValueName::Seconds(SecondsName::Reboot)),
        ),
        ("metric", DirectiveName::Value(ValueName::Metric)),
        ("hostname", DirectiveName::HostName),
        (
            "vendorclassid",
            DirectiveName::Value(ValueName::VendorClass),
        ),
        ("clientid", DirectiveName::Value(ValueName::ClientId)),
        ("duid", DirectiveName::Duid),
        ("option", DirectiveName::Codes(CodeList::Asked)),
        ("nooption", DirectiveName::Codes(CodeList::Refused)),
        ("require", DirectiveName::Codes(CodeList::Required)),
        ("static", DirectiveName::Static),
        ("ia_na", DirectiveName::Ia(IaKind::Na)),
        ("ia_pd", DirectiveName::Ia(IaKind::Pd)),
        ("env", DirectiveName::Value(ValueName::Env)),
        ("blacklist", DirectiveName::Value(ValueName::Blacklist)),
        (
            "allowinterfaces",
            DirectiveName::Value(ValueName::Interfaces(InterfaceList::Allowed)),
        ),
        (
            "denyinterfaces",
            DirectiveName::Value(ValueName::Interfaces(InterfaceList::Denied)),
        ),
        ("script", DirectiveName::Value(ValueName::Script)),
    ];
    named(&rows, word)
}
