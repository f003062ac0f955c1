//! Why hook scripts are run, and the words that tell them so.

ghost use Rattle.std.specs.Prelude.{◌≡◌};
ghost use Rattle.world.specs.Reasons.{reason_word};

/// Why a hook runs, as in dhcpcd-run-hooks(8).
#[derive(Clone, Copy, Debug, PartialEq, Eq)]
pub enum Reason {
    Preinit,
    Carrier,
    NoCarrier,
    StaticLine,
    Bound,
    Reboot,
    Renew,
    Rebind,
    Nak,
    Expire,
    Timeout,
    Ipv4ll,
    Stop,
    Stop6,
    Stopped,
    Bound6,
    Reboot6,
    Renew6,
    Rebind6,
    Expire6,
    Delegated6,
}

/// The word by which a hook script knows the reason.
pub fn reason_text(reason: Reason) -> &'static str
    ensures { result.now ≡ reason_word reason }
{
    match reason {
        Reason::Preinit => "PREINIT",
        Reason::Carrier => "CARRIER",
        Reason::NoCarrier => "NOCARRIER",
        Reason::StaticLine => "STATIC",
        Reason::Bound => "BOUND",
        Reason::Reboot => "REBOOT",
        Reason::Renew => "RENEW",
        Reason::Rebind => "REBIND",
        Reason::Nak => "NAK",
        Reason::Expire => "EXPIRE",
        Reason::Timeout => "TIMEOUT",
        Reason::Ipv4ll => "IPV4LL",
        Reason::Stop => "STOP",
        Reason::Stop6 => "STOP6",
        Reason::Stopped => "STOPPED",
        Reason::Bound6 => "BOUND6",
        Reason::Reboot6 => "REBOOT6",
        Reason::Renew6 => "RENEW6",
        Reason::Rebind6 => "REBIND6",
        Reason::Expire6 => "EXPIRE6",
        Reason::Delegated6 => "DELEGATED6",
    }
}
