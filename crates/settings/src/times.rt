//! Numbers of seconds that are configured.
ghost use Rattle.std.specs.Prelude.{◌≡◌};
ghost use Rattle.settings.specs.Times.{usual_times};

/// Those that are in force.
#[derive(Clone, Copy, PartialEq, Eq)]
pub struct Times {
    /// `timeout`: for how many seconds a lease is waited for before a link-local address is chosen; 0 is for ever.
    pub timeout: u32,
    /// `reboot`: for how many seconds a kept lease is asked for again; 0 is not at all.
    pub reboot: u32,
}

impl Times {
    /// Those in force where no line says any.
    pub fn usual() -> Times
        ensures { result ≡ usual_times }
    {
        Times {
            timeout: 30,
            reboot: 5,
        }
    }
}
