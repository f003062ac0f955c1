//! Directives that say a number of seconds, the last of which counts.
ghost use Rattle.std.specs.Prelude.{◌≡◌, []};
ghost use Rattle.conf_scopes.specs.Times.{times_in_force, times_of, with_seconds};

use conf_directives::SecondsName;
use settings::Times;

/// What the lines of a scope say, in seconds.
#[derive(Clone, Copy)]
pub struct TimesSaid {
    pub timeout: Option<u32>,
    pub reboot: Option<u32>,
}

impl TimesSaid {
    /// Nothing is said.
    pub fn none() -> TimesSaid
        ensures { result ≡ times_of [] }
    {
        TimesSaid {
            timeout: None,
            reboot: None,
        }
    }

    /// Takes what one line more says.
    pub fn say(&mut self, name: SecondsName, seconds: u32)
        ensures { self.new ≡ with_seconds (name, seconds) self.old }
    {
        match name {
            SecondsName::Timeout => self.timeout = Some(seconds),
            SecondsName::Reboot => self.reboot = Some(seconds),
        }
    }

    /// What is in force where a block says these, and the global lines the others.
    pub fn in_force(self, global: TimesSaid) -> Times
        ensures { result ≡ times_in_force global self }
    {
        let usual = Times::usual();
        Times {
            timeout: self.timeout.or(global.timeout).unwrap_or(usual.timeout),
            reboot: self.reboot.or(global.reboot).unwrap_or(usual.reboot),
        }
    }
}
