//! A choice of a link-local address, and what a turn is to it. Moments are in milliseconds since 1970.

ghost use Rattle.std.specs.Prelude.{◌≡◌};
ghost use Rattle.local_judge.specs.Choices.{choice_after, is_apart, kept_choice};

use probe_table::is_past;

/// How long after a use by another host the next one may come at the earliest, if the address is to be kept
/// (RFC 3927, section 2.5).
const DEFEND_INTERVAL: u64 = 10_000;

/// A choice that stands: the moment of the newest turn that may be its fourth one, and that of the newest use by
/// another host since.
#[derive(Clone, Copy)]
pub struct Choice {
    pub since: u64,
    pub used: Option<u64>,
}

/// What a turn is to a chosen address: its moment, whether the choice may stand in it, whether the turn may be the
/// fourth one, and whether another host uses the address.
#[derive(Clone, Copy)]
pub struct ChoiceTurn {
    pub moment: u64,
    pub fits: bool,
    pub fourth: bool,
    pub used: bool,
}

/// Whether a use comes long enough after the one before it.
fn is_apart(before: Option<u64>, now: u64) -> bool
    ensures { result ≡ is_apart before now }
{
    match before {
        Some(_) => is_past(DEFEND_INTERVAL, before, now),
        None => true,
    }
}

impl ChoiceTurn {
    /// What is left of a choice in a turn that isn't its fourth one.
    fn kept(&self, choice: Choice) -> Option<Choice>
        ensures { result ≡ kept_choice self.now choice }
    {
        if !self.used {
            return Some(choice);
        }
        if !is_apart(choice.used, self.moment) {
            return None;
        }
        Some(Choice {
            since: choice.since,
            used: Some(self.moment),
        })
    }

    /// The choice after the turn, which may be its fourth one.
    pub fn choice_after(&self, choice: Option<Choice>) -> Option<Choice>
        ensures { result ≡ choice_after self.now choice }
    {
        if !self.fits {
            return None;
        }
        if self.fourth {
            return Some(Choice {
                since: self.moment,
                used: if self.used { Some(self.moment) } else { None },
            });
        }
        match choice {
            Some(choice) => self.kept(choice),
            None => None,
        }
    }
}
