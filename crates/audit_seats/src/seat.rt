//! What is known of an interface that is judged.
ghost use Rattle.std.specs.Prelude.{◌≡◌};
ghost use Rattle.audit_words.specs.Shown.{FitsSite};

use audit_words::Site;
use std::marker::Model;

/// What is known of an interface when a life begins, within the bounds of its texts.
#[derive(Drop)]
pub struct Seat {
    site: Site,
}

impl Model for Seat {
    ghost use Rattle.audit_words.specs.declared.shown.Site.{Site};
    ghost use Rattle.audit_words.specs.Shown.{FitsSite};

    ghost Value = { Site };

    ghost view = { λ seat. seat.site };

    ghost invariant = { λ seat. FitsSite seat.site };
}

impl Seat {
    /// The seat of an interface of which nothing was told yet.
    pub fn new(site: Site) -> Seat
        requires { FitsSite site }
        ensures { result ≡ site }
    {
        Seat { site }
    }

    /// Where the interface stands.
    pub fn site(&self) -> &Site
        ensures same { result.now ≡ self.now }
        ensures fits { FitsSite result.now }
    {
        &self.site
    }
}
