//! A turn that is kept.
ghost use Rattle.std.specs.Prelude.{◌<◌, ◌^◌};

use audit_words::Entry;

/// What a turn of a life shows, at a moment that fits a transcript.
#[derive(Drop)]
pub struct ShownTurn {
    pub entry: Entry,
    pub ghost early: { entry.moment < 10 ^ 15 },
}
