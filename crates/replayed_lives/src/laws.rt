//! What holds of all scripts.
ghost use Rattle.replayed_lives.specs.HooksApart.{HooksChangeNothing};

/// Law: hooks change nothing but their own lines. Over scripts that are the same but for what polls of hooks answer,
/// and which of their starts fail, the lines of each life are the same that aren't of hooks, but for the moments that
/// waits are asked for.
pub fn hooks_change_nothing()
    ensures { HooksChangeNothing }
{}
