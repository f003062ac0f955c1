//! Laws: a client's frames and its messages are the same thing.

ghost use Rattle.v4_frames.specs.Laws.{FitsDatagram, OthersSpellNothing, ReadsBack, SpelledAlone, SpellsOne};

/// The frame of a message spells that message, and it fits the largest datagram.
pub fn frames_are_read_back()
    ensures read { ReadsBack }
    ensures most { FitsDatagram }
{}

/// No frame spells two messages.
pub fn frames_spell_one_message()
    ensures { SpellsOne }
{}

/// What spells a message is its frame, byte for byte.
pub fn spelled_frames_alone()
    ensures { SpelledAlone }
{}

/// A frame of another kind than IPv4's, as an ARP probe is one, spells no message.
pub fn other_frames_spell_nothing()
    ensures { OthersSpellNothing }
{}
