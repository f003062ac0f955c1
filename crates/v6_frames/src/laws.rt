//! Laws: a client's frames and its messages are the same thing, and a server's are heard.

ghost use Rattle.std.specs.Prelude.{◌≡◌, ◌≤◌, length};
ghost use Rattle.std.specs.Option.{option_map};
ghost use Rattle.udp_frame.specs.declared.dhcp6.TheConstants.{CLIENT_PORT};
ghost use Rattle.udp_frame.specs.LinkLocal6.{link_local};
ghost use Rattle.udp_frame.specs.Udp6Frames.{udp6_frame_text};
ghost use Rattle.v6_message.specs.Replies.{message6_in};
ghost use Rattle.v6_frames.specs.Heard.{heard6_in, with_source};
ghost use Rattle.v6_frames.specs.Laws.{FitsDatagram, OthersSpellNothing, ReadsBack, SpelledAlone, SpellsOne};

use udp_frame::Ends6;

/// The frame of a message spells that message, and it fits a datagram.
pub fn frames_are_read_back()
    ensures read { ReadsBack }
    ensures most { FitsDatagram }
{}

/// No frame spells two messages.
pub fn frames_spell_one_message()
    ensures { SpellsOne }
{}

/// What spells a message is its frame, byte for byte.
pub fn spelled_frames_alone()
    ensures { SpelledAlone }
{}

/// A frame of another kind than IPv6's, as ARP's and IPv4's, spells no message.
pub fn other_frames_spell_nothing()
    ensures { OthersSpellNothing }
{}

/// A frame to the interface's addresses and the client's port has for the client exactly the message that its data
/// is, from whatever port it comes.
pub fn frames_to_the_client_are_heard(ends: Ends6, from_port: u16, payload: &[u8])
    requires len { length payload.now ≤ 1472 }
    requires to { ends.to.number ≡ (link_local ends.to_mac).number }
    ensures { heard6_in ends.to_mac (udp6_frame_text ends from_port CLIENT_PORT payload.now)
        ≡ option_map (with_source ends.from_mac) (message6_in payload.now) }
{}
