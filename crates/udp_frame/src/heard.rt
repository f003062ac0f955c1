//! Laws: what is spelled is heard as what was said.

ghost use Rattle.std.specs.Prelude.{◌≡◌, ◌≤◌, ◌+◌, ◌++◌, length, Some};
ghost use Rattle.frame_link.specs.Frames.{frame_in};
ghost use Rattle.udp_frame.specs.Udp4Frames.{said4, udp4_frame, udp4_frame_text, udp4_in, udp4_text};
ghost use Rattle.udp_frame.specs.Udp6Frames.{said6, udp6_frame, udp6_frame_text, udp6_in, udp6_text};

use crate::udp4::Ends4;
use crate::udp6::Ends6;

/// What `build_udp4` spells is heard as what was said: `eth_of` finds the ends and the packet in it, and
/// `udp4_of` the datagram in the packet, whatever pads it.
pub fn udp4_is_heard(ends: Ends4, from_port: u16, to_port: u16, payload: &[u8], padding: &[u8])
    requires { length payload.now ≤ 1472 }
    ensures len { length (udp4_frame_text ends from_port to_port payload.now) ≡ 42 + length payload.now }
    ensures frame { frame_in (udp4_frame_text ends from_port to_port payload.now)
        ≡ Some (udp4_frame ends from_port to_port payload.now) }
    ensures packet { let said = said4 ends.from ends.to from_port to_port payload.now in
        udp4_in (udp4_text said) ≡ Some said }
    ensures padded { let said = said4 ends.from ends.to from_port to_port payload.now in
        udp4_in (udp4_text said ++ padding.now) ≡ Some said }
{}

/// What `build_udp6` spells is heard as what was said: `eth_of` finds the ends and the packet in it, and
/// `udp6_of` the datagram in the packet, whatever pads it.
pub fn udp6_is_heard(ends: Ends6, from_port: u16, to_port: u16, payload: &[u8], padding: &[u8])
    requires { length payload.now ≤ 1472 }
    ensures len { length (udp6_frame_text ends from_port to_port payload.now) ≡ 62 + length payload.now }
    ensures frame { frame_in (udp6_frame_text ends from_port to_port payload.now)
        ≡ Some (udp6_frame ends from_port to_port payload.now) }
    ensures packet { let said = said6 ends.from ends.to from_port to_port payload.now in
        udp6_in (udp6_text said) ≡ Some said }
    ensures padded { let said = said6 ends.from ends.to from_port to_port payload.now in
        udp6_in (udp6_text said ++ padding.now) ≡ Some said }
{}
