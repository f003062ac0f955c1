//! The numbers that the definitions take from the code. The function does nothing: its contract holds each of them.

ghost use Rattle.std.specs.Prelude.{◌≡◌};

use crate::forms::{ETHERNET, HEADER_LEN, LINK_TYPE_AT, MICROSECONDS, NANOSECONDS};
use crate::packets::{FRAME_ROOM, RECORD_LEN};

/// Law: the layout of a capture (draft-ietf-opsawg-pcap, sections 4 and 5), and the longest frame of a script.
pub fn layout_of_captures()
    ensures microseconds { MICROSECONDS ≡ 2712847316 }
    ensures nanoseconds { NANOSECONDS ≡ 2712812621 }
    ensures header_len { HEADER_LEN ≡ 24 }
    ensures link_type_at { LINK_TYPE_AT ≡ 20 }
    ensures ethernet { ETHERNET ≡ 1 }
    ensures record_len { RECORD_LEN ≡ 16 }
    ensures frame_room { FRAME_ROOM ≡ 2048 }
{}
