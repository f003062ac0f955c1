//! The numbers that the definitions take from the code. The function does nothing: its contract holds each of them.

ghost use Rattle.std.specs.Prelude.{◌≡◌};

use crate::datagrams::{CARRIER, DUPLICATE, FRAME, FRAME_LIMIT, HEAD, REBIND, RELEASE, STOP};
use crate::links::{GLANCE, IDLE, LONGEST, SHORT};
use crate::loopback::LOOPBACK;
use crate::salts::{FIRST, SECOND, STRIDE};

/// Law: the kinds of the loopback link's datagrams, the bytes of a frame, and how long a wait lasts, in milliseconds.
pub fn datagrams_are_these()
    ensures frame_limit { FRAME_LIMIT ≡ 2048 }
    ensures head { HEAD ≡ 2 }
    ensures frame { FRAME ≡ 1 }
    ensures carrier { CARRIER ≡ 2 }
    ensures duplicate { DUPLICATE ≡ 3 }
    ensures release { RELEASE ≡ 4 }
    ensures rebind { REBIND ≡ 5 }
    ensures stop { STOP ≡ 6 }
    ensures idle { IDLE ≡ 60000 }
    ensures longest { LONGEST ≡ 4294967295 }
    ensures short { SHORT ≡ 200 }
    ensures glance { GLANCE ≡ 10 }
{}

/// Law: the number of the address 127.0.0.1.
pub fn loopback_is_this()
    ensures loopback { LOOPBACK ≡ 2130706433 }
{}

/// Law: the numbers of SplitMix64.
pub fn salts_are_these()
    ensures stride { STRIDE ≡ 11400714819323198485 }
    ensures first { FIRST ≡ 13787848793156543929 }
    ensures second { SECOND ≡ 10723151780598845931 }
{}
