//! The numbers that the definitions take from the code. The function does nothing: its contract holds each of them.

ghost use Rattle.std.specs.Prelude.{◌≡◌, [], ◌∷◌};

use crate::frames::{ADDRESS_BASE, LEASE, SALT};
use crate::hosts::{INTERFACES, MAC_FRONT};
use crate::script::BEGIN;
use crate::turns::{ACKS, FIRST_TURN, OFFERS, ROUND};
use server_data::{ReplyKind, SERVER, SERVER_MAC};

/// Law: what is measured. 64 interfaces with carrier from the moment 0 on; offers from 101 ms and ACKs from 201 ms on,
/// leases of an hour from 10.0.0.1, renewed each 1,800,200 ms.
pub fn measures_are_these()
    ensures interfaces { INTERFACES ≡ 64 }
    ensures mac_front { MAC_FRONT ≡ 2 ∷ 0 ∷ 0 ∷ 0 ∷ 1 ∷ [] }
    ensures server { SERVER.number ≡ 167772161 }
    ensures server_mac { SERVER_MAC.bytes ≡ 2 ∷ 0 ∷ 0 ∷ 0 ∷ 0 ∷ 254 ∷ [] }
    ensures address_base { ADDRESS_BASE.number ≡ 167772260 }
    ensures lease { LEASE ≡ 3600 }
    ensures salt { SALT ≡ 0 }
    ensures begin_at { BEGIN.at ≡ 0 }
    ensures begin_salt { BEGIN.salt ≡ 0 }
    ensures begin_up { BEGIN.up ≡ 18446744073709551615 }
    ensures first_turn { FIRST_TURN ≡ 1 }
    ensures round { ROUND ≡ 1800200 }
    ensures offers_kind { OFFERS.kind ≡ ReplyKind.Offer }
    ensures offers_after { OFFERS.after ≡ 100 }
    ensures offers_ahead { OFFERS.ahead ≡ 0 }
    ensures acks_kind { ACKS.kind ≡ ReplyKind.Ack }
    ensures acks_after { ACKS.after ≡ 200 }
    ensures acks_ahead { ACKS.ahead ≡ 0 }
{}
