//! The Ethernet frame round a packet.

ghost use Rattle.std.specs.Prelude.{◌≡◌, ◌≤◌, ◌+◌, ◌++◌, length, vec_len, IfOk};
ghost use Rattle.frame_link.specs.Fields.{word_text};

use net_types::{Mac, u16_octets};
use std::alloc::{AllocError, Global};

/// The header of a frame.
pub fn eth_header(to: Mac, from: Mac, kind: u16) -> [u8; 14]
    ensures { result ≡ to.bytes ++ from.bytes ++ word_text kind }
{
    let to = to.bytes;
    let from = from.bytes;
    let kind = u16_octets(kind);
    [
        to[0], to[1], to[2], to[3], to[4], to[5], // destination
        from[0], from[1], from[2], from[3], from[4], from[5], // source
        kind[0], kind[1],
    ]
}

/// The headers and the data in a vector of just their length.
pub fn joined(
    alloc: Global,
    eth: &[u8; 14],
    head: &[u8],
    ports: &[u8; 8],
    payload: &[u8],
) -> Result<Vec<u8>, AllocError>
    requires head { length head.now ≤ 40 }
    requires payload { length payload.now ≤ 1472 }
    ensures exact { IfOk result (λ v. v.items ≡ eth.now ++ head.now ++ ports.now ++ payload.now) }
    ensures len { IfOk result (λ v. vec_len v ≡ 22 + length head.now + length payload.now) }
{
    let len = eth.len() + head.len() + ports.len() + payload.len();
    let mut frame = Vec::with_capacity(alloc, len)?;
    frame.extend_from_slice(eth)?;
    frame.extend_from_slice(head)?;
    frame.extend_from_slice(ports)?;
    frame.extend_from_slice(payload)?;
    Ok(frame)
}
