//! The reading of an input to its end; one of more than 16,777,216 bytes is refused.

ghost use Rattle.std.specs.Prelude.{◌≡◌, ◌≢◌, ◌≤◌, ◌<◌, ◌+◌, true, Ok, Err, IfOk, IfErr, length, vec_len};
ghost use Rattle.text_works.specs.Input.{CountsTaken, Moves, TakesSome, ReadsWithin, IsInput, IsTooLong, input_told, limit};
ghost use Rattle.text_works.specs.Statuses.{HasStatusCause, StopsReading};

use crate::status::Status;
use std::alloc::Global;
use world::{Failed, NoMemory, Source};

/// The most bytes that an input may have.
const LIMIT: usize = 16_777_216;

/// How many bytes are read at once.
const PIECE: usize = 65_536;

/// Reads some bytes, at most as many as the piece has room for, and appends them.
#[tactic(auto, using(crate::proofs::Inputs::takes_none, crate::proofs::Inputs::takes_some, crate::proofs::Inputs::reads_once))]
fn read_some<I: Source>(input: &mut I, piece: &mut [u8], all: &mut Vec<u8>) -> Result<usize, Status>
    requires { 0 < length piece.old }
    ensures moved { IfOk result (λ n. Moves (I.left input.old) (I.left input.new) all.old.items all.new.items n) }
    ensures count { IfOk result
        (λ n. (vec_len all.new ≡ vec_len all.old + n) × (n ≤ length piece.old)
        × (I.faults input.old ≤ I.faults input.new)) }
    ensures cause { IfErr result
        (λ status. HasStatusCause status (I.faults input.old) (I.faults input.new) 0 0 × StopsReading status) }
    ensures counted { IfOk result (λ n. CountsTaken n (I.taken input.old) (I.taken input.new)) }
    ensures taken { IfErr result
        (λ _. TakesSome (length piece.old) (input_told (I.left input.old) (I.taken input.old) (I.reads input.old))
        (input_told (I.left input.new) (I.taken input.new) (I.reads input.new))) }
    ensures reads { I.reads input.new ≤ I.reads input.old + 1 }
    ensures steady { I.never_fails input.old ≡ true → I.faults input.new ≡ I.faults input.old }
    ensures stays { I.never_fails input.new ≡ I.never_fails input.old }
    ensures any_length { result ≢ Err Status.TooLong }
{
    match input.read(piece) {
        Ok(n) => {
            let (front, _rest) = piece.split_at(n);
            all.extend_from_slice(front).map_err(|_| NoMemory)?;
            Ok(n)
        }
        Err(Failed) => Err(Status::ReadFault),
    }
}

fn piece_buffer(alloc: Global) -> Result<Vec<u8>, NoMemory>
    ensures { IfOk result (λ buf. vec_len buf ≡ 65536) }
{
    Ok(vec![in alloc; 0u8; PIECE]?)
}

/// Reads all of the input, up to its limit.
#[tactic(auto, using(crate::proofs::Inputs::within_none, crate::proofs::Inputs::within_read, crate::proofs::Inputs::within_stopped))]
pub fn read_all<I: Source>(alloc: Global, input: &mut I) -> Result<Vec<u8>, Status>
    ensures ok { IfOk result (λ all. IsInput (I.left input.old) all.items × (I.faults input.old ≤ I.faults input.new)) }
    ensures in_limit { IfOk result (λ all. length all.items ≤ limit) }
    ensures cause { IfErr result
        (λ status. HasStatusCause status (I.faults input.old) (I.faults input.new) 0 0 × StopsReading status) }
    ensures too_long { result ≡ Err Status.TooLong → IsTooLong (I.left input.old) }
    ensures reads { ReadsWithin (input_told (I.left input.old) (I.taken input.old) (I.reads input.old))
        (input_told (I.left input.new) (I.taken input.new) (I.reads input.new)) }
    ensures steady { I.never_fails input.old ≡ true → I.faults input.new ≡ I.faults input.old }
    ensures stays { I.never_fails input.new ≡ I.never_fails input.old }
{
    let mut all = Vec::new(alloc);
    let mut buf = piece_buffer(alloc)?;
    'pieces: while all.len() <= LIMIT {
        let room = PIECE.min(LIMIT + 1 - all.len());
        let n = read_some(input, &mut buf[..room], &mut all)?;
        if n == 0 {
            return Ok(all);
        }
    }
    Err(Status::TooLong)
}
