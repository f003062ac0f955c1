//! Records of calls, the numbers of those that fail, and copies that may want memory.

ghost use Rattle.std.specs.Prelude.{◌≡◌, ◌+◌, ◌<◌, ◌≤◌, [], ◌∷◌, ◌++◌, length, take, min, IfOk, IfErr, IsOk, IsErrAnd, OnOk, vec_len};
ghost use Rattle.std.specs.String.{string_bytes};
ghost use Rattle.std.specs.Vec.{vec_capacity};
ghost use Rattle.world.specs.Causes.{has_number};

use std::alloc::Global;
use std::marker::Model;
use world::DeviceAnswer;

/// Makes room for so many more entries in a device's record.
pub fn make_room<E>(entries: &mut Vec<E>, more: usize) -> Result<(), DeviceAnswer>
    ensures items { entries.new.items ≡ entries.old.items }
    ensures len { vec_len entries.new ≡ vec_len entries.old }
    ensures room { OnOk result (vec_len entries.new + more ≤ vec_capacity entries.new) }
    ensures capacity { vec_capacity entries.old ≤ vec_capacity entries.new }
    ensures err { IfErr result (λ e. e ≡ DeviceAnswer.NoMemory) }
{
    match entries.reserve(more) {
        Ok(()) => Ok(()),
        Err(_) => Err(DeviceAnswer::NoMemory),
    }
}

/// The numbers of the calls that fail. One is found quickly where they stand in rising order.
#[derive(Drop)]
pub struct Numbers {
    list: Vec<u64>,
    rises: bool,
}

impl Model for Numbers {
    ghost use Rattle.std.specs.Prelude.{◌≡◌, true, ℕ, List};
    ghost use Rattle.std.specs.List.Sorted.{IsNonDecreasing};

    ghost Value = { List ℕ };

    ghost view = { λ numbers. numbers.list.items };

    ghost invariant = { λ numbers. numbers.rises ≡ true → IsNonDecreasing numbers.list.items };
}

impl Numbers {
    pub fn new(list: Vec<u64>) -> Numbers
        ensures { result ≡ list.items }
    {
        let rises = list.is_sorted();
        Numbers { list, rises }
    }

    pub fn has(&self, number: u64) -> bool
        ensures { result ≡ has_number self.now number }
    {
        if self.rises {
            self.list.binary_search(&number).is_ok()
        } else {
            self.list.contains(&number)
        }
    }
}

/// Makes room for one more entry, and says whether that call, by its number from 1, is one of those that fail.
pub fn next_fails<E>(entries: &mut Vec<E>, fails: &Numbers) -> Result<bool, DeviceAnswer>
    ensures items { entries.new.items ≡ entries.old.items }
    ensures room { OnOk result (vec_len entries.new < vec_capacity entries.new) }
    ensures fails { IfOk result (λ b. b ≡ has_number fails.now (length entries.old.items + 1)) }
    ensures err { IfErr result (λ e. e ≡ DeviceAnswer.NoMemory) }
{
    make_room(entries, 1)?;
    let number = entries.len() as u64 + 1;
    Ok(fails.has(number))
}

/// Enters a call for which there is room.
pub fn enter<E: Drop>(entries: &mut Vec<E>, entry: E)
    requires { vec_len entries.old < vec_capacity entries.old }
    ensures items { entries.new.items ≡ entries.old.items ++ entry ∷ [] }
    ensures len { vec_len entries.new ≡ vec_len entries.old + 1 }
    ensures capacity { vec_capacity entries.old ≤ vec_capacity entries.new }
{
    let _ = entries.push(entry);
}

/// Enters a call that was done, for which there is room, and answers so.
pub fn accept<E: Drop>(entries: &mut Vec<E>, entry: E) -> Result<(), DeviceAnswer>
    requires { vec_len entries.old < vec_capacity entries.old }
    ensures entered { entries.new.items ≡ entries.old.items ++ entry ∷ [] }
    ensures done { IsOk result }
{
    enter(entries, entry);
    Ok(())
}

/// Enters a call that failed, for which there is room, and answers so.
pub fn refuse<T, E: Drop>(entries: &mut Vec<E>, entry: E) -> Result<T, DeviceAnswer>
    requires { vec_len entries.old < vec_capacity entries.old }
    ensures entered { entries.new.items ≡ entries.old.items ++ entry ∷ [] }
    ensures failed { IsErrAnd result (λ answer. answer ≡ DeviceAnswer.Failed) }
{
    enter(entries, entry);
    Err(DeviceAnswer::Failed)
}

/// The number of the next call after so many. A count past its range is want of memory.
pub fn next_number(count: u64) -> Result<u64, DeviceAnswer>
    ensures ok { IfOk result (λ number. number ≡ count + 1) }
    ensures err { IfErr result (λ e. e ≡ DeviceAnswer.NoMemory) }
{
    match count.checked_add(1) {
        Some(number) => Ok(number),
        None => Err(DeviceAnswer::NoMemory),
    }
}

/// A copy of some bytes.
pub fn copy_bytes(alloc: Global, bytes: &[u8]) -> Result<Vec<u8>, DeviceAnswer>
    ensures ok { IfOk result (λ copy. copy.items ≡ bytes.now) }
    ensures err { IfErr result (λ e. e ≡ DeviceAnswer.NoMemory) }
{
    match bytes.to_vec(alloc) {
        Ok(copy) => Ok(copy),
        Err(_) => Err(DeviceAnswer::NoMemory),
    }
}

/// A copy of a text.
pub fn copy_text(alloc: Global, text: &str) -> Result<String, DeviceAnswer>
    ensures ok { IfOk result (λ copy. string_bytes copy ≡ text.now) }
    ensures err { IfErr result (λ e. e ≡ DeviceAnswer.NoMemory) }
{
    match String::from_str(alloc, text) {
        Ok(copy) => Ok(copy),
        Err(_) => Err(DeviceAnswer::NoMemory),
    }
}

/// Puts as many of the first bytes as there is room for at the front of a buffer, and says how many.
pub fn fill_front(buf: &mut [u8], bytes: &[u8]) -> usize
    ensures len { result ≡ min (length bytes.now) (length buf.old) }
    ensures front { take result buf.new ≡ take result bytes.now }
{
    let len = bytes.len().min(buf.len());
    buf[..len].copy_from_slice(&bytes[..len]);
    len
}
