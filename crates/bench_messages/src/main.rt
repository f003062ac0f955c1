//! Reads a server's message and the values of its options many times, for the figure in bench/README.md.
//! The first argument is how many times, and the word `borrowed` after it says that the values are read in place,
//! `indexed` that they are read so by an index of the message's options.
#![tactic(auto)]

use net_types::NoMemory;
use option_index::{Found, OptionIndex};
use std::alloc::Global;
use std::{env, io};
use v4_message::{Msg4, read4};
use v4_options::{OptionView, addr_at, code, pieces_of, u32_at, value};

/// How the values are read.
#[derive(Clone, Copy)]
enum Way {
    /// Each is copied into memory of its own.
    Copied,
    /// Numbers and addresses are read as such, and the instances of the others one by one, where they lie.
    Borrowed,
    /// As `Borrowed`, where one pass over the message told where they lie.
    Indexed,
}

/// How many readings there are without an argument.
const READINGS: u32 = 100_000;

/// The options whose values are read.
const CODES: [u8; 15] = [
    code::MESSAGE_TYPE,
    code::SERVER_IDENTIFIER,
    code::LEASE_TIME,
    code::RENEWAL_TIME,
    code::REBINDING_TIME,
    code::SUBNET_MASK,
    code::BROADCAST_ADDRESS,
    code::ROUTERS,
    code::DOMAIN_NAME_SERVERS,
    code::NTP_SERVERS,
    code::INTERFACE_MTU,
    code::HOST_NAME,
    code::DOMAIN_NAME,
    code::DOMAIN_SEARCH,
    code::CLASSLESS_ROUTES,
];

/// The options area. Option 52 says that the field file holds options too.
const OPTIONS: [u8; 55] = *b"\x35\x01\x05\
    \x36\x04\x0a\x00\x00\x01\
    \x33\x04\x00\x00\x0e\x10\
    \x3a\x04\x00\x00\x07\x08\
    \x3b\x04\x00\x00\x0c\x4e\
    \x01\x04\xff\xff\xff\x00\
    \x1c\x04\x0a\x00\x00\xff\
    \x03\x04\x0a\x00\x00\x01\
    \x06\x04\x0a\x00\x00\x01\
    \x34\x01\x01\xff";

/// The field file.
const FILE: [u8; 55] = *b"\x2a\x04\x0a\x00\x00\x01\
    \x1a\x02\x05\xdc\
    \x0c\x04host\
    \x0f\x0bexample.com\
    \x77\x0d\x07example\x03com\x00\
    \x79\x08\x18\x0a\x00\x01\x0a\x00\x00\x01\xff";

/// An ACK of 300 bytes whose transaction number ends with this byte.
fn ack(number: u8) -> [u8; 300] {
    let mut message = [0; 300];
    message[..8].copy_from_slice(&[2, 1, 6, 0, 0, 0, 0, number]);
    message[16..20].copy_from_slice(&[10, 0, 0, 50]);
    message[28..34].copy_from_slice(&[2, 0, 0, 0, 0, 1]);
    message[108..163].copy_from_slice(&FILE);
    message[236..240].copy_from_slice(&[0x63, 0x82, 0x53, 0x63]);
    message[240..295].copy_from_slice(&OPTIONS);
    message
}

/// How many bytes the value of a code has, which is copied.
fn copied_len(alloc: Global, options: &OptionView, code: u8) -> Result<usize, NoMemory> {
    match value(alloc, options, code)? {
        Some(value) => Ok(value.len()),
        None => Ok(0),
    }
}

/// How many bytes the instances of a code have.
fn pieces_len(options: &OptionView, code: u8) -> usize {
    let mut len = 0usize;
    for piece in pieces_of(options, code) {
        len = len.wrapping_add(piece.len());
    }
    len
}

/// The number or address that a code's value is, or how many bytes the value has, which is read in place.
fn borrowed_sum(options: &OptionView, code: u8) -> usize {
    match code {
        code::SERVER_IDENTIFIER | code::SUBNET_MASK | code::BROADCAST_ADDRESS => {
            match addr_at(options, code) {
                Some(address) => address.number as usize,
                None => 0,
            }
        }
        code::LEASE_TIME | code::RENEWAL_TIME | code::REBINDING_TIME => {
            match u32_at(options, code) {
                Some(number) => number as usize,
                None => 0,
            }
        }
        _ => pieces_len(options, code),
    }
}

/// How many bytes the value of a code has, which the index finds.
fn found_len(index: &OptionIndex, options: &OptionView, code: u8) -> usize {
    match index.value_at(code) {
        Found::Absent => 0,
        Found::Whole(value) => value.len(),
        Found::Split => pieces_len(options, code),
    }
}

/// The number or address that a code's value is, or how many bytes the value has, which is read in place by the index.
fn indexed_sum(index: &OptionIndex, options: &OptionView, code: u8) -> usize {
    match code {
        code::SERVER_IDENTIFIER | code::SUBNET_MASK | code::BROADCAST_ADDRESS => {
            match index.addr_at(code) {
                Some(address) => address.number as usize,
                None => 0,
            }
        }
        code::LEASE_TIME | code::RENEWAL_TIME | code::REBINDING_TIME => {
            match index.u32_at(code) {
                Some(number) => number as usize,
                None => 0,
            }
        }
        _ => found_len(index, options, code),
    }
}

/// The sum over the values, which are read by an index.
fn indexed_values_sum(options: &OptionView) -> usize {
    let index = OptionIndex::of(options);
    let mut all = 0usize;
    for code in CODES {
        all = all.wrapping_add(indexed_sum(&index, options, code));
    }
    all
}

/// The sum over the values: of their bytes where they are copied, else of the numbers and addresses and of the bytes of
/// the others.
fn values_sum(alloc: Global, way: Way, message: &Msg4) -> Result<usize, NoMemory> {
    let mut all = 0usize;
    for code in CODES {
        let found = match way {
            Way::Copied => copied_len(alloc, &message.options, code)?,
            Way::Borrowed => borrowed_sum(&message.options, code),
            Way::Indexed => return Ok(indexed_values_sum(&message.options)),
        };
        all = all.wrapping_add(found);
    }
    Ok(all)
}

/// The sum over the values of all readings.
fn read_all(alloc: Global, way: Way, readings: u32) -> Result<usize, NoMemory> {
    let mut payload = ack(1);
    let mut sum = 0usize;
    for reading in 0..readings {
        payload[7] = (reading % 256) as u8;
        if let Ok(message) = read4(&payload) {
            sum = sum.wrapping_add(values_sum(alloc, way, &message)?);
        }
    }
    Ok(sum)
}

/// The number of readings and the way that the arguments tell.
fn asked(rt: &HostRuntime) -> io::Result<(u32, Way)> {
    let mut words = env::args(rt)?.skip(1);
    let readings = match words.next() {
        Some(word) => word.as_str().parse::<u32>().unwrap_or(READINGS),
        None => READINGS,
    };
    let way = match words.next() {
        Some(word) if word.as_str() == "borrowed" => Way::Borrowed,
        Some(word) if word.as_str() == "indexed" => Way::Indexed,
        _ => Way::Copied,
    };
    Ok((readings, way))
}

fn main(rt: HostRuntime) -> io::Result<()> {
    let (readings, way) = asked(&rt)?;
    match read_all(rt.alloc(), way, readings) {
        Ok(sum) => println!(rt; "{readings} readings, sum {sum}"),
        Err(_) => println!(rt; "no memory"),
    }
}
