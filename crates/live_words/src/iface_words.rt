//! The words that name interfaces, read.
ghost use Rattle.std.specs.Prelude.{◌≡◌, ◌≤◌, length, map, option_map};
ghost use Rattle.net_types.specs.Cutting.{field_at};
ghost use Rattle.net_types.specs.NameText.{name_at};
ghost use Rattle.live_words.specs.LiveWords.{equals_sign};
ghost use Rattle.live_words.specs.LiveReading.{named_at, specs_at, ifaces_at};

use crate::listed::Interfaces;
use iface_lists::all_unlike;
use net_types::{IfIndex, IfSpec, Mac, Name, mac_of, name_of, split_at_byte};

/// The name before the first `=`, and the text after it.
fn name_field_of(word: &[u8]) -> Option<(Name, &[u8])>
    ensures { option_map (λ p. (p.0, p.1.now)) result ≡ field_at equals_sign name_at word.now }
{
    let (part, rest) = split_at_byte(word, b'=')?;
    let name = name_of(part)?;
    Some((name, rest))
}

/// The name and hardware address that a word spells.
#[tactic(auto, unfolding(crate::specs::LiveReading::named_at))]
fn named_of(word: &[u8]) -> Option<(Name, Mac)>
    ensures { result ≡ named_at word.now }
{
    let (name, rest) = name_field_of(word)?;
    let mac = mac_of(rest)?;
    Some((name, mac))
}

/// The interfaces that the words spell, numbered from 1.
fn specs_of(words: &[&str]) -> Option<Interfaces>
    requires { length words.now ≤ 64 }
    ensures { result ≡ specs_at 1 (map (λ word. word.now) words.now) }
{
    let mut specs = Interfaces::new();
    let mut number = 1;
    for word in words {
        let (name, mac) = named_of(word.as_bytes())?;
        let index = IfIndex { number };
        specs.push(IfSpec { index, name, mac });
        number += 1;
    }
    Some(specs)
}

/// The interfaces that the words spell, with unlike names and hardware addresses.
#[tactic(auto, unfolding(crate::specs::LiveReading::ifaces_at))]
pub fn ifaces_of(words: &[&str]) -> Option<Interfaces>
    requires { length words.now ≤ 64 }
    ensures { result ≡ ifaces_at (map (λ word. word.now) words.now) }
{
    let specs = specs_of(words)?;
    if all_unlike(specs.as_slice()) {
        Some(specs)
    } else {
        None
    }
}
