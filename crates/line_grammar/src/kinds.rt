//! The kinds of fields.
ghost use Rattle.std.specs.Prelude.{◌≡◌, ◌++◌, [], ℕ, List, OnOk, OnErr, IfSome, decimal};
ghost use Rattle.net_types.specs.AddressText.{ip4_text, ip6_text, mac_text, net4_text, net6_text};
ghost use Rattle.net_types.specs.HexText.{hex_text};
ghost use Rattle.net_types.specs.NameText.{name_text};
ghost use Rattle.net_types.specs.declared.address.Ip4.{Ip4};
ghost use Rattle.net_types.specs.declared.address.Ip6.{Ip6};
ghost use Rattle.net_types.specs.declared.address.Mac.{Mac};
ghost use Rattle.net_types.specs.declared.address.Net4.{Net4};
ghost use Rattle.net_types.specs.declared.address.Net6.{Net6};
ghost use Rattle.net_types.specs.declared.interface.Name.{Name};
ghost use Rattle.field_laws.specs.Kinds.{hex_field, ip4_field, ip6_field, mac_field, name_field, net4_field, net6_field, no_field, number_field};
ghost use Rattle.field_laws.proofs.KindLaws as laws;

use crate::field::{AppendField, InnerField, ReadField};
use net_types::{
    Hex, Ip4, Ip6, Mac, Name, Net4, Net6, NoMemory, append_bytes, append_hex, append_ip4,
    append_mac, append_net4, append_number, end_of, hex_of, ip4_of, mac_of, name_of, net4_of,
    printed_ip6_of, printed_net6_of, u64_of,
};
use std::alloc::Global;
use std::fmt::Display;

/// A number below a limit.
#[derive(Clone, Copy, Debug, PartialEq, Eq)]
pub struct Below<const LIMIT: u64>(pub u64);

impl<'a, const LIMIT: u64> ReadField<'a> for Below<LIMIT> {
    ghost Said = { ℕ };

    ghost said = { λ number. number.0 };

    ghost field = { number_field LIMIT };

    fn read(_alloc: Global, text: &'a [u8]) -> Result<Option<Below<LIMIT>>, NoMemory> {
        match u64_of(text) {
            Some(number) if number < LIMIT => Ok(Some(Below(number))),
            _ => Ok(None),
        }
    }

    ghost is = { laws.number_is LIMIT };
}

impl<'a, const LIMIT: u64> InnerField<'a> for Below<LIMIT> {
    ghost lacks_blank = { laws.number_lacks_blank LIMIT };
}

impl AppendField for u64 {
    ghost shown = { decimal };

    fn append(&self, into: &mut Vec<u8>) -> Result<(), NoMemory> {
        append_number(*self, into)
    }
}

impl AppendField for u32 {
    ghost shown = { decimal };

    fn append(&self, into: &mut Vec<u8>) -> Result<(), NoMemory> {
        append_number(u64::from(*self), into)
    }
}

impl AppendField for u16 {
    ghost shown = { decimal };

    fn append(&self, into: &mut Vec<u8>) -> Result<(), NoMemory> {
        append_number(u64::from(*self), into)
    }
}

impl AppendField for () {
    ghost shown = { λ none. [] };

    fn append(&self, _into: &mut Vec<u8>) -> Result<(), NoMemory> {
        Ok(())
    }
}

impl<'a> ReadField<'a> for () {
    ghost Said = { Unit {0} };

    ghost said = { λ none. none };

    ghost field = { no_field };

    fn read(_alloc: Global, text: &'a [u8]) -> Result<Option<()>, NoMemory> {
        Ok(end_of(text))
    }

    ghost is = { laws.no_field_is };
}

/// Appends the printed form; where memory runs out nothing.
fn append_printed<D: Display + Copy>(value: D, into: &mut Vec<u8>) -> Result<(), NoMemory>
    ensures ok { OnOk result (IfSome (D.output value) (λ text. into.new.items ≡ into.old.items ++ text)) }
    ensures err { OnErr result (into.new.items ≡ into.old.items) }
{
    let text = String::format(*into.allocator(), value)?;
    append_bytes(text.as_bytes(), into)
}

impl AppendField for Name {
    ghost shown = { name_text };

    #[tactic(auto, unfolding(net_types::specs::NameText::name_text))]
    fn append(&self, into: &mut Vec<u8>) -> Result<(), NoMemory> {
        append_bytes(self.as_bytes(), into)
    }
}

impl<'a> ReadField<'a> for Name {
    ghost Said = { Name };

    ghost said = { λ name. name };

    ghost field = { name_field };

    fn read(_alloc: Global, text: &'a [u8]) -> Result<Option<Name>, NoMemory> {
        Ok(name_of(text))
    }

    ghost is = { laws.name_is };
}

impl<'a> InnerField<'a> for Name {
    ghost lacks_blank = { laws.name_lacks_blank };
}

impl AppendField for Mac {
    ghost shown = { mac_text };

    fn append(&self, into: &mut Vec<u8>) -> Result<(), NoMemory> {
        append_mac(*self, into)
    }
}

impl<'a> ReadField<'a> for Mac {
    ghost Said = { Mac };

    ghost said = { λ mac. mac };

    ghost field = { mac_field };

    fn read(_alloc: Global, text: &'a [u8]) -> Result<Option<Mac>, NoMemory> {
        Ok(mac_of(text))
    }

    ghost is = { laws.mac_is };
}

impl<'a> InnerField<'a> for Mac {
    ghost lacks_blank = { laws.mac_lacks_blank };
}

impl AppendField for Ip4 {
    ghost shown = { ip4_text };

    fn append(&self, into: &mut Vec<u8>) -> Result<(), NoMemory> {
        append_ip4(*self, into)
    }
}

impl<'a> ReadField<'a> for Ip4 {
    ghost Said = { Ip4 };

    ghost said = { λ ip4. ip4 };

    ghost field = { ip4_field };

    fn read(_alloc: Global, text: &'a [u8]) -> Result<Option<Ip4>, NoMemory> {
        Ok(ip4_of(text))
    }

    ghost is = { laws.ip4_is };
}

impl<'a> InnerField<'a> for Ip4 {
    ghost lacks_blank = { laws.ip4_lacks_blank };
}

impl AppendField for Net4 {
    ghost shown = { net4_text };

    fn append(&self, into: &mut Vec<u8>) -> Result<(), NoMemory> {
        append_net4(*self, into)
    }
}

impl<'a> ReadField<'a> for Net4 {
    ghost Said = { Net4 };

    ghost said = { λ net4. net4 };

    ghost field = { net4_field };

    fn read(_alloc: Global, text: &'a [u8]) -> Result<Option<Net4>, NoMemory> {
        Ok(net4_of(text))
    }

    ghost is = { laws.net4_is };
}

impl<'a> InnerField<'a> for Net4 {
    ghost lacks_blank = { laws.net4_lacks_blank };
}

impl AppendField for Ip6 {
    ghost shown = { ip6_text };

    fn append(&self, into: &mut Vec<u8>) -> Result<(), NoMemory> {
        append_printed(*self, into)
    }
}

impl<'a> ReadField<'a> for Ip6 {
    ghost Said = { Ip6 };

    ghost said = { λ ip6. ip6 };

    ghost field = { ip6_field };

    fn read(alloc: Global, text: &'a [u8]) -> Result<Option<Ip6>, NoMemory> {
        printed_ip6_of(alloc, text)
    }

    ghost is = { laws.ip6_is };
}

impl<'a> InnerField<'a> for Ip6 {
    ghost lacks_blank = { laws.ip6_lacks_blank };
}

impl AppendField for Net6 {
    ghost shown = { net6_text };

    fn append(&self, into: &mut Vec<u8>) -> Result<(), NoMemory> {
        append_printed(*self, into)
    }
}

impl<'a> ReadField<'a> for Net6 {
    ghost Said = { Net6 };

    ghost said = { λ net6. net6 };

    ghost field = { net6_field };

    fn read(alloc: Global, text: &'a [u8]) -> Result<Option<Net6>, NoMemory> {
        printed_net6_of(alloc, text)
    }

    ghost is = { laws.net6_is };
}

impl<'a> InnerField<'a> for Net6 {
    ghost lacks_blank = { laws.net6_lacks_blank };
}

impl AppendField for Hex<'_> {
    ghost shown = { λ hex. hex_text hex.0.now };

    fn append(&self, into: &mut Vec<u8>) -> Result<(), NoMemory> {
        append_hex(self.0, into)
    }
}

/// Bytes as lower-case pairs, or `-` for none.
impl<'a> ReadField<'a> for Vec<u8> {
    ghost Said = { List ℕ };

    ghost said = { λ bytes. bytes.items };

    ghost field = { hex_field };

    fn read(alloc: Global, text: &'a [u8]) -> Result<Option<Vec<u8>>, NoMemory> {
        hex_of(alloc, text)
    }

    ghost is = { laws.hex_is };
}

impl<'a> InnerField<'a> for Vec<u8> {
    ghost lacks_blank = { laws.hex_lacks_blank };
}
