//! What is true of the definitions. These functions do nothing: their contracts are the laws.
ghost use Rattle.std.specs.Prelude.{◌≡◌, ◌≤◌, ℕ, List};
ghost use Rattle.net_types.specs.declared.address.Ip4.{Ip4};
ghost use Rattle.net_types.specs.declared.address.Net4.{Net4};
ghost use Rattle.net_types.specs.declared.address.Ip6.{Ip6};
ghost use Rattle.net_types.specs.declared.address.Net6.{Net6};
ghost use Rattle.net_types.specs.AddressText.{FitsIp6, FitsNet4, FitsNet6, ip6_text, net6_text};
ghost use Rattle.net_types.specs.Ip6Text.{SpellsIp6, SpellsNet6};
ghost use Rattle.net_types.specs.Networks.{IsMasked, Shares, mask_len, mask_of};

/// An address and its mask give its network, which it shares with the addresses within and no others, and a
/// mask tells the length that it was made of.
pub fn networks_share_a_prefix()
    ensures masked { (net : Net4) → FitsNet4 net → IsMasked net }
    ensures shared { (ip : Ip4) (net : Net4) → Shares ip net }
    ensures told { (len : ℕ) → len ≤ 32 → mask_len (mask_of len) ≡ len }
{}

/// The printed form of an IPv6 address or net is a spelling of it, and a text spells one at most.
pub fn ip6_texts_spell_one()
    ensures printed { (ip : Ip6) → FitsIp6 ip → SpellsIp6 (ip6_text ip) ip }
    ensures one { (text : List ℕ) (a b : Ip6) → SpellsIp6 text a → SpellsIp6 text b → a ≡ b }
    ensures net_printed { (net : Net6) → FitsNet6 net → SpellsNet6 (net6_text net) net }
    ensures net_one { (text : List ℕ) (a b : Net6) → SpellsNet6 text a → SpellsNet6 text b → a ≡ b }
{}
