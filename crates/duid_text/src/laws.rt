//! What is true of the texts of DUIDs. This function does nothing: its contract is the law.
ghost use Rattle.std.specs.Prelude.{ℕ, List};
ghost use Rattle.net_types.specs.declared.address.Mac.{Mac};
ghost use Rattle.duid_text.specs.Laws.{IsReadBack, SpellsOne, IsOfAddress};

/// Law: a DUID is read back from its text, a text spells one DUID at most, and a hardware address has a DUID.
pub fn duids_are_read_back()
    ensures back { (bytes : List ℕ) → IsReadBack bytes }
    ensures one { (text bytes : List ℕ) → SpellsOne text bytes }
    ensures address { (mac : Mac) → IsOfAddress mac }
{}
