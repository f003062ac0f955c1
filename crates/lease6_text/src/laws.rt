//! What is true of the texts of DHCPv6 leases. This function does nothing: its contract is the law.

ghost use Rattle.std.specs.Prelude.{ℕ, List};
ghost use Rattle.lease6_text.specs.Bounds.{HasText6};
ghost use Rattle.lease6_text.specs.Leases.{Lease6Content};
ghost use Rattle.lease6_text.specs.ReadBack.{IsReadBack6, SpellsOne6};

/// Law: a lease within the bounds is read back from its text and nothing else is, and a text spells one lease at most.
pub fn leases6_are_read_back()
    ensures back { (lease : Lease6Content) → HasText6 lease → IsReadBack6 lease }
    ensures one { (text : List ℕ) → SpellsOne6 text }
{}
