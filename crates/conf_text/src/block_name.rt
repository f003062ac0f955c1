//! The key of an interface's blocks.
ghost use Rattle.std.specs.Prelude.{◌≡◌, ◌∷◌, []};
ghost use Rattle.std.specs.Cmp.{back_equiv, back_per, on_equiv, on_per, partial_equiv_from_equiv};
ghost use Rattle.std.specs.Cmp.Lexicographic.{nat_list_eq_equiv};
ghost use Rattle.std.specs.Cmp.Rules.{hashing};
ghost use Rattle.std.proofs.Common.{rules};
ghost use Rattle.net_types.specs.NameText.{name_text};
ghost use Rattle.conf_text.specs.Places.{is_named};

use net_types::Name;
use std::hash::{Hash, Hasher};

/// The name of an interface as a key: of names with one text each stands for the others.
#[derive(Clone, Copy)]
pub struct BlockName {
    pub name: Name,
}

impl PartialEq for BlockName {
    ghost eq = { λ one other. is_named one.name other.name };

    ghost laws = { back_per (on_per (λ key. name_text key.name) (partial_equiv_from_equiv nat_list_eq_equiv)) };

    fn eq(&self, other: &BlockName) -> bool {
        is_named(&self.name, &other.name)
    }
}

impl Eq for BlockName {
    ghost laws = { back_equiv (on_equiv (λ key. name_text key.name) nat_list_eq_equiv) };
}

impl Hash for BlockName {
    ghost hash_input = { λ key. name_text key.name ∷ [] };

    ghost respects_eq = { Prim.search (hashing, rules) };

    #[tactic(auto, unfolding(net_types::specs::NameText::name_text))]
    fn hash<H: Hasher>(&self, state: &mut H) {
        state.write(self.name.as_bytes());
    }
}

/// Whether both names have one text.
#[tactic(auto, unfolding(net_types::specs::NameText::name_text))]
pub fn is_named(name: &Name, other: &Name) -> bool
    ensures { result ≡ is_named name.now other.now }
{
    other.as_bytes() == name.as_bytes()
}
