//! What is true of all options. The function does nothing: its contract is the law.

ghost use Rattle.std.specs.Prelude.{◌≡◌, ◌+◌, ◌⊎◌, ℕ, List, None, Some};
ghost use Rattle.v6_options.specs.OptionArea.{instances_in};
ghost use Rattle.v6_options.specs.Nesting.{malformed_in};
ghost use Rattle.v6_options.specs.OptionGrammar.{AreBytes, Breaks, FitsTree, IsBroken, IsTree, OptionTree, tree_instances, tree_text};

/// Bytes are whole options of the grammar, at each depth, or have a first option that breaks the rule. In the first
/// case nothing is malformed and the instances are those of the grammar; in the second the place is that of the
/// grammar.
pub fn option_law()
    ensures instances { (tree : OptionTree) → FitsTree tree → instances_in (tree_text tree) ≡ tree_instances tree }
    ensures whole { (at : ℕ) (tree : OptionTree) → FitsTree tree → malformed_in at (tree_text tree) ≡ None }
    ensures malformed { (at : ℕ) (area : List ℕ) (place : ℕ) → Breaks area place
        → malformed_in at area ≡ Some (at + place) }
    ensures either { (area : List ℕ) → AreBytes area → IsTree area ⊎ IsBroken area }
{}
