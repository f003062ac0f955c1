//! What is true of every name. The function does nothing: its contract is the law.

ghost use Rattle.std.specs.Prelude.{◌≡◌, ℕ, List, Some};
ghost use Rattle.domain_names.specs.DomainName.{dotted, name_of};
ghost use Rattle.domain_names.specs.NameText.{labels_of};

/// The labels of a text, joined by dots, are the text; and a name's labels are the parts between its dots.
pub fn name_law()
    ensures joined { (text : List ℕ) → dotted (labels_of text) ≡ text }
    ensures parted { (labels : List (List ℕ)) (text : List ℕ) → name_of labels ≡ Some text → labels_of text ≡ labels }
{}
