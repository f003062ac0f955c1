//! What is true of fields. These functions do nothing: their contracts are the laws.
ghost use Rattle.std.specs.Prelude.{ℕ, Bool, List};
ghost use Rattle.net_types.specs.Marks.{Lacks};
ghost use Rattle.field_laws.specs.Fields.{IsField, IsMaking, making, parted, passing, worded};
ghost use Rattle.field_laws.specs.Kinds.{hex_field, ip4_field, ip6_field, mac_field, name_field, net4_field, net6_field, no_field, number_field};

/// Law: of each kind, what is read is spelled so, what is spelled so is read, and it stands within one line.
pub fn kinds_are_fields()
    ensures number { (limit : ℕ) → IsField (number_field limit) }
    ensures name { IsField name_field }
    ensures mac { IsField mac_field }
    ensures ip4 { IsField ip4_field }
    ensures ip6 { IsField ip6_field }
    ensures net4 { IsField net4_field }
    ensures net6 { IsField net6_field }
    ensures hex { IsField hex_field }
    ensures none { IsField no_field }
{}

/// Law: two fields with a blank between them, a field after a word, its values that pass a test, and values told by it
/// are fields. Said of numbers and of bytes: the lemmas hold of any field.
pub fn fields_are_made_of_fields()
    ensures parted { (limit : ℕ) → IsField (parted (number_field limit) hex_field) }
    ensures worded { (limit : ℕ) (word : List ℕ) → Lacks 10 word → IsField (worded word (number_field limit)) }
    ensures passing { (limit : ℕ) (test : ℕ → Bool) → IsField (passing test (number_field limit)) }
    ensures making { (make told : List ℕ → List ℕ) → IsMaking make told → IsField (making make told hex_field) }
{}
