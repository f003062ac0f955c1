//! The fields of a line.
ghost use Rattle.std.specs.Prelude.{◌≡◌, ◌++◌, ◌∷◌, ℕ, List, option_map, IfOk, OnOk, OnErr};
ghost use Rattle.net_types.specs.Cutting.{StandsInFront};
ghost use Rattle.net_types.specs.TextLines.{ended};
ghost use Rattle.field_laws.specs.Fields.{Field, IsField, LacksBlank, parted, worded};
ghost use Rattle.field_laws.proofs.FieldLaws.{parted_is};

use net_types::{NoMemory, append_bytes, split_at_byte, strip_word};
use std::alloc::Global;

/// What is printed as a field of a line.
pub trait AppendField {
    ghost shown: { Self → List ℕ };

    /// Appends the text of the field, or a front of it where memory runs out.
    fn append(&self, into: &mut Vec<u8>) -> Result<(), NoMemory>
        ensures ok { OnOk result (into.new.items ≡ into.old.items ++ shown self.now) }
        ensures err { OnErr result (StandsInFront into.old.items into.new.items) };
}

/// What is read from a field of a line.
pub trait ReadField<'a>: Sized {
    ghost Said: { Type 0 };

    ghost said: { Self → Said };

    ghost field: { Field Said };

    /// The value that the text spells.
    fn read(alloc: Global, text: &'a [u8]) -> Result<Option<Self>, NoMemory>
        ensures { IfOk result (λ value. option_map said value ≡ field.at text.now) };

    ghost is: { IsField field };
}

/// A field without a blank, after which another may follow.
pub trait InnerField<'a>: ReadField<'a> {
    ghost lacks_blank: { LacksBlank Self.field };
}

impl<A: AppendField, B: AppendField> AppendField for (A, B) {
    ghost shown = { λ fields. A.shown fields.0 ++ 32 ∷ B.shown fields.1 };

    #[tactic(auto, using(std::proofs::Common::append_assoc))]
    fn append(&self, into: &mut Vec<u8>) -> Result<(), NoMemory> {
        self.0.append(into)?;
        append_bytes(b" ", into)?;
        self.1.append(into)?;
        Ok(())
    }
}

impl<'a, A: InnerField<'a> + Drop, B: ReadField<'a>> ReadField<'a> for (A, B) {
    ghost Said = { A.Said × B.Said };

    ghost said = { λ fields. (A.said fields.0, B.said fields.1) };

    ghost field = { parted A.field B.field };

    fn read(alloc: Global, text: &'a [u8]) -> Result<Option<(A, B)>, NoMemory> {
        let Some((first, rest)) = split_at_byte(text, b' ') else {
            return Ok(None);
        };
        let Some(first) = A::read(alloc, first)? else {
            return Ok(None);
        };
        let Some(second) = B::read(alloc, rest)? else {
            return Ok(None);
        };
        Ok(Some((first, second)))
    }

    ghost is = { parted_is A.is A.lacks_blank B.is };
}

/// Appends a word, its fields and the line feed, or a front of them where memory runs out.
#[tactic(auto, using(std::proofs::Common::append_assoc))]
pub fn append_line<F: AppendField>(
    word: &[u8],
    fields: &F,
    into: &mut Vec<u8>,
) -> Result<(), NoMemory>
    ensures ok { OnOk result (into.new.items ≡ into.old.items ++ ended (word.now ++ F.shown fields.now)) }
    ensures err { OnErr result (StandsInFront into.old.items into.new.items) }
{
    append_bytes(word, into)?;
    fields.append(into)?;
    append_bytes(b"\n", into)?;
    Ok(())
}

/// The fields of a line that begins with the word.
pub fn read_line<'a, F: ReadField<'a>>(
    alloc: Global,
    word: &[u8],
    line: &'a [u8],
) -> Result<Option<F>, NoMemory>
    ensures { IfOk result (λ fields. option_map F.said fields ≡ (worded word.now F.field).at line.now) }
{
    match strip_word(line, word) {
        Some(rest) => F::read(alloc, rest),
        None => Ok(None),
    }
}
