//! What is true of every area. These functions do nothing: their contracts are the laws.

ghost use Rattle.std.specs.Prelude.{◌≡◌, ◌+◌, ◌⊎◌, ℕ, List, None, Some};
ghost use Rattle.std.specs.List.{flat_map};
ghost use Rattle.v4_options.specs.OptionArea.{instances_in, malformed_in};
ghost use Rattle.v4_options.specs.AreaGrammar.{Part, IsArea, IsMalformedAt, part_instances};
ghost use Rattle.net_types.specs.Marks.{AreBytes};

/// Each area is parts of the grammar to its end or has a first malformed option. In the first case its instances are
/// those of the parts and nothing is malformed; in the second the place is that of the grammar.
pub fn area_law()
    ensures instances { (area : List ℕ) (parts : List Part) → IsArea area parts
        → instances_in area ≡ flat_map part_instances parts }
    ensures whole { (at : ℕ) (area : List ℕ) (parts : List Part) → IsArea area parts → malformed_in at area ≡ None }
    ensures malformed { (at : ℕ) (area : List ℕ) (place : ℕ) → IsMalformedAt area place
        → malformed_in at area ≡ Some (at + place) }
    ensures either { (area : List ℕ) → AreBytes area
        → ((parts : List Part) × IsArea area parts) ⊎ ((place : ℕ) × IsMalformedAt area place) }
{}
