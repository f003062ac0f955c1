//! What is true of the definitions. These functions do nothing: their contracts are the laws.
ghost use Rattle.std.specs.Prelude.{ℕ, List, map};
ghost use Rattle.std.specs.List.{AllByRecursion};
ghost use Rattle.world.specs.LinkCalls.{Given};
ghost use Rattle.world.specs.declared.rows.HostRow.{HostRow};
ghost use Rattle.world.specs.Rows.{IsRow};
ghost use Rattle.world.specs.RowText.{row_text};
ghost use Rattle.script_model.specs.RowSpellings.{SpellsRow};
ghost use Rattle.script_model.specs.ScriptTexts.{given_text};
ghost use Rattle.script_model.specs.Scripts.{FitsGiven};
ghost use Rattle.script_model.specs.Spellings.{AreSpelled};
ghost use Rattle.script_model.specs.TurnSpellings.{SpellsGiven};

/// The printed text of a row spells it; and the printed texts of rows spell them one by one.
pub fn printed_rows_are_spelled()
    ensures row { (row : HostRow) → IsRow row → SpellsRow (row_text row) row }
    ensures lines { (rows : List HostRow) → AllByRecursion IsRow rows → AreSpelled SpellsRow (map row_text rows) rows }
{}

/// The printed text of what a turn is given spells it.
pub fn printed_turns_are_spelled()
    ensures { (count : ℕ) (given : Given) → FitsGiven count given → SpellsGiven (given_text given) given }
{}
