//! What holds of all texts of scripts.
ghost use Rattle.std.specs.Prelude.{◌≡◌, ℕ, List};
ghost use Rattle.net_types.specs.FirstBadLine.{IsSpelled};
ghost use Rattle.script_model.specs.ScriptTexts.{ScriptLines};
ghost use Rattle.replay_text.specs.FirstFaults.{FaultsAreOne};
ghost use Rattle.replay_text.specs.LinesInOrder.{SpellsScript};

/// A text has one first bad line at most, with one cause. This does nothing: its contract is the law.
pub fn faults_are_one()
    ensures { FaultsAreOne }
{}

/// A text is that of one script at most. This does nothing: its contract is the law.
pub fn scripts_are_one()
    ensures { (text : List ℕ) (one other : ScriptLines) → IsSpelled SpellsScript text one
        → IsSpelled SpellsScript text other → one ≡ other }
{}
