//! Laws: what is made is a script, and its configuration has no fault.

ghost use Rattle.std.specs.Prelude.{ℕ, ◌≤◌};
ghost use Rattle.script_model.specs.Scripts.{FitsScript};
ghost use Rattle.made_script.specs.declared.turns.TheConstants.{MOST_ROUNDS};
ghost use Rattle.made_script.specs.GoodConf.{ConfIsGood};
ghost use Rattle.made_script.specs.MadeLines.{made_lines};

/// The lines that are made are those of a script.
pub fn made_scripts_fit()
    ensures { (rounds : ℕ) → rounds ≤ MOST_ROUNDS → FitsScript (made_lines rounds) }
{}

/// The text of the configuration is read without a fault.
pub fn made_configuration_is_good()
    ensures { ConfIsGood }
{}
