//! What is true of every configuration. These functions do nothing: their contracts are the laws.

ghost use Rattle.conf_text.specs.Fits.{SettingsFit};
ghost use Rattle.conf_text.specs.Laws.{ConfigurationIsOne};
ghost use Rattle.conf_text.specs.SharesTaken.{PlannedAreTaken, TakenArePlanned};

/// A text has one configuration or one first fault, and not both.
pub fn configuration_is_one()
    ensures { ConfigurationIsOne }
{}

/// Law: the shares of a line that are taken obey the rules, and where all do, none is left out.
pub fn shares_are_planned()
    ensures taken { TakenArePlanned }
    ensures whole { PlannedAreTaken }
{}

/// Law: what is in force for managed interfaces is within the bounds that their clients rely on.
pub fn settings_fit()
    ensures { SettingsFit }
{}
