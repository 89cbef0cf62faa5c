//! Laws on what is carried on: the new history has the same present as the old one.
ghost use Rattle.hippo_history_carry.specs.CarryLaws.{CarriesNames, CarriesChoices, CarriesUsers, CarriesRules, CarriesRows, CarriesVerdicts};

/// The same tables, items, purposes and recipients exist.
pub fn carries_names()
    ensures { CarriesNames }
{}

/// The last choice of each patient on each item is the same.
pub fn carries_choices()
    ensures { CarriesChoices }
{}

/// The same users may ask for the same purposes and recipients.
pub fn carries_users()
    ensures { CarriesUsers }
{}

/// Each column of each table has the same rule for each purpose and recipient, but for its number.
pub fn carries_rules()
    ensures { CarriesRules }
{}

/// Each table of a valid history has the same rows, with the same births.
pub fn carries_rows()
    ensures { CarriesRows }
{}

/// For each purpose, recipient and moment, the same cells of a row are shown.
pub fn carries_verdicts()
    ensures { CarriesVerdicts }
{}
