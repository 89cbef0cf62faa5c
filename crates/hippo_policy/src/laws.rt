//! Laws of the rules in force.
ghost use Rattle.hippo_policy.specs.GateLaws.{GatesMatchVerdicts};

/// The gates that `PolicyBook::rules_in_force` returns decide as the verdict does: after any
/// entries, in any context, a cell's gate and the patients' choices show the cell, or deny it with
/// a rule's number, exactly as the verdict on the cell says. This covers a row's birth and a rule's
/// days.
pub fn gates_match_verdicts()
    ensures { GatesMatchVerdicts }
{}
