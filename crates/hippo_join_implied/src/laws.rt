//! Laws on what conditions imply.
ghost use Rattle.hippo_join_implied.specs.ImpliedLaws.{ImpliedHolds, ImpliedAnswers};

/// With what it implies, a condition is true of exactly the same rows, whatever patients chose.
pub fn implied_holds()
    ensures { ImpliedHolds }
{}

/// With what its condition implies, a query has the same answer, over any rows, whenever they were
/// born and whatever patients chose.
pub fn implied_answers()
    ensures { ImpliedAnswers }
{}
