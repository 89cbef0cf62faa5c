//! Laws on conditions.
ghost use Rattle.hippo_model_laws.specs.Conditions.{TruthIsThatOfOperands};

/// The truth of a condition with its operands replaced is the truth of the condition itself, with
/// each operand valued as its replacement.
pub fn truth_is_that_of_operands<O, P>()
    ensures { TruthIsThatOfOperands O P }
{}
