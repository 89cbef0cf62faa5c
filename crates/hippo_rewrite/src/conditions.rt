//! Rewriting of conditions: replaces each operand by its masked expression.
ghost use Rattle.std.specs.Prelude.{◌≡◌, IfOk};
ghost use Rattle.hippo_model.specs.Conditions.{changed_operands};
ghost use Rattle.hippo_rewrite.specs.Rewriting.{masked_operand};

use crate::expressions::masked_operand;
use hippo_model::{Change, CondOf, Expr, Operand, RulesInForce, changed_condition};
use hippo_values::Memory;
use std::alloc::Global;

// Replaces each operand by its masked expression under these rules.
#[derive(Drop)]
struct Masking<'a> {
    rules: &'a RulesInForce,
}

impl<'a> Change<Operand, Expr> for Masking<'a> {
    ghost use Rattle.hippo_rewrite.specs.Rewriting.{masked_operand};

    ghost to = { λ masking operand. masked_operand masking.rules.now operand };

    fn change(&self, alloc: Global, operand: &Operand) -> Result<Expr, Memory> {
        masked_operand(alloc, operand, self.rules)
    }
}

/// A condition with each operand replaced by its masked expression under the rules. Fails when out
/// of memory.
pub fn masked_condition(
    alloc: Global,
    condition: &CondOf<Operand>,
    rules: &RulesInForce,
) -> Result<CondOf<Expr>, Memory>
    ensures { IfOk result (λ made. made ≡ changed_operands (masked_operand rules.now)
        condition.now) }
{
    changed_condition(alloc, condition, &Masking { rules })
}
