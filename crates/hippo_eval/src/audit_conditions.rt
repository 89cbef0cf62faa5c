//! Conditions of audit expressions, over unmasked rows.
ghost use Rattle.std.specs.Prelude.{◌≡◌, IfOk};
ghost use Rattle.hippo_model.specs.declared.query.Expr.TheVariants.{Literal as LiteralExpr};
ghost use Rattle.hippo_eval.specs.Unmasked.{unmasked_operand, unmasked_condition};

use hippo_model::{Change, CondOf, Expr, Operand, changed_condition};
use hippo_values::{Duplicate, Memory, Value};
use std::alloc::Global;

fn literal(alloc: Global, value: &Value) -> Result<Expr, Memory>
    ensures { IfOk result (λ made. made ≡ LiteralExpr value.now) }
{
    Ok(Expr::Literal(value.copy(alloc)?))
}

// Masks no cell: a column is kept, and a literal is itself.
struct Unmasked;

impl Change<Operand, Expr> for Unmasked {
    ghost use Rattle.hippo_eval.specs.Unmasked.{unmasked_operand};

    ghost to = { λ _ operand. unmasked_operand operand };

    fn change(&self, alloc: Global, operand: &Operand) -> Result<Expr, Memory> {
        match operand {
            Operand::Column(column) => Ok(Expr::Keep(*column)),
            Operand::Literal(value) => literal(alloc, value),
        }
    }
}

/// Turns a condition over columns and literals into one over expressions, for `test`. Each column
/// is kept, and each literal is itself.
pub fn unmasked_condition(
    alloc: Global,
    condition: &CondOf<Operand>,
) -> Result<CondOf<Expr>, Memory>
    ensures { IfOk result (λ made. made ≡ unmasked_condition condition.now) }
{
    changed_condition(alloc, condition, &Unmasked)
}
