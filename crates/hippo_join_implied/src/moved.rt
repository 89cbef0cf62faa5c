//! Parts of a condition with another expression in place of those that show one column.
ghost use Rattle.std.specs.Prelude.{◌≡◌, IfOk};
ghost use Rattle.hippo_model.specs.declared.query.Expr.TheVariants.{Case, Literal};
ghost use Rattle.hippo_join_implied.specs.Implied.{moved_part};

use crate::equalities::show_same;
use hippo_model::{Change, CondOf, Expr, Ref, changed_condition};
use hippo_values::{Duplicate, Memory, Name, Value};
use std::alloc::Global;

fn copied_literal(alloc: Global, value: &Value) -> Result<Expr, Memory>
    ensures { IfOk result (λ made. made ≡ Literal value.now) }
{
    Ok(Expr::Literal(value.copy(alloc)?))
}

fn copied_case(
    alloc: Global,
    columns: (Ref, Ref),
    item: &Name,
    rule: u64,
    opt_in: bool,
    after: Option<i64>,
) -> Result<Expr, Memory>
    ensures { IfOk result (λ made. made ≡ Case columns.0 columns.1 item.now rule opt_in after) }
{
    let item = item.copy(alloc)?;
    Ok(Expr::Case {
        column: columns.0,
        subject: columns.1,
        item,
        rule,
        opt_in,
        after,
    })
}

fn copied(alloc: Global, expr: &Expr) -> Result<Expr, Memory>
    ensures { IfOk result (λ made. made ≡ expr.now) }
{
    match expr {
        Expr::Keep(column) => Ok(Expr::Keep(*column)),
        Expr::Null(rule) => Ok(Expr::Null(*rule)),
        Expr::Aged {
            column,
            rule,
            after,
        } => Ok(Expr::Aged {
            column: *column,
            rule: *rule,
            after: *after,
        }),
        Expr::Case {
            column,
            subject,
            item,
            rule,
            opt_in,
            after,
        } => copied_case(alloc, (*column, *subject), item, *rule, *opt_in, *after),
        Expr::Literal(value) => copied_literal(alloc, value),
    }
}

// Replaces each expression that shows the column of one expression by another expression.
#[derive(Drop)]
struct Moving<'a> {
    from: &'a Expr,
    other: &'a Expr,
}

impl<'a> Change<Expr, Expr> for Moving<'a> {
    ghost use Rattle.hippo_join_implied.specs.Implied.{moved_expr};

    ghost to = { λ moving operand. moved_expr moving.from.now moving.other.now operand };

    fn change(&self, alloc: Global, operand: &Expr) -> Result<Expr, Memory> {
        if show_same(self.from, operand) {
            copied(alloc, self.other)
        } else {
            copied(alloc, operand)
        }
    }
}

/// A part of a condition with another expression in place of those that show the column of `from`.
pub(crate) fn moved_part(
    alloc: Global,
    part: &CondOf<Expr>,
    from: &Expr,
    other: &Expr,
) -> Result<CondOf<Expr>, Memory>
    ensures { IfOk result (λ made. made ≡ moved_part from.now other.now part.now) }
{
    changed_condition(alloc, part, &Moving { from, other })
}
