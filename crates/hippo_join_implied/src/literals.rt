//! The parts of a condition that compare a column with literals.
ghost use Rattle.std.specs.Prelude.{◌≡◌, true, if◌then◌else◌, option_copied};
ghost use Rattle.std.specs.List.{list_all};
ghost use Rattle.hippo_join_lookups.specs.Lists.{is_literal};
ghost use Rattle.hippo_join_implied.specs.Implied.{column_if, compared_side, compared_expr};

use hippo_join_lookups::column_of;
use hippo_model::{CondOf, Expr};
use hippo_values::CompareOp;

fn is_literal(expr: &Expr) -> bool
    ensures { result ≡ is_literal expr.now }
{
    matches!(expr, Expr::Literal(_))
}

fn are_literals(list: &[Expr]) -> bool
    ensures { result ≡ list_all is_literal list.now }
{
    list.iter().all(|item| is_literal(item))
}

// An expression, if it shows a column and a test holds.
fn column_if(test: bool, expr: &Expr) -> Option<&Expr>
    ensures { option_copied result ≡ column_if test expr.now }
{
    if test && column_of(expr).is_some() {
        Some(expr)
    } else {
        None
    }
}

fn beside_literal<'a>(left: &'a Expr, right: &'a Expr) -> Option<&'a Expr>
    ensures { option_copied result ≡ if is_literal right.now then column_if true left.now
        else column_if (is_literal left.now) right.now }
{
    if is_literal(right) {
        column_if(true, left)
    } else {
        column_if(is_literal(left), right)
    }
}

fn compared_side<'a>(op: CompareOp, left: &'a Expr, right: &'a Expr) -> Option<&'a Expr>
    ensures { option_copied result ≡ compared_side op left.now right.now }
{
    match op {
        CompareOp::Ne => None,
        CompareOp::Eq => beside_literal(left, right),
        CompareOp::Lt => beside_literal(left, right),
        CompareOp::Le => beside_literal(left, right),
        CompareOp::Gt => beside_literal(left, right),
        CompareOp::Ge => beside_literal(left, right),
    }
}

/// The expression of a column that a part of a condition compares with literals alone, by `=`, `<`,
/// `<=`, `>`, `>=`, BETWEEN or IN, if it does.
pub(crate) fn compared_expr(part: &CondOf<Expr>) -> Option<&Expr>
    ensures { option_copied result ≡ compared_expr part.now }
{
    match part {
        CondOf::Compare { op, left, right } => compared_side(*op, left, right),
        CondOf::Between { value, low, high } => {
            column_if(is_literal(low) && is_literal(high), value)
        }
        CondOf::Among { value, list } => column_if(are_literals(list.as_slice()), value),
        _ => None,
    }
}
