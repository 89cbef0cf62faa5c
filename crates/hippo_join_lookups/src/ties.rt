//! Join equalities: equalities between columns of two tables.
ghost use Rattle.std.specs.Prelude.{◌≡◌, [], ◌∷◌, IfSome, true, Some};
ghost use Rattle.hippo_model.specs.Terms.{Combination};
ghost use Rattle.hippo_model.specs.Conditions.{outer_parts};
ghost use Rattle.hippo_model.specs.declared.query.CondOf.TheVariants.{Compare};
ghost use Rattle.hippo_values.specs.declared.truths.CompareOp.TheVariants.{Eq};
ghost use Rattle.hippo_join_lookups.specs.Ties.{shown_column, AreEqual, IsTieOf};

use crate::known::is_chosen;
use hippo_model::{CondOf, Expr, Ref};
use hippo_values::CompareOp;

/// A join equality: a column of a table, and the column of another table that it equals.
#[derive(Clone, Copy)]
pub struct Tie {
    pub column: usize,
    pub other: Ref,
}

/// The parts of a condition's outermost All.
pub fn outer_parts(condition: &CondOf<Expr>) -> &[CondOf<Expr>]
    ensures { result.now ≡ outer_parts condition.now }
{
    match condition {
        CondOf::All(parts) => parts.as_slice(),
        _ => std::slice::from_ref(condition),
    }
}

/// The column whose value an expression shows, if it shows one.
pub fn column_of(expr: &Expr) -> Option<Ref>
    ensures { result ≡ shown_column expr.now }
{
    match expr {
        Expr::Keep(column) => Some(*column),
        Expr::Aged { column, .. } => Some(*column),
        Expr::Case { column, .. } => Some(*column),
        Expr::Null(_) => None,
        Expr::Literal(_) => None,
    }
}

/// Whether an expression shows the value of a column whenever it shows anything.
pub fn shows_column(expr: &Expr, column: Ref) -> bool
    ensures { result ≡ true → shown_column expr.now ≡ Some column }
{
    match column_of(expr) {
        Some(own) => own == column,
        None => false,
    }
}

// The equality of two columns as a tie of a table to a chosen row, if it is one.
fn tie_to_chosen(left: Ref, right: Ref, table: usize, slots: &[Option<usize>]) -> Option<Tie>
    ensures { IfSome result (λ tie. (rows : Combination) → AreEqual rows left right
        → AreEqual rows (record { table = table; column = tie.column }) tie.other) }
{
    if left.table == table && is_chosen(slots, right.table) {
        Some(Tie {
            column: left.column,
            other: right,
        })
    } else if right.table == table && is_chosen(slots, left.table) {
        Some(Tie {
            column: right.column,
            other: left,
        })
    } else {
        None
    }
}

fn tie_of_equal(left: &Expr, right: &Expr, table: usize, slots: &[Option<usize>]) -> Option<Tie>
    ensures { IfSome result (λ tie. IsTieOf (Compare Eq left.now right.now ∷ []) table tie) }
{
    let (Some(left), Some(right)) = (column_of(left), column_of(right)) else {
        return None;
    };
    tie_to_chosen(left, right, table, slots)
}

fn tie_of(part: &CondOf<Expr>, table: usize, slots: &[Option<usize>]) -> Option<Tie>
    ensures { IfSome result (λ tie. IsTieOf (part.now ∷ []) table tie) }
{
    match part {
        CondOf::Compare {
            op: CompareOp::Eq,
            left,
            right,
        } => tie_of_equal(left, right, table, slots),
        _ => None,
    }
}

/// A tie of a table to a chosen row that the parts of a condition require, if there is one.
pub fn find_tie(parts: &[CondOf<Expr>], table: usize, slots: &[Option<usize>]) -> Option<Tie>
    ensures { IfSome result (λ tie. IsTieOf parts.now table tie) }
{
    for part in parts {
        if let Some(tie) = tie_of(part, table, slots) {
            return Some(tie);
        }
    }
    None
}
