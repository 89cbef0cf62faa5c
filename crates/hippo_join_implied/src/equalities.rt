//! The equalities of columns among the parts of a condition, and the columns that they lead to.
ghost use Rattle.std.specs.Prelude.{◌≡◌, ◌++◌, ◌-◌, ◌∷◌, List, None, IfOk, OnOk, filter, if◌then◌else◌, length, option_copied, take};
ghost use Rattle.std.specs.Bool.{then_some};
ghost use Rattle.hippo_model.specs.declared.query.CondOf as conditions;
ghost use Rattle.hippo_model.specs.declared.query.Expr as expressions;
ghost use Rattle.hippo_join_implied.specs.Implied.{equality_limit, is_same_ref, show_same, equates, is_equality, shows_reached, beyond, beyond_by, next_beyond};

use hippo_join_lookups::column_of;
use hippo_model::{CondOf, Expr, Lent, Ref};
use hippo_values::{CompareOp, Memory};
use std::alloc::Global;

// The most equalities of a condition that are used.
const EQUALITY_LIMIT: usize = 16;

fn is_same_ref(column: Ref, other: Ref) -> bool
    ensures { result ≡ is_same_ref column other }
{
    column.table == other.table && column.column == other.column
}

/// Whether two expressions show the same column.
pub(crate) fn show_same(expr: &Expr, other: &Expr) -> bool
    ensures { result ≡ show_same expr.now other.now }
{
    match (column_of(expr), column_of(other)) {
        (Some(column), Some(other)) => is_same_ref(column, other),
        _ => false,
    }
}

// Whether a comparison is an equality of two columns.
fn equates(op: CompareOp, left: &Expr, right: &Expr) -> bool
    ensures { result ≡ equates op left.now right.now }
{
    match op {
        CompareOp::Eq => column_of(left).is_some() && column_of(right).is_some(),
        _ => false,
    }
}

fn is_equality(part: &CondOf<Expr>) -> bool
    ensures { result ≡ is_equality part.now }
{
    match part {
        CondOf::Compare { op, left, right } => equates(*op, left, right),
        _ => false,
    }
}

// Adds a part if it is an equality of two columns and there are not enough of them yet.
fn add_equality<'a>(
    found: &mut Lent<'a, CondOf<Expr>>,
    part: &'a CondOf<Expr>,
) -> Result<(), Memory>
    ensures { OnOk result ((rest : List (conditions.CondOf expressions.Expr)) → found.new
        ++ take (equality_limit - length found.new) (filter is_equality rest)
        ≡ found.old
        ++ take (equality_limit - length found.old) (filter is_equality (part.now ∷ rest))) }
{
    if found.len() < EQUALITY_LIMIT && is_equality(part) {
        found.push(part)?;
    }
    Ok(())
}

/// The first equalities of two columns among the parts of a condition.
pub(crate) fn equalities(
    alloc: Global,
    parts: &[CondOf<Expr>],
) -> Result<Lent<'_, CondOf<Expr>>, Memory>
    ensures { IfOk result (λ found. found ≡ take equality_limit (filter is_equality parts.now)) }
{
    let mut found = Lent::new(alloc);
    for part in parts {
        add_equality(&mut found, part)?;
    }
    Ok(found)
}

// Whether one of these expressions shows the column of an expression.
fn shows_reached(reached: &Lent<'_, Expr>, expr: &Expr) -> bool
    ensures { result ≡ shows_reached reached.now expr.now }
{
    for place in 0..reached.len() {
        if show_same(reached.get(place), expr) {
            return true;
        }
    }
    false
}

fn some_if(test: bool, expr: &Expr) -> Option<&Expr>
    ensures { option_copied result ≡ then_some test expr.now }
{
    if test { Some(expr) } else { None }
}

// The side of an equality that is not reached, if the other one is.
fn beyond<'a>(reached: &Lent<'_, Expr>, left: &'a Expr, right: &'a Expr) -> Option<&'a Expr>
    ensures { option_copied result ≡ beyond reached.now left.now right.now }
{
    if shows_reached(reached, left) {
        some_if(!shows_reached(reached, right), right)
    } else {
        some_if(shows_reached(reached, right), left)
    }
}

fn beyond_if<'a>(
    op: CompareOp,
    reached: &Lent<'_, Expr>,
    left: &'a Expr,
    right: &'a Expr,
) -> Option<&'a Expr>
    ensures { option_copied result ≡ if equates op left.now right.now
        then beyond reached.now left.now right.now else None }
{
    if equates(op, left, right) {
        beyond(reached, left, right)
    } else {
        None
    }
}

fn beyond_by<'a>(reached: &Lent<'_, Expr>, part: &'a CondOf<Expr>) -> Option<&'a Expr>
    ensures { option_copied result ≡ beyond_by reached.now part.now }
{
    match part {
        CondOf::Compare { op, left, right } => beyond_if(*op, reached, left, right),
        _ => None,
    }
}

/// The first expression that an equality leads to from those that are reached.
pub(crate) fn next_beyond<'a>(
    equalities: &Lent<'a, CondOf<Expr>>,
    reached: &Lent<'_, Expr>,
) -> Option<&'a Expr>
    ensures { option_copied result ≡ next_beyond equalities.now reached.now }
{
    for place in 0..equalities.len() {
        if let Some(expr) = beyond_by(reached, equalities.get(place)) {
            return Some(expr);
        }
    }
    None
}
