//! Which conditions can be tested once the rows of some tables are chosen.
ghost use Rattle.std.specs.Prelude.{◌≡◌};
ghost use Rattle.std.specs.List.{list_all};
ghost use Rattle.hippo_join_lookups.specs.Places.{slot_at};
ghost use Rattle.hippo_join_lookups.specs.Known.{is_chosen, is_open, knows_expr, knows};

use hippo_model::{CondOf, Expr};

/// The place of the row chosen in a table, if one is chosen.
pub fn slot_at(slots: &[Option<usize>], table: usize) -> Option<usize>
    ensures { result ≡ slot_at slots.now table }
{
    match slots.get(table) {
        Some(slot) => *slot,
        None => None,
    }
}

/// Whether a row of a table is chosen.
pub fn is_chosen(slots: &[Option<usize>], table: usize) -> bool
    ensures { result ≡ is_chosen slots.now table }
{
    slot_at(slots, table).is_some()
}

/// Whether a table is one of the join's and its row is not yet chosen.
pub fn is_open(slots: &[Option<usize>], table: usize) -> bool
    ensures { result ≡ is_open slots.now table }
{
    match slots.get(table) {
        Some(slot) => slot.is_none(),
        None => false,
    }
}

/// Whether all columns of an expression are in chosen rows.
pub fn knows_expr(expr: &Expr, slots: &[Option<usize>]) -> bool
    ensures { result ≡ knows_expr slots.now expr.now }
{
    match expr {
        Expr::Keep(column) => is_chosen(slots, column.table),
        Expr::Aged { column, .. } => is_chosen(slots, column.table),
        Expr::Case {
            column,
            subject,
            ..
        } => is_chosen(slots, column.table) && is_chosen(slots, subject.table),
        Expr::Null(_) => true,
        Expr::Literal(_) => true,
    }
}

fn knows_exprs(exprs: &[Expr], slots: &[Option<usize>]) -> bool
    ensures { result ≡ list_all (knows_expr slots.now) exprs.now }
{
    exprs.iter().all(|expr| knows_expr(expr, slots))
}

/// Whether all columns of a condition are in chosen rows.
#[cycle(knows)]
pub fn knows(condition: &CondOf<Expr>, slots: &[Option<usize>]) -> bool
    ensures { result ≡ knows slots.now condition.now }
{
    match condition {
        CondOf::All(parts) => knows_parts(parts.as_slice(), slots),
        CondOf::Any(parts) => knows_parts(parts.as_slice(), slots),
        CondOf::Not(part) => knows(part.get(), slots),
        CondOf::Compare { left, right, .. } => knows_expr(left, slots) && knows_expr(right, slots),
        CondOf::Between { value, low, high } => {
            knows_expr(value, slots) && (knows_expr(low, slots) && knows_expr(high, slots))
        }
        CondOf::Among { value, list } => {
            knows_expr(value, slots) && knows_exprs(list.as_slice(), slots)
        }
        CondOf::Missing { value } => knows_expr(value, slots),
    }
}

#[cycle(knows)]
fn knows_parts(parts: &[CondOf<Expr>], slots: &[Option<usize>]) -> bool
    ensures { result ≡ list_all (knows slots.now) parts.now }
{
    for part in parts {
        if !knows(part, slots) {
            return false;
        }
    }
    true
}
