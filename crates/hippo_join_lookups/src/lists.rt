//! Lookup of rows by a column that a list of literals restricts (`column IN (..)`).
ghost use Rattle.std.specs.Prelude.{◌≡◌, ◌∷◌, [], ◌<◌, true, false, IfOk, IfSome, OnOk, length};
ghost use Rattle.std.specs.List.{Contains, list_all};
ghost use Rattle.hippo_model.specs.declared.query.CondOf.TheVariants.{Among};
ghost use Rattle.hippo_model.specs.declared.query.Expr.TheVariants.{Literal};
ghost use Rattle.hippo_model.specs.Terms.{Place};
ghost use Rattle.hippo_join_lookups.specs.Lists.{is_literal, IsListedBy};
ghost use Rattle.hippo_join_lookups.specs.Lookups.{value_at_place};

use crate::ties::shows_column;
use hippo_model::{CondOf, Expr, Ref};
use hippo_tables_rows::{Bound, RowSet};
use hippo_values::{Memory, Value};
use std::alloc::Global;

fn is_literal(expr: &Expr) -> bool
    ensures { result ≡ is_literal expr.now }
{
    matches!(expr, Expr::Literal(_))
}

fn are_literals(list: &[Expr]) -> bool
    ensures { result ≡ list_all is_literal list.now }
{
    list.iter().all(|item| is_literal(item))
}

// The list, if it restricts this column and holds only literals.
fn list_beside<'a>(column: Ref, value: &Expr, list: &'a [Expr]) -> Option<&'a [Expr]>
    ensures { IfSome result (λ found. IsListedBy (Among value.now list.now ∷ []) column found.now) }
{
    if !shows_column(value, column) {
        return None;
    }
    if are_literals(list) { Some(list) } else { None }
}

fn list_by_part(column: Ref, part: &CondOf<Expr>) -> Option<&[Expr]>
    ensures { IfSome result (λ found. IsListedBy (part.now ∷ []) column found.now) }
{
    match part {
        CondOf::Among { value, list } => list_beside(column, value, list.as_slice()),
        _ => None,
    }
}

/// A list of literals that the parts of a condition require the column's value to be in, if there
/// is one.
pub fn find_list(parts: &[CondOf<Expr>], column: Ref) -> Option<&[Expr]>
    ensures { IfSome result (λ list. IsListedBy parts.now column list.now) }
{
    for part in parts {
        if let Some(list) = list_by_part(column, part) {
            return Some(list);
        }
    }
    None
}

// The inclusive bound at a value, for use as lower and as upper bound.
fn bound_at(value: &Value) -> Bound<'_>
    ensures value { result.value.now ≡ value.now }
    ensures strict { result.strict ≡ false }
{
    Bound {
        value,
        strict: false,
    }
}

fn count_with(set: &RowSet, column: usize, item: &Expr) -> usize {
    let Expr::Literal(value) = item else {
        return 0;
    };
    let end = Some(bound_at(value));
    set.count_within(column, end, end).unwrap_or(0)
}

/// The number of rows that a lookup by the values of a list finds in a column.
pub fn count_listed(set: &RowSet, column: usize, list: &[Expr]) -> usize {
    let mut count: usize = 0;
    for item in list {
        count = count.saturating_add(count_with(set, column, item));
    }
    count
}

// The places of the rows that have a value in a column.
fn places_with(
    alloc: Global,
    set: &RowSet,
    column: usize,
    value: &Value,
) -> Result<Option<Vec<usize>>, Memory>
    ensures { IfOk result (λ found. IfSome found
        (λ places. (place : Place) → place < length set.now.rows
        → value.now ≡ value_at_place set.now column place → Contains places.items place)) }
{
    let end = Some(bound_at(value));
    set.places_within(alloc, column, end, end)
}

// Adds the places found by an item of a list. Returns whether a lookup was possible; an item that
// is no literal finds no rows.
fn add_item(
    alloc: Global,
    set: &RowSet,
    column: usize,
    item: &Expr,
    places: &mut Vec<usize>,
) -> Result<bool, Memory>
    ensures kept { OnOk result ((place : Place) → Contains places.old.items place
        → Contains places.new.items place) }
    ensures added { IfOk result (λ found. found ≡ true → (place : Place)
        → place < length set.now.rows
        → item.now ≡ Literal (value_at_place set.now column place)
        → Contains places.new.items place) }
{
    let Expr::Literal(value) = item else {
        return Ok(false);
    };
    let found = places_with(alloc, set, column, value)?;
    let Some(more) = found else {
        return Ok(false);
    };
    places.extend_from_slice(more.as_slice())?;
    Ok(true)
}

/// The places of the rows whose value in a column is in a list.
pub fn places_listed(
    alloc: Global,
    set: &RowSet,
    column: usize,
    list: &[Expr],
) -> Result<Option<Vec<usize>>, Memory>
    ensures { IfOk result (λ found. IfSome found
        (λ places. (place : Place) → place < length set.now.rows
        → Contains list.now (Literal (value_at_place set.now column place))
        → Contains places.items place)) }
{
    let mut places = Vec::new(alloc);
    for item in list {
        if !add_item(alloc, set, column, item, &mut places)? {
            return Ok(None);
        }
    }
    Ok(Some(places))
}
