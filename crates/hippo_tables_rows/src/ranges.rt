//! Range lookups in key order: the first values of the key are fixed, or its first value has
//! bounds.
ghost use Rattle.std.specs.Prelude.{◌≡◌, ◌<◌, ◌≤◌, [], true, false, None, Some, IfOk, length, nat_lt, slice_get};
ghost use Rattle.std.specs.List.{All, Contains};
ghost use Rattle.std.specs.declared.cmp.Ordering.TheVariants.{Equal};
ghost use Rattle.hippo_model.specs.Terms.{Place};
ghost use Rattle.hippo_model.specs.Rows.{key_of};
ghost use Rattle.hippo_tables_keyed.specs.RowSets.{row_at_place};
ghost use Rattle.hippo_tables_rows.specs.Ranges.{front_cmp, is_low, is_past, stands_low, HasAllWithin, IsEdge};

use hippo_tables_keyed::{KeyedSet, cell_order};
use hippo_values::{Memory, Value};
use std::alloc::Global;
use std::cmp::Ordering;
use std::slice;

/// A lower or upper bound on values, and whether it is strict, that is, excludes the value itself.
#[derive(Clone, Copy)]
pub struct Bound<'a> {
    pub value: &'a Value,
    pub strict: bool,
}

impl<'a> Bound<'a> {
    /// Whether values equal to the bound come before the end that it makes in sorted values, for an
    /// upper bound (`above`) or a lower one.
    pub fn is_past(&self, above: bool) -> bool
        ensures { result ≡ is_past above self.now.strict }
    {
        if above { !self.strict } else { self.strict }
    }
}

// Compares the beginning of a row's key with some values.
fn front_order(row: &[Value], columns: &[usize], front: &[Value]) -> Ordering
    ensures { result ≡ front_cmp (key_of columns.now row.now) front.now }
{
    for (column, value) in columns.iter().zip(front) {
        let order = cell_order(row, *column, value);
        if order.is_ne() {
            return order;
        }
    }
    Ordering::Equal
}

// Whether a row that compares this way comes before an end. With `past`, equal rows do too.
fn is_low(order: Ordering, past: bool) -> bool
    ensures { result ≡ is_low past order }
{
    if past { order.is_le() } else { order.is_lt() }
}

#[inline(always)]
fn stands_low(set: &KeyedSet, front: &[Value], past: bool, place: usize) -> bool
    requires { place < length set.now.rows }
    ensures { result ≡ stands_low set.now front.now past place }
{
    is_low(
        front_order(set.row(place).as_slice(), set.key().as_slice(), front),
        past,
    )
}

// The number of rows before those whose key begins with these values. With `past`, these rows count
// too. By binary search.
pub(crate) fn split(set: &KeyedSet, front: &[Value], past: bool) -> usize
    ensures range { result ≤ length set.now.rows }
    ensures parted { (place : Place) → place < length set.now.rows
        → stands_low set.now front.now past place ≡ nat_lt place result }
{
    let mut low = 0;
    let mut high = set.len();
    while low < high {
        let middle = low + (high - low) / 2;
        if stands_low(set, front, past, middle) {
            low = middle + 1;
        } else {
            high = middle;
        }
    }
    low
}

// Whether the keys of all rows in a range begin with these values. Reads only the first and the
// last row.
pub(crate) fn all_begin_with(set: &KeyedSet, front: &[Value], start: usize, end: usize) -> bool
    ensures { result ≡ true → (place : Place) → start ≤ place → place < end
        → front_cmp (key_of set.now.key (row_at_place set.now.rows place).row) front.now ≡ Equal }
{
    let count = set.len();
    if start >= end {
        return true;
    }
    if end > count {
        return false;
    }
    !stands_low(set, front, false, start) && stands_low(set, front, true, end - 1)
}

// The end of all rows, or their start.
fn open_edge(set: &KeyedSet, column: usize, above: bool) -> usize
    ensures range { result ≤ length set.now.rows }
    ensures edge { IsEdge set.now [] column above None result }
{
    if above { set.len() } else { 0 }
}

// The start or the end of the rows within a bound.
fn bounded_edge(set: &KeyedSet, column: usize, above: bool, bound: Bound<'_>) -> usize
    requires { slice_get set.now.key 0 ≡ Some column }
    ensures range { result ≤ length set.now.rows }
    ensures edge { IsEdge set.now [] column above (Some bound.entry) result }
{
    split(set, slice::from_ref(bound.value), bound.is_past(above))
}

// The start or the end of the rows within a bound on the key's first column.
fn edge(set: &KeyedSet, column: usize, above: bool, bound: Option<Bound<'_>>) -> usize
    requires { slice_get set.now.key 0 ≡ Some column }
    ensures range { result ≤ length set.now.rows }
    ensures edge { IsEdge set.now [] column above bound.entry result }
{
    match bound {
        None => open_edge(set, column, above),
        Some(bound) => bounded_edge(set, column, above, bound),
    }
}

// The range of the rows whose value in the key's first column is within two bounds.
pub(crate) fn ends_within(
    set: &KeyedSet,
    column: usize,
    low: Option<Bound<'_>>,
    high: Option<Bound<'_>>,
) -> (usize, usize)
    requires { slice_get set.now.key 0 ≡ Some column }
    ensures range { result.1 ≤ length set.now.rows }
    ensures low { IsEdge set.now [] column false low.entry result.0 }
    ensures high { IsEdge set.now [] column true high.entry result.1 }
{
    (edge(set, column, false, low), edge(set, column, true, high))
}

// The number of rows within two bounds on the key's first column.
pub(crate) fn own_count(
    set: &KeyedSet,
    column: usize,
    low: Option<Bound<'_>>,
    high: Option<Bound<'_>>,
) -> usize
    requires { slice_get set.now.key 0 ≡ Some column }
{
    let (start, end) = ends_within(set, column, low, high);
    end.saturating_sub(start)
}

// The places from `start` to before `end`.
fn places_between(
    alloc: Global,
    set: &KeyedSet,
    start: usize,
    end: usize,
) -> Result<Vec<usize>, Memory>
    requires { end ≤ length set.now.rows }
    ensures range { IfOk result (λ places. All
        (λ place. place < length set.now.rows) places.items) }
    ensures all { IfOk result (λ places. (place : Place) → start ≤ place → place < end
        → Contains places.items place) }
{
    let mut places = Vec::new(alloc);
    for place in start..end {
        places.push(place)?;
    }
    Ok(places)
}

// Places of rows that include all rows whose value in the key's first column is within two bounds.
pub(crate) fn own_places(
    alloc: Global,
    set: &KeyedSet,
    column: usize,
    low: Option<Bound<'_>>,
    high: Option<Bound<'_>>,
) -> Result<Vec<usize>, Memory>
    requires { slice_get set.now.key 0 ≡ Some column }
    ensures { IfOk result (λ places. HasAllWithin set.now column low.entry high.entry
        places.items) }
{
    let (start, end) = ends_within(set, column, low, high);
    let places = places_between(alloc, set, start, end)?;
    Ok(places)
}
