//! Temporary indexes: the rows of a table in the order of one of its columns.
ghost use Rattle.std.specs.Prelude.{◌≡◌, ◌+◌, ◌<◌, ◌≤◌, ◌++◌, ◌∷◌, [], true, false, length, IfOk, OnOk, map, option_copied, unwrap_or};
ghost use Rattle.std.specs.List.{Contains};
ghost use Rattle.std.specs.List.Sorted.{IsPermutation, IsSorted};
ghost use Rattle.std.specs.Ordering.{is_eq, is_lt, is_le};
ghost use Rattle.std.specs.declared.cmp.Ordering.TheVariants.{Equal};
ghost use Rattle.hippo_values.specs.declared.values.Value.TheVariants.{Null};
ghost use Rattle.hippo_values.specs.Order.{value_cmp};
ghost use Rattle.hippo_model.specs.Conditions.{is_null};
ghost use Rattle.hippo_model.specs.Terms.{Place};
ghost use Rattle.hippo_tables_keyed.specs.RowSets.{KeyedRows};
ghost use Rattle.hippo_join_lookups.specs.Lookups.{value_at_place, AllEqual, FindsEqual, HoldsOfEqual, IsByColumn, IsIndex, NoneAbove, NoneBelow};

use hippo_tables_rows::RowSet;
use hippo_values::{Duplicate, Memory, Value};
use std::alloc::Global;
use std::cell::Cell;
use std::cmp::Ordering;

/// Places of rows in the order of the values in a column, with these values.
#[derive(Drop)]
pub struct Index {
    pub places: Vec<usize>,
    pub values: Vec<Value>,
}

/// The value in a column of the row at a place, if there is one.
#[inline(always)]
pub fn value_at<'a>(set: &'a RowSet, column: usize, place: usize) -> Option<&'a Value>
    ensures { unwrap_or (option_copied result) Null ≡ value_at_place set.now column place }
{
    if place < set.len() {
        set.row(place).as_slice().get(column)
    } else {
        None
    }
}

/// Whether a value is null.
pub fn is_null(value: &Value) -> bool
    ensures { result ≡ is_null value.now }
{
    matches!(value, Value::Null)
}

fn value_order(set: &RowSet, column: usize, place: usize, value: &Value) -> Ordering
    ensures { result ≡ value_cmp (value_at_place set.now column place) value.now }
{
    value_at(set, column, place)
        .unwrap_or(&Value::Null)
        .cmp(value)
}

// Compares two rows by their values in a column.
fn row_order(set: &RowSet, column: usize, place: usize, other: usize) -> Ordering
    ensures { result ≡ value_cmp (value_at_place set.now column place)
        (value_at_place set.now column other) }
{
    value_order(
        set,
        column,
        place,
        value_at(set, column, other).unwrap_or(&Value::Null),
    )
}

// Compares two values. Not inlined, so that comparing numbers stays short.
#[inline(never)]
fn order_of(own: &Value, value: &Value) -> Ordering
    ensures { result ≡ value_cmp own.now value.now }
{
    own.cmp(value)
}

// Whether two values are equal.
#[inline(always)]
fn is_same(own: &Value, value: &Value) -> bool
    ensures { result ≡ is_eq (value_cmp own.now value.now) }
{
    match (own, value) {
        (Value::Int(own), Value::Int(value)) => *own == *value,
        _ => order_of(own, value).is_eq(),
    }
}

// Whether a value is less than another. Most keys are numbers, which are compared without a call,
// for speed.
#[inline(always)]
fn is_below(own: &Value, value: &Value) -> bool
    ensures { result ≡ is_lt (value_cmp own.now value.now) }
{
    match (own, value) {
        (Value::Int(own), Value::Int(value)) => *own < *value,
        _ => order_of(own, value).is_lt(),
    }
}

// Whether a value is at most another.
#[inline(always)]
fn is_within(own: &Value, value: &Value) -> bool
    ensures { result ≡ is_le (value_cmp own.now value.now) }
{
    match (own, value) {
        (Value::Int(own), Value::Int(value)) => *own <= *value,
        _ => order_of(own, value).is_le(),
    }
}

// Sorts places by the values in a column.
fn sort_by_column(set: &RowSet, column: usize, places: &mut [usize])
    ensures permutation { IsPermutation places.old places.new }
    ensures order { IsByColumn set.now column places.new }
{
    places.sort_unstable_by(|a, b| row_order(set, column, *a, *b));
}

// An owned copy of a value, or null if there is none.
fn copied_value(alloc: Global, value: Option<&Value>) -> Result<Value, Memory>
    ensures { IfOk result (λ made. made ≡ unwrap_or (option_copied value.entry) Null) }
{
    match value {
        None => Ok(Value::Null),
        Some(value) => Ok(value.copy(alloc)?),
    }
}

// Adds a copy of a value, or null if there is none. Numbers, the usual case, are added without a
// call.
#[inline(always)]
fn push_copy(alloc: Global, value: Option<&Value>, values: &mut Vec<Value>) -> Result<(), Memory>
    ensures { OnOk result (values.new.items
        ≡ values.old.items ++ unwrap_or (option_copied value.entry) Null ∷ []) }
{
    if let Some(Value::Int(number)) = value {
        values.push(Value::Int(*number))?;
        return Ok(());
    }
    values.push(copied_value(alloc, value)?)?;
    Ok(())
}

// The values in a column for the rows at some places.
fn values_at(
    alloc: Global,
    set: &RowSet,
    column: usize,
    places: &[usize],
) -> Result<Vec<Value>, Memory>
    ensures { IfOk result (λ values. values.items
        ≡ map (value_at_place set.now column) places.now) }
{
    let mut values = Vec::with_capacity(alloc, places.len())?;
    for place in places {
        push_copy(alloc, value_at(set, column, *place), &mut values)?;
    }
    Ok(values)
}

// Whether values are in ascending order; equal values may follow each other.
fn rises(values: &[Value]) -> bool
    ensures { result ≡ true → IsSorted value_cmp values.now }
{
    for index in 1..values.len() {
        if is_below(&values[index], &values[index - 1]) {
            return false;
        }
    }
    true
}

fn sorted_index(
    alloc: Global,
    set: &RowSet,
    column: usize,
    mut places: Vec<usize>,
) -> Result<Index, Memory>
    ensures permutation { IfOk result (λ index. IsPermutation places.items index.places.items) }
    ensures index { IfOk result (λ index. IsIndex set.now column index.values.items
        index.places.items) }
{
    sort_by_column(set, column, &mut places);
    let values = values_at(alloc, set, column, &places)?;
    Ok(Index { places, values })
}

/// Sorts places by the values in a column, and returns them with these values. Places that are
/// already in this order, such as those of rows that were inserted in it, are not sorted. To find
/// out takes one comparison for each place.
pub fn index_by_column(
    alloc: Global,
    set: &RowSet,
    column: usize,
    places: Vec<usize>,
) -> Result<Index, Memory>
    ensures permutation { IfOk result (λ index. IsPermutation places.items index.places.items) }
    ensures index { IfOk result (λ index. IsIndex set.now column index.values.items
        index.places.items) }
{
    let values = values_at(alloc, set, column, &places)?;
    if rises(&values) {
        return Ok(Index { places, values });
    }
    drop(values);
    sorted_index(alloc, set, column, places)
}

// The start of the values, in sorted order, that are not below a value, by binary search.
fn start_with(values: &[Value], value: &Value) -> usize
    ensures from { HoldsOfEqual values.now value.now (λ k. result ≤ k) }
    ensures above { NoneBelow values.now value.now result }
{
    values.partition_point(|own| is_below(own, value))
}

// Whether there is a value at a place and it is below another one.
fn is_below_at(values: &[Value], place: usize, value: &Value) -> bool
    ensures below { result ≡ true → HoldsOfEqual values.now value.now (λ k. place < k) }
    ensures above { result ≡ false → NoneBelow values.now value.now place }
{
    if place < values.len() {
        is_below(&values[place], value)
    } else {
        false
    }
}

// Whether the value at a place is above another one. True past the end.
fn is_above_at(values: &[Value], place: usize, value: &Value) -> bool
    ensures { result ≡ true → HoldsOfEqual values.now value.now (λ k. k < place) }
{
    if place < values.len() {
        !is_within(&values[place], value)
    } else {
        true
    }
}

// Whether a place is the first, or the value before it is below another one.
fn begins_at(values: &[Value], place: usize, value: &Value) -> bool
    ensures { result ≡ true → HoldsOfEqual values.now value.now (λ k. place ≤ k) }
{
    place == 0 || is_below_at(values, place - 1, value)
}

// The same start, tried near a place first, since successive lookups often ascend.
fn start_near(values: &[Value], near: usize, value: &Value) -> usize
    ensures from { HoldsOfEqual values.now value.now (λ k. result ≤ k) }
    ensures above { NoneBelow values.now value.now result }
{
    if !begins_at(values, near, value) {
        return start_with(values, value);
    }
    if is_below_at(values, near, value) {
        return start_with(values, value);
    }
    near
}

// The end of the values, from a place on, that are not above a value.
fn end_with(values: &[Value], start: usize, value: &Value) -> usize
    ensures upto { HoldsOfEqual values.now value.now (λ k. k < result) }
    ensures within { NoneAbove values.now value.now start result }
    ensures range { result ≤ length values.now }
{
    for end in start..values.len() {
        if !is_within(&values[end], value) {
            return end;
        }
    }
    values.len()
}

// Whether a value is equal to the one at a place and to no other, in sorted values.
fn is_only_at(values: &[Value], place: usize, value: &Value) -> bool
    ensures only { result ≡ true → HoldsOfEqual values.now value.now (λ k. k ≡ place) }
    ensures same { result ≡ true → AllEqual values.now value.now place (place + 1) }
{
    if place >= values.len() {
        return false;
    }
    if !is_same(&values[place], value) {
        return false;
    }
    is_above_at(values, place + 1, value) && begins_at(values, place, value)
}

// The same as `with_value`, by a search from where the last one ended. Not inlined, so that a
// lookup of the next value stays short.
#[inline(never)]
fn searched_with<'a>(
    places: &'a [usize],
    values: &[Value],
    value: &Value,
    near: &Cell<usize>,
) -> &'a [usize]
    ensures { FindsEqual places.now values.now value.now result.now }
{
    let start = start_near(values, near.get(), value);
    let end = end_with(values, start, value);
    near.set(end);
    if places.len() < end {
        return &places[..0];
    }
    if end < start {
        return &places[..0];
    }
    &places[start..end]
}

/// The places of exactly the rows that have a value. The places are sorted by the values in a
/// column, which are given too. The search starts at `near`, where the last one ended, and updates
/// it.
#[inline(always)]
pub fn with_value<'a>(
    places: &'a [usize],
    values: &[Value],
    value: &Value,
    near: &Cell<usize>,
) -> &'a [usize]
    ensures { FindsEqual places.now values.now value.now result.now }
{
    let last = near.get();
    if last < places.len() && is_only_at(values, last, value) {
        near.set(last + 1);
        return &places[last..last + 1];
    }
    searched_with(places, values, value, near)
}
