//! Secondary orders: orders of a table's rows by a column other than the first of its key.
ghost use Rattle.std.specs.Prelude.{◌≡◌, ◌<◌, ◌≤◌, ◌++◌, ◌∷◌, [], true, false, ℕ, suc, length, map, Some, slice_get, IfOk, IfSome, OnOk};
ghost use Rattle.std.specs.List.Sorted.{IsPermutation};
ghost use Rattle.std.specs.List.{All, Contains, range_with_len};
ghost use Rattle.std.specs.Ordering.{is_eq};
ghost use Rattle.hippo_values.specs.Order.{value_cmp};
ghost use Rattle.hippo_values.specs.declared.values.Value.{Value};
ghost use Rattle.hippo_values.specs.declared.moments.Moment.{Moment};
ghost use Rattle.hippo_model.specs.declared.born_row.BornRow.{BornRow};
ghost use Rattle.hippo_model.specs.Terms.{Place};
ghost use Rattle.hippo_model.specs.Rows.{cell_at, key_of};
ghost use Rattle.hippo_tables_keyed.specs.RowSets.{KeyedRows, with_row, without_row, find_row};
ghost use Rattle.hippo_tables_rows.specs.Ranges.{HasAllWithin, IsEdge};
ghost use Rattle.hippo_tables_rows.specs.ColumnOrders.{order_key, AreOrderKeysOf, AreEntered, AreGathered, IsOrderOf, AreOrdersOf, AreReadyFor, IsReadyFor};

use crate::ranges::{Bound, ends_within};
use hippo_model::{Cells, Places};
use hippo_tables_keyed::KeyedSet;
use hippo_values::{Duplicate, Memory, Moment, Value};
use std::alloc::Global;

// A secondary order of rows, by a column. An entry is the row's value in that column, followed by
// the row's key. There are no entries if memory for them ran out.
#[derive(Drop)]
pub(crate) struct ColumnOrder {
    pub(crate) column: usize,
    pub(crate) entries: Option<KeyedSet>,
}

// Appends a copy of the value in a row's column.
fn push_cell(alloc: Global, row: &[Value], column: usize, entry: &mut Cells) -> Result<(), Memory>
    ensures { OnOk result (entry.new ≡ entry.old ++ cell_at row.now column ∷ []) }
{
    let cell = row.get(column).unwrap_or(&Value::Null).copy(alloc)?;
    entry.push(cell)
}

fn entry_of(alloc: Global, column: usize, key: &[usize], row: &[Value]) -> Result<Cells, Memory>
    ensures { IfOk result (λ made. made ≡ order_key column key.now row.now) }
{
    let mut entry = Cells::with_capacity(alloc, key.len().saturating_add(1))?;
    push_cell(alloc, row, column, &mut entry)?;
    for place in key {
        push_cell(alloc, row, *place, &mut entry)?;
    }
    Ok(entry)
}

// Inserts a row's entry.
fn enter(
    alloc: Global,
    column: usize,
    key: &[usize],
    row: &[Value],
    born: Moment,
    entries: &mut KeyedSet,
) -> Result<(), Memory>
    ensures { OnOk result (entries.new
        ≡ with_row (record { row = order_key column key.now row.now; born = born }) entries.old) }
{
    entries.put(entry_of(alloc, column, key, row)?, born)
}

// Removes a row's entry.
fn leave(
    alloc: Global,
    column: usize,
    key: &[usize],
    row: &[Value],
    entries: &mut KeyedSet,
) -> Result<(), Memory>
    ensures { OnOk result (entries.new ≡ without_row (order_key column key.now row.now)
        entries.old) }
{
    let entry = entry_of(alloc, column, key, row)?;
    entries.take(&entry);
    Ok(())
}

// Whether two rows have the same value in a column.
fn is_alike(column: usize, row: &[Value], other: &[Value]) -> bool
    ensures { result ≡ is_eq (value_cmp (cell_at row.now column) (cell_at other.now column)) }
{
    row.get(column)
        .unwrap_or(&Value::Null)
        .cmp(other.get(column).unwrap_or(&Value::Null))
        .is_eq()
}

// Replaces the entry of the row at a place by that of the row which will replace it in the set.
fn replace(
    alloc: Global,
    column: usize,
    set: &KeyedSet,
    place: usize,
    row: &Cells,
    born: Moment,
    entries: &mut KeyedSet,
) -> Result<(), Memory>
    requires range { place < length set.now.rows }
    requires found { find_row set.now.key (key_of set.now.key row.now) set.now.rows ≡ Some place }
    ensures { AreOrderKeysOf column set.now entries.old
        → OnOk result (AreOrderKeysOf column
        (with_row (record { row = row.now; born = born }) set.now) entries.new) }
{
    let key = set.key().as_slice();
    let old = set.row(place).as_slice();
    if is_alike(column, old, row.as_slice()) {
        return Ok(());
    }
    leave(alloc, column, key, old, entries)?;
    enter(alloc, column, key, row.as_slice(), born, entries)
}

// Inserts the entry of a row that will be put into the set.
fn prepare(
    alloc: Global,
    column: usize,
    set: &KeyedSet,
    row: &Cells,
    born: Moment,
    entries: &mut KeyedSet,
) -> Result<(), Memory>
    ensures { AreOrderKeysOf column set.now entries.old
        → OnOk result (AreReadyFor column (record { row = row.now; born = born }) set.now
        entries.new) }
{
    match set.find_like(row) {
        None => {
            let key = set.key().as_slice();
            enter(alloc, column, key, row.as_slice(), born, entries)
        }
        Some(place) => replace(alloc, column, set, place, row, born, entries),
    }
}

// Removes the entry of a row that will be removed from the set.
fn forget(
    alloc: Global,
    column: usize,
    set: &KeyedSet,
    key: &Cells,
    entries: &mut KeyedSet,
) -> Result<(), Memory>
    ensures { AreOrderKeysOf column set.now entries.old
        → OnOk result (AreOrderKeysOf column (without_row key.now set.now) entries.new) }
{
    match set.find(key) {
        None => Ok(()),
        Some(place) => leave(
            alloc,
            column,
            set.key().as_slice(),
            set.row(place).as_slice(),
            entries,
        ),
    }
}

fn prepared(
    alloc: Global,
    column: usize,
    set: &KeyedSet,
    row: &Cells,
    born: Moment,
    mut entries: KeyedSet,
) -> Option<KeyedSet>
    ensures { AreOrderKeysOf column set.now entries
        → IfSome result (λ made. AreReadyFor column (record { row = row.now; born = born }) set.now
        made) }
{
    match prepare(alloc, column, set, row, born, &mut entries) {
        Ok(()) => Some(entries),
        Err(Memory) => None,
    }
}

fn forgotten(
    alloc: Global,
    column: usize,
    set: &KeyedSet,
    key: &Cells,
    mut entries: KeyedSet,
) -> Option<KeyedSet>
    ensures { AreOrderKeysOf column set.now entries
        → IfSome result (λ made. AreOrderKeysOf column (without_row key.now set.now) made) }
{
    match forget(alloc, column, set, key, &mut entries) {
        Ok(()) => Some(entries),
        Err(Memory) => None,
    }
}

// Prepares an order for a row that will be put into its set, or drops the order's entries when out
// of memory.
fn prepare_order(alloc: Global, set: &KeyedSet, row: &Cells, born: Moment, order: &mut ColumnOrder)
    ensures { IsOrderOf set.now order.old
        → IsReadyFor (record { row = row.now; born = born }) set.now order.new }
{
    order.entries = match order.entries.take() {
        None => None,
        Some(entries) => prepared(alloc, order.column, set, row, born, entries),
    };
}

// Updates an order for the removal of a row from its set, or drops the order's entries when out of
// memory.
fn forget_in_order(alloc: Global, set: &KeyedSet, key: &Cells, order: &mut ColumnOrder)
    ensures { IsOrderOf set.now order.old → IsOrderOf (without_row key.now set.now) order.new }
{
    order.entries = match order.entries.take() {
        None => None,
        Some(entries) => forgotten(alloc, order.column, set, key, entries),
    };
}

// Prepares orders for a row that will be put into their set.
pub(crate) fn prepare_orders(
    alloc: Global,
    set: &KeyedSet,
    row: &Cells,
    born: Moment,
    orders: &mut [ColumnOrder],
)
    ensures { AreOrdersOf set.now orders.old
        → All (IsReadyFor (record { row = row.now; born = born }) set.now) orders.new }
{
    for place in 0..orders.len() {
        prepare_order(alloc, set, row, born, &mut orders[place]);
    }
}

// Updates orders for the removal of a row from their set.
pub(crate) fn forget_in_orders(
    alloc: Global,
    set: &KeyedSet,
    key: &Cells,
    orders: &mut [ColumnOrder],
)
    ensures { AreOrdersOf set.now orders.old
        → AreOrdersOf (without_row key.now set.now) orders.new }
{
    for place in 0..orders.len() {
        forget_in_order(alloc, set, key, &mut orders[place]);
    }
}

// The places from 0 to `last`, inclusive.
fn places_to(alloc: Global, last: usize) -> Result<Places, Memory>
    ensures { IfOk result (λ made. made ≡ range_with_len 0 (suc last)) }
{
    let mut places = Places::with_capacity(alloc, last.saturating_add(1))?;
    for place in 0..last {
        places.push(place)?;
    }
    places.push(last)?;
    Ok(places)
}

// For each row, its value in a column, then its place.
fn ranked<'a>(
    alloc: Global,
    column: usize,
    set: &'a KeyedSet,
) -> Result<Vec<(Option<&'a Value>, usize)>, Memory>
    ensures { IfOk result (λ ranked. map (λ pair. pair.1) ranked.items
        ≡ range_with_len 0 (length set.now.rows)) }
{
    let mut ranked = Vec::with_capacity(alloc, set.len())?;
    for place in 0..set.len() {
        ranked.push((set.row(place).as_slice().get(column), place))?;
    }
    Ok(ranked)
}

fn places_in(alloc: Global, ranked: &[(Option<&Value>, usize)]) -> Result<Vec<usize>, Memory>
    ensures { IfOk result (λ places. places.items ≡ map (λ pair. pair.1) ranked.now) }
{
    Ok(ranked.iter().map(|pair| pair.1).collect(alloc)?)
}

// The places of all rows, sorted by their values in a column.
fn places_by(alloc: Global, column: usize, set: &KeyedSet) -> Result<Vec<usize>, Memory>
    ensures { IfOk result (λ places. IsPermutation (range_with_len 0 (length set.now.rows))
        places.items) }
{
    let mut ranked = ranked(alloc, column, set)?;
    ranked.sort_unstable();
    places_in(alloc, &ranked)
}

// Inserts the entries of the rows at some places.
fn fill(
    alloc: Global,
    column: usize,
    set: &KeyedSet,
    places: &[usize],
    entries: &mut KeyedSet,
) -> Result<(), Memory>
    requires { All (λ place. place < length set.now.rows) places.now }
    ensures { entries.old.key ≡ range_with_len 0 (suc (length set.now.key))
        → OnOk result (AreEntered column set.now places.now entries.new) }
{
    let key = set.key().as_slice();
    for place in places {
        let kept = set.born_row(*place);
        let row = kept.row.as_slice();
        enter(alloc, column, key, row, kept.born, entries)?;
    }
    Ok(())
}

// The entries of a set's rows, inserted in their own order, so that each is appended.
pub(crate) fn entries_of(alloc: Global, column: usize, set: &KeyedSet) -> Result<KeyedSet, Memory>
    ensures { IfOk result (λ entries. AreOrderKeysOf column set.now entries) }
{
    let places = places_by(alloc, column, set)?;
    let mut entries = KeyedSet::new(alloc, places_to(alloc, set.key().len())?);
    fill(alloc, column, set, &places, &mut entries)?;
    Ok(entries)
}

// The index of an order without entries, or the end if there is none.
pub(crate) fn free_place(orders: &[ColumnOrder]) -> usize {
    orders
        .iter()
        .position(|order| order.entries.is_none())
        .unwrap_or(orders.len())
}

// Adds an order, unless out of memory.
pub(crate) fn add_order(orders: &mut Vec<ColumnOrder>, column: usize, entries: KeyedSet)
    ensures { (set : KeyedRows) → AreOrderKeysOf column set entries
        → AreOrdersOf set orders.old.items
        → AreOrdersOf set orders.new.items }
{
    let order = ColumnOrder {
        column,
        entries: Some(entries),
    };
    let place = free_place(orders.as_slice());
    if place < orders.len() {
        orders[place] = order;
    } else {
        let _ = orders.push(order);
    }
}

// The entries of an order, if it is by this column.
fn own_entries(order: &ColumnOrder, column: usize) -> Option<&KeyedSet>
    ensures { (set : KeyedRows) → IsOrderOf set order.now
        → IfSome result (λ entries. AreOrderKeysOf column set entries.now) }
{
    if order.column == column {
        order.entries.as_ref()
    } else {
        None
    }
}

// The entries of the order by a column, if there are any.
pub(crate) fn entries_by(orders: &[ColumnOrder], column: usize) -> Option<&KeyedSet>
    ensures { (set : KeyedRows) → AreOrdersOf set orders.now
        → IfSome result (λ entries. AreOrderKeysOf column set entries.now) }
{
    for order in orders {
        if let Some(entries) = own_entries(order, column) {
            return Some(entries);
        }
    }
    None
}

// Appends the place of the row whose key an entry holds, if the set has this row.
fn add_place(set: &KeyedSet, entry: &[Value], places: &mut Vec<usize>) -> Result<(), Memory>
    ensures range { All (λ place. place < length set.now.rows) places.old.items
        → OnOk result (All (λ place. place < length set.now.rows) places.new.items) }
    ensures kept { OnOk result ((place : Place) → Contains places.old.items place
        → Contains places.new.items place) }
    ensures added { OnOk result ((cell : Value) → (kept : BornRow) → (place : Place)
        → slice_get set.now.rows place ≡ Some kept → entry.now ≡ cell ∷ key_of set.now.key kept.row
        → Contains places.new.items place) }
{
    let Some((_, key)) = entry.split_first() else {
        return Ok(());
    };
    let Some(place) = set.find_values(key) else {
        return Ok(());
    };
    places.push(place)?;
    Ok(())
}

// Appends the places of the rows whose entries are in a range.
fn add_places(
    entries: &KeyedSet,
    set: &KeyedSet,
    start: usize,
    end: usize,
    places: &mut Vec<usize>,
) -> Result<(), Memory>
    requires { end ≤ length entries.now.rows }
    ensures range { All (λ place. place < length set.now.rows) places.old.items
        → OnOk result (All (λ place. place < length set.now.rows) places.new.items) }
    ensures all { OnOk result (AreGathered entries.now set.now start end places.new.items) }
{
    for place in start..end {
        add_place(set, entries.row(place).as_slice(), places)?;
    }
    Ok(())
}

// The range of the entries whose value is within two bounds.
fn entries_within(
    entries: &KeyedSet,
    low: Option<Bound<'_>>,
    high: Option<Bound<'_>>,
) -> (usize, usize)
    requires { (n : ℕ) × (entries.now.key ≡ range_with_len 0 (suc n)) }
    ensures range { result.1 ≤ length entries.now.rows }
    ensures low { IsEdge entries.now [] 0 false low.entry result.0 }
    ensures high { IsEdge entries.now [] 0 true high.entry result.1 }
{
    ends_within(entries, 0, low, high)
}

// The number of entries within two bounds.
pub(crate) fn count_among(
    entries: &KeyedSet,
    column: usize,
    set: &KeyedSet,
    low: Option<Bound<'_>>,
    high: Option<Bound<'_>>,
) -> usize
    requires { AreOrderKeysOf column set.now entries.now }
{
    let (start, end) = entries_within(entries, low, high);
    end.saturating_sub(start)
}

// Places of rows of the set that include all rows whose value in a column is within two bounds.
pub(crate) fn places_among(
    alloc: Global,
    entries: &KeyedSet,
    column: usize,
    set: &KeyedSet,
    low: Option<Bound<'_>>,
    high: Option<Bound<'_>>,
) -> Result<Vec<usize>, Memory>
    requires { AreOrderKeysOf column set.now entries.now }
    ensures { IfOk result (λ places. HasAllWithin set.now column low.entry high.entry
        places.items) }
{
    let mut places = Vec::new(alloc);
    if set.is_empty() {
        return Ok(places);
    }
    let (start, end) = entries_within(entries, low, high);
    add_places(entries, set, start, end, &mut places)?;
    Ok(places)
}
