//! A table's rows, sorted by key, with secondary orders by other columns.
ghost use Rattle.std.specs.Prelude.{◌≡◌, ◌<◌, ◌≤◌, ◌↔◌, [], true, false, length, map, nat_lt, option_map, slice_get, Some, IsTrue, OnErr, IfOk, IfSome};
ghost use Rattle.std.specs.List.{All, Contains};
ghost use Rattle.hippo_model.specs.Terms.{Place};
ghost use Rattle.hippo_model.specs.Rows.{key_of};
ghost use Rattle.hippo_tables_rows.specs.Ranges.{stands_low, KeepsBound};
ghost use Rattle.hippo_tables_keyed.specs.RowSets.{IsAscending, key_in, Inserts, Puts, with_row, without_row, find_row, value_at_place};

use crate::column_order::{
    ColumnOrder, add_order, count_among, entries_by, entries_of, forget_in_orders, free_place,
    places_among, prepare_orders,
};
use crate::ranges::{Bound, all_begin_with, own_count, own_places, split};
use hippo_model::{BornRow, Cells, Lent, Places};
use hippo_tables_keyed::KeyedSet;
use hippo_values::{Memory, Moment, Value};
use std::alloc::Global;
use std::marker::Model;
use std::slice;

// The maximum number of secondary orders of a set.
const ORDER_LIMIT: usize = 8;

// At or below this many rows, a set keeps no secondary order, since a scan is fast.
const FEW_ROWS: usize = 256;

/// The rows of a table, sorted by key, each with the moment at which it was born.
#[derive(Drop)]
pub struct RowSet {
    set: KeyedSet,
    orders: Vec<ColumnOrder>,
}

impl Model for RowSet {
    ghost use Rattle.hippo_tables_keyed.specs.RowSets.{KeyedRows};
    ghost use Rattle.hippo_tables_rows.specs.ColumnOrders.{AreOrdersOf};

    ghost Value = { KeyedRows };

    ghost view = { λ rows. rows.set };

    ghost invariant = { λ rows. AreOrdersOf rows.set rows.orders.items };
}

impl RowSet {
    /// An empty set for a table whose key has these columns. Allocates no memory.
    pub fn new(alloc: Global, key: Places) -> RowSet
        ensures { result ≡ record { key = key; rows = [] } }
    {
        RowSet {
            set: KeyedSet::new(alloc, key),
            orders: Vec::new(alloc),
        }
    }

    /// Inserts a row at its place in the order of keys, or replaces the row with the same key. The
    /// set is unchanged when out of memory, which cannot happen when a row is replaced.
    pub fn put(&mut self, row: Cells, born: Moment) -> Result<(), Memory>
        ensures { Puts (record { row = row; born = born }) self.old self.new result }
    {
        let alloc = *self.orders.allocator();
        prepare_orders(alloc, &self.set, &row, born, self.orders.as_mut_slice());
        self.set.put(row, born)
    }

    /// Inserts a row at its place in the order of keys, and returns the place. Returns None, and
    /// does nothing, if a row has the same key. The set is unchanged when out of memory. Takes one
    /// search, and one more for each secondary order.
    pub fn insert(&mut self, row: Cells, born: Moment) -> Result<Option<usize>, Memory>
        ensures ok { IfOk result (Inserts (record { row = row; born = born }) self.old self.new) }
        ensures err { OnErr result (self.new ≡ self.old) }
    {
        let Some(place) = self.set.place_for(&row) else {
            return Ok(None);
        };
        let alloc = *self.orders.allocator();
        prepare_orders(alloc, &self.set, &row, born, self.orders.as_mut_slice());
        self.set.insert_at(place, row, born)?;
        Ok(Some(place))
    }

    /// Replaces the row with the same key, which is at `place`, and returns the old row. Needs no
    /// memory. Takes no search, except for secondary orders.
    pub fn replace(&mut self, place: usize, row: Cells, born: Moment) -> BornRow
        requires { find_row self.old.key (key_of self.old.key row) self.old.rows ≡ Some place }
        ensures set { self.new ≡ with_row (record { row = row; born = born }) self.old }
        ensures old { slice_get self.old.rows place ≡ Some result }
    {
        let alloc = *self.orders.allocator();
        prepare_orders(alloc, &self.set, &row, born, self.orders.as_mut_slice());
        self.set.replace(place, row, born)
    }

    /// Removes the row with a key, if there is one.
    pub fn take(&mut self, key: &Cells)
        ensures { self.new ≡ without_row key.now self.old }
    {
        let alloc = *self.orders.allocator();
        forget_in_orders(alloc, &self.set, key, self.orders.as_mut_slice());
        self.set.take(key);
    }

    /// Creates a secondary order of the rows by a column, and maintains it from now on. Rows within
    /// bounds on the column are then found by binary search. Does nothing if there is such an order
    /// already, if there are eight orders, if the column is the first of the key, if there are 256
    /// rows or fewer, or when out of memory.
    pub fn order_by(&mut self, alloc: Global, column: usize)
        ensures { self.new ≡ self.old }
    {
        if !self.wants_order(column) {
            return;
        }
        if let Ok(entries) = entries_of(alloc, column, &self.set) {
            add_order(&mut self.orders, column, entries);
        }
    }

    // Whether a column has no order and a secondary order of it would be kept.
    fn wants_order(&self, column: usize) -> bool {
        self.len() > FEW_ROWS
            && free_place(self.orders.as_slice()) < ORDER_LIMIT
            && !self.is_ordered_by(column)
    }

    /// Whether rows can be looked up by a column: it is the first of the key, or it has a secondary
    /// order.
    pub fn is_ordered_by(&self, column: usize) -> bool {
        self.set.begins_with(column) || entries_by(self.orders.as_slice(), column).is_some()
    }

    /// The number of rows that a lookup by a column finds within two bounds. None if rows cannot be
    /// looked up by this column.
    pub fn count_within(
        &self,
        column: usize,
        low: Option<Bound<'_>>,
        high: Option<Bound<'_>>,
    ) -> Option<usize> {
        if self.set.begins_with(column) {
            return Some(own_count(&self.set, column, low, high));
        }
        match entries_by(self.orders.as_slice(), column) {
            None => None,
            Some(entries) => Some(count_among(entries, column, &self.set, low, high)),
        }
    }

    /// Places of rows of the set that include all rows whose value in a column is within two
    /// bounds. None if rows cannot be looked up by this column.
    pub fn places_within(
        &self,
        alloc: Global,
        column: usize,
        low: Option<Bound<'_>>,
        high: Option<Bound<'_>>,
    ) -> Result<Option<Vec<usize>>, Memory>
        ensures range { IfOk result (λ found. IfSome found (λ places.
            All (λ place. place < length self.now.rows) places.items)) }
        ensures all { IfOk result (λ found. IfSome found
            (λ places. (place : Place) → place < length self.now.rows
            → KeepsBound false low.entry (value_at_place self.now column place)
            → KeepsBound true high.entry (value_at_place self.now column place)
            → Contains places.items place)) }
    {
        if self.set.begins_with(column) {
            let places = own_places(alloc, &self.set, column, low, high)?;
            return Ok(Some(places));
        }
        match entries_by(self.orders.as_slice(), column) {
            None => Ok(None),
            Some(entries) => {
                let places = places_among(alloc, entries, column, &self.set, low, high)?;
                Ok(Some(places))
            }
        }
    }

    /// The number of rows before those whose key begins with these values. With `past`, these rows
    /// count too. By binary search.
    pub fn split(&self, front: &[Value], past: bool) -> usize
        ensures range { result ≤ length self.now.rows }
        ensures parted { (place : Place) → place < length self.now.rows
            → stands_low self.now front.now past place ≡ nat_lt place result }
    {
        split(&self.set, front, past)
    }

    /// Whether the rows in a range all have a value in the first column of their key. Reads only
    /// the first and the last row.
    pub fn all_begin_with(&self, value: &Value, start: usize, end: usize) -> bool
        ensures { result ≡ true → (column : Place) → slice_get self.now.key 0 ≡ Some column
            → (place : Place) → start ≤ place → place < end
            → value_at_place self.now column place ≡ value.now }
    {
        all_begin_with(&self.set, slice::from_ref(value), start, end)
    }

    /// The place of the row with a key; None exactly when there is none.
    pub fn find(&self, key: &Cells) -> Option<usize>
        ensures place { result ≡ find_row self.now.key key.now self.now.rows }
        ensures range { IfSome result (λ place. place < length self.now.rows) }
    {
        self.set.find(key)
    }

    /// The place of the row with the same key as this row; None exactly when there is none.
    pub fn find_like(&self, row: &Cells) -> Option<usize>
        ensures place { result ≡ find_row self.now.key (key_of self.now.key row.now) self.now.rows }
        ensures range { IfSome result (λ place. place < length self.now.rows) }
    {
        self.set.find_like(row)
    }

    /// The number of rows.
    pub fn len(&self) -> usize
        ensures rows { result ≡ length self.now.rows }
        ensures order { IsAscending (map (key_in self.now.key) self.now.rows) }
    {
        self.set.len()
    }

    pub fn is_empty(&self) -> bool
        ensures { IsTrue result ↔ (self.now.rows ≡ []) }
    {
        self.set.is_empty()
    }

    /// The columns of the key, by their places.
    pub fn key(&self) -> &Places
        ensures { result.now ≡ self.now.key }
    {
        self.set.key()
    }

    /// The row at a place, counted from 0.
    pub fn row(&self, place: usize) -> &Cells
        requires { place < length self.now.rows }
        ensures { option_map (λ kept. kept.row) (slice_get self.now.rows place) ≡ Some result.now }
    {
        self.set.row(place)
    }

    /// The row at a place with the moment at which it was born. Takes one search.
    pub fn born_row(&self, place: usize) -> &BornRow
        requires { place < length self.now.rows }
        ensures { slice_get self.now.rows place ≡ Some result.now }
    {
        self.set.born_row(place)
    }

    /// The moment at which the row at a place was born.
    pub fn born(&self, place: usize) -> Moment
        requires { place < length self.now.rows }
        ensures { option_map (λ kept. kept.born) (slice_get self.now.rows place) ≡ Some result }
    {
        self.born_row(place).born
    }
}

/// The rows of each of a statement's tables, in the order of FROM.
pub type Sets<'a> = Lent<'a, RowSet>;
