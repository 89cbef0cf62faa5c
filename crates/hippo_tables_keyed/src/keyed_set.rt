//! A table's rows, sorted by key.
ghost use Rattle.std.specs.Prelude.{◌≡◌, List, ◌∷◌, ◌-◌, ◌^◌, ◌<◌, ◌≤◌, ◌↔◌, [], true, length, map, option_map, slice_get, Some, IsTrue, OnOk, OnErr, IsSome, IfSome, MatchOption};
ghost use Rattle.std.specs.List.Sorted.{IsSearchInRange, IsBinarySearchResult};
ghost use Rattle.std.specs.declared.cmp.Ordering.TheVariants.{Equal};
ghost use Rattle.hippo_values.specs.Order.{value_cmp, cells_cmp};
ghost use Rattle.hippo_model.specs.declared.born_row.BornRow.{BornRow};
ghost use Rattle.hippo_model.specs.Rows.{cell_at, key_of};
ghost use Rattle.hippo_tables_keyed.specs.Pieces.{begins_low, ends_below, PartsLow};
ghost use Rattle.hippo_model.specs.Terms.{Place};
ghost use Rattle.hippo_tables_keyed.specs.Searches.{target_key, target_order, place_from};
ghost use Rattle.hippo_tables_keyed.specs.RowSets.{IsAscending, IsFree, key_in, with_row, without_row, find_row, Puts};

use crate::pieces::{Piece, Pieces, start};
use hippo_model::{BornRow, Cells, Places};
use hippo_values::{Memory, Moment, Value};
use std::alloc::Global;
use std::cmp::Ordering;
use std::marker::Model;

// Compares two values of any kinds. Not inlined, so that its callers compare numbers, which most
// keys are, in few instructions.
#[inline(never)]
fn value_order(value: &Value, other: &Value) -> Ordering
    ensures { result ≡ value_cmp value.now other.now }
{
    value.cmp(other)
}

/// Compares the value in a row's column with another value. The column is null past the row's end.
#[inline(always)]
pub fn cell_order(row: &[Value], place: usize, other: &Value) -> Ordering
    ensures { result ≡ value_cmp (cell_at row.now place) other.now }
{
    match (row.get(place), other) {
        (Some(Value::Int(number)), Value::Int(other)) => number.cmp(other),
        (Some(value), _) => value_order(value, other),
        (None, _) => value_order(&Value::Null, other),
    }
}

// Compares a row's key with a key.
fn key_order(places: &[usize], row: &[Value], key: &[Value]) -> Ordering
    ensures { result ≡ cells_cmp (key_of places.now row.now) key.now }
{
    for (place, value) in places.iter().zip(key) {
        let order = cell_order(row, *place, value);
        if order.is_ne() {
            return order;
        }
    }
    places.len().cmp(&key.len())
}

// Compares two rows by their keys.
fn row_order(places: &[usize], row: &[Value], other: &[Value]) -> Ordering
    ensures { result ≡ cells_cmp (key_of places.now row.now) (key_of places.now other.now) }
{
    for place in places {
        let order = cell_order(row, *place, other.get(*place).unwrap_or(&Value::Null));
        if order.is_ne() {
            return order;
        }
    }
    Ordering::Equal
}

// What a search looks for: the row with a key, or the row with the same key as another row.
#[derive(Clone, Copy)]
enum Target<'a> {
    Key(&'a [Value]),
    Row(&'a [Value]),
}

impl<'a> Target<'a> {
    // The first value of the wanted key; `place` is the first column of the key.
    #[inline(always)]
    fn first(&self, place: usize) -> Option<&'a Value>
        ensures { (rest : List Place) → IfSome result (λ value.
            slice_get (target_key (place ∷ rest) self.now) 0 ≡ Some value.now) }
    {
        match self {
            Target::Key(key) => key.first(),
            Target::Row(row) => row.get(place),
        }
    }

    // Whether the wanted key has one value, given that the table's key has one column.
    #[inline(always)]
    fn is_single(&self) -> bool
        ensures { (place : Place) → result ≡ true
            → length (target_key (place ∷ []) self.now) ≡ 1 }
    {
        match self {
            Target::Key(key) => key.len() == 1,
            Target::Row(_) => true,
        }
    }
}

// Compares a row's key with the wanted key by their first values, if these are numbers that decide
// the comparison.
#[inline(always)]
fn first_order(row: &[Value], places: &[usize], target: &Target<'_>) -> Option<Ordering>
    ensures { IfSome result (λ order. cells_cmp (key_of places.now row.now)
        (target_key places.now target.now) ≡ order) }
{
    let place = *places.first()?;
    match (row.get(place), target.first(place)) {
        (Some(Value::Int(number)), Some(Value::Int(other))) => {
            let order = number.cmp(other);
            if order.is_ne() || places.len() == 1 && target.is_single() {
                Some(order)
            } else {
                None
            }
        }
        _ => None,
    }
}

// Compares a row's key with the wanted key, by all values.
fn whole_order(row: &[Value], places: &[usize], target: &Target<'_>) -> Ordering
    ensures { result ≡ cells_cmp (key_of places.now row.now) (target_key places.now target.now) }
{
    match target {
        Target::Key(key) => key_order(places, row, key),
        Target::Row(other) => row_order(places, row, other),
    }
}

// Compares a kept row with the wanted one, by key.
#[inline(always)]
fn target_order(kept: &BornRow, places: &[usize], target: &Target<'_>) -> Ordering
    ensures { result ≡ target_order places.now target.now kept.now }
{
    let row = kept.row.as_slice();
    match first_order(row, places, target) {
        Some(order) => order,
        None => whole_order(row, places, target),
    }
}

// Whether a piece begins with a row that does not come after the wanted one.
fn begins_low(piece: &Piece<BornRow>, places: &[usize], target: &Target<'_>) -> bool
    ensures { result ≡ begins_low (target_order places.now target.now) piece.now.members.items }
{
    match piece.members.first() {
        None => false,
        Some(kept) => target_order(kept, places, target).is_le(),
    }
}

// The number of pieces that begin so, if those that do come first.
fn low_pieces(pieces: &[Piece<BornRow>], places: &[usize], target: &Target<'_>) -> usize
    ensures bound { result ≤ length pieces.now }
    ensures parted { PartsLow (target_order places.now target.now) pieces.now result }
{
    pieces.partition_point(|piece| begins_low(piece, places, target))
}

// The place of the wanted row in a piece, or the place where it would be inserted.
fn search_piece(
    piece: &Piece<BornRow>,
    places: &[usize],
    target: &Target<'_>,
) -> Result<usize, usize>
    ensures range { IsSearchInRange result (length piece.now.members.items) }
    ensures place { IsBinarySearchResult (target_order places.now target.now)
        piece.now.members.items result }
{
    piece
        .members
        .binary_search_by(|kept| target_order(kept, places, target))
}

// Whether all rows come before the wanted one. This is the most frequent case for an insert.
fn stands_after_all(rows: &Pieces<BornRow>, places: &[usize], target: &Target<'_>) -> bool
    ensures { result ≡ ends_below (target_order places.now target.now) rows.now }
{
    match rows.last() {
        None => true,
        Some(kept) => target_order(kept, places, target).is_lt(),
    }
}

// The result of a search in a piece, as a place among all rows; `start` rows come before the piece.
fn place_from(start: usize, found: Result<usize, usize>) -> Result<usize, usize>
    requires { IsSearchInRange found (2 ^ 64 - 1 - start) }
    ensures { result ≡ place_from start found }
{
    match found {
        Ok(place) => Ok(start + place),
        Err(place) => Err(start + place),
    }
}

// The place of a key among all rows, or the place where it would be inserted.
fn search(rows: &Pieces<BornRow>, places: &[usize], target: &Target<'_>) -> Result<usize, usize>
    ensures range { IsSearchInRange result (length rows.now) }
    ensures place { IsBinarySearchResult (target_order places.now target.now) rows.now result }
{
    let len = rows.len();
    if stands_after_all(rows, places, target) {
        return Err(len);
    }
    let pieces = rows.pieces.as_slice();
    let low = low_pieces(pieces, places, target);
    if low == 0 {
        return Err(0);
    }
    let start = start(pieces, low - 1);
    place_from(start, search_piece(&pieces[low - 1], places, target))
}

// The number in a column of a row.
fn number_at(row: &[Value], place: usize) -> Option<i64> {
    match row.get(place) {
        Some(Value::Int(number)) => Some(*number),
        _ => None,
    }
}

// The number in a column of a kept row.
fn kept_number(kept: Option<&BornRow>, place: usize) -> Option<i64> {
    match kept {
        Some(kept) => number_at(kept.row.as_slice(), place),
        None => None,
    }
}

// The number that the wanted key begins with.
fn target_number(target: &Target<'_>, place: usize) -> Option<i64> {
    match target.first(place) {
        Some(Value::Int(number)) => Some(*number),
        _ => None,
    }
}

// The position of a number between two others, scaled to a number of places.
fn share(number: i64, first: i64, last: i64, places: usize) -> usize {
    if first < last {
        let before = number.abs_diff(first).saturating_mul(places as u64);
        (before / last.abs_diff(first)) as usize
    } else {
        0
    }
}

// The place of the wanted row by interpolation. It is exact if the keys begin with consecutive
// numbers, one row each.
fn likely_place(rows: &Pieces<BornRow>, places: &[usize], target: &Target<'_>) -> Option<usize> {
    let place = *places.first()?;
    let number = target_number(target, place)?;
    let first = kept_number(rows.first(), place)?;
    let last = kept_number(rows.last(), place)?;
    Some(share(number, first, last, rows.len().saturating_sub(1)))
}

// Whether the row at a place is the wanted one.
fn stands_at(rows: &Pieces<BornRow>, places: &[usize], target: &Target<'_>, place: usize) -> bool
    ensures { result ≡ true → (place < length rows.now)
        × ((kept : BornRow) → slice_get rows.now place ≡ Some kept
        → target_order places.now target.now kept ≡ Equal) }
{
    place < rows.len() && target_order(rows.get(place), places, target).is_eq()
}

// The place of a key among all rows, or the place where it would be inserted. Tries first the place
// it has if keys are consecutive numbers.
fn look_up(rows: &Pieces<BornRow>, places: &[usize], target: &Target<'_>) -> Result<usize, usize>
    ensures range { IsSearchInRange result (length rows.now) }
    ensures place { IsBinarySearchResult (target_order places.now target.now) rows.now result }
{
    match likely_place(rows, places, target) {
        Some(place) if stands_at(rows, places, target, place) => Ok(place),
        _ => search(rows, places, target),
    }
}

/// The rows of a table, sorted by key, each with the moment at which it was born.
#[derive(Drop)]
pub struct KeyedSet {
    key: Places,
    rows: Pieces<BornRow>,
}

impl Model for KeyedSet {
    ghost use Rattle.std.specs.Prelude.{map};
    ghost use Rattle.hippo_tables_keyed.specs.RowSets.{KeyedRows, IsAscending, key_in};

    ghost Value = { KeyedRows };

    ghost view = { λ set. record {
      key = set.key;
      rows = set.rows;
    } };

    ghost invariant = { λ set. IsAscending (map (key_in set.key) set.rows) };
}

impl KeyedSet {
    /// An empty set for a table whose key has these columns. Allocates no memory.
    pub fn new(alloc: Global, key: Places) -> KeyedSet
        ensures { result ≡ record { key = key; rows = [] } }
    {
        KeyedSet {
            key,
            rows: Pieces::new(alloc),
        }
    }

    /// Inserts a row at its place in the order of keys, or replaces the row with the same key. The
    /// set is unchanged when out of memory, which cannot happen when a row is replaced.
    pub fn put(&mut self, row: Cells, born: Moment) -> Result<(), Memory>
        ensures { Puts (record { row = row; born = born }) self.old self.new result }
    {
        let target = Target::Row(row.as_slice());
        match search(&self.rows, self.key.as_slice(), &target) {
            Ok(place) => {
                self.rows.set(place, BornRow { row, born });
                Ok(())
            }
            Err(place) => Ok(self.rows.insert(place, BornRow { row, born })?),
        }
    }

    /// The place that a row has once it is inserted. None if a row with its key exists.
    pub fn place_for(&self, row: &Cells) -> Option<usize>
        ensures { MatchOption result
            (IsSome (find_row self.now.key (key_of self.now.key row.now) self.now.rows))
            (λ place. IsFree self.now row.now place) }
    {
        let target = Target::Row(row.as_slice());
        match search(&self.rows, self.key.as_slice(), &target) {
            Ok(_) => None,
            Err(place) => Some(place),
        }
    }

    /// Inserts a row at its place, as given by `place_for`.
    pub fn insert_at(&mut self, place: usize, row: Cells, born: Moment) -> Result<(), Memory>
        requires { IsFree self.old row place }
        ensures ok { OnOk result (self.new
            ≡ with_row (record { row = row; born = born }) self.old) }
        ensures err { OnErr result (self.new ≡ self.old) }
    {
        self.rows.insert(place, BornRow { row, born })?;
        Ok(())
    }

    /// Replaces the row with the same key, which is at `place`, and returns it.
    pub fn replace(&mut self, place: usize, row: Cells, born: Moment) -> BornRow
        requires { find_row self.old.key (key_of self.old.key row) self.old.rows ≡ Some place }
        ensures set { self.new ≡ with_row (record { row = row; born = born }) self.old }
        ensures old { slice_get self.old.rows place ≡ Some result }
    {
        self.rows.replace(place, BornRow { row, born })
    }

    /// Removes the row with a key, if there is one.
    pub fn take(&mut self, key: &Cells)
        ensures { self.new ≡ without_row key.now self.old }
    {
        let target = Target::Key(key.as_slice());
        if let Ok(place) = look_up(&self.rows, self.key.as_slice(), &target) {
            self.rows.remove(place);
        }
    }

    /// The place of the row with a key; None exactly when there is none.
    pub fn find(&self, key: &Cells) -> Option<usize>
        ensures place { result ≡ find_row self.now.key key.now self.now.rows }
        ensures range { IfSome result (λ place. place < length self.now.rows) }
        ensures order { IsAscending (map (key_in self.now.key) self.now.rows) }
    {
        self.find_values(key.as_slice())
    }

    /// The place of the row with these key values; None exactly when there is none.
    pub fn find_values(&self, key: &[Value]) -> Option<usize>
        ensures place { result ≡ find_row self.now.key key.now self.now.rows }
        ensures range { IfSome result (λ place. place < length self.now.rows) }
        ensures order { IsAscending (map (key_in self.now.key) self.now.rows) }
    {
        look_up(&self.rows, self.key.as_slice(), &Target::Key(key)).ok()
    }

    /// The place of the row with the same key as this row; None exactly when there is none.
    pub fn find_like(&self, row: &Cells) -> Option<usize>
        ensures place { result ≡ find_row self.now.key (key_of self.now.key row.now) self.now.rows }
        ensures range { IfSome result (λ place. place < length self.now.rows) }
    {
        look_up(
            &self.rows,
            self.key.as_slice(),
            &Target::Row(row.as_slice()),
        )
        .ok()
    }

    /// The number of rows.
    pub fn len(&self) -> usize
        ensures rows { result ≡ length self.now.rows }
        ensures order { IsAscending (map (key_in self.now.key) self.now.rows) }
    {
        self.rows.len()
    }

    /// Whether there is no row.
    pub fn is_empty(&self) -> bool
        ensures none { IsTrue result ↔ (self.now.rows ≡ []) }
        ensures order { IsAscending (map (key_in self.now.key) self.now.rows) }
    {
        self.rows.is_empty()
    }

    /// The columns of the key, by their places.
    pub fn key(&self) -> &Places
        ensures { result.now ≡ self.now.key }
    {
        &self.key
    }

    /// Whether a column is the first of the key.
    pub fn begins_with(&self, column: usize) -> bool
        ensures { result ≡ true → slice_get self.now.key 0 ≡ Some column }
    {
        match self.key.as_slice().first() {
            Some(first) => *first == column,
            None => false,
        }
    }

    /// The row at a place, counted from 0.
    pub fn row(&self, place: usize) -> &Cells
        requires { place < length self.now.rows }
        ensures { option_map (λ kept. kept.row) (slice_get self.now.rows place) ≡ Some result.now }
    {
        &self.rows.get(place).row
    }

    /// The row at a place, counted from 0, with the moment at which it was born.
    pub fn born_row(&self, place: usize) -> &BornRow
        requires { place < length self.now.rows }
        ensures { slice_get self.now.rows place ≡ Some result.now }
    {
        self.rows.get(place)
    }
}
