//! Rows that are inserted, updated or deleted.
ghost use Rattle.std.specs.Prelude.{◌≡◌, ◌++◌, filter, flat_map, nat_eq, option_copied, IfOk, OnOk, OnErr};
ghost use Rattle.std.specs.List.{list_any, range_with_len, zip};
ghost use Rattle.hippo_values_text.specs.Printing.{AppendsText, KeepsFront};
ghost use Rattle.hippo_history_statements.specs.Telling.{is_set, assigned_text, literals_text, columns_of, key_places, row_text, key_text, insert_text, update_text, delete_text, set_text};

use crate::columns::{append_assigned, append_named, columns_of};
use crate::joining::{Spelling, append_joined};
use crate::literals::append_literals;
use hippo_model::{Cells, Column, Places, Schema};
use hippo_values::{Memory, Name, RoomyTxt, Value};
use std::alloc::Global;

fn key_places(schema: Option<&Schema>) -> &[usize]
    ensures { result.now ≡ key_places (option_copied schema.entry) }
{
    match schema {
        Some(schema) => schema.key.as_slice(),
        None => &[],
    }
}

/// A row, or the key of a row that is deleted, with its table's name, columns and key places.
#[derive(Clone, Copy)]
pub struct Version<'a> {
    table: &'a Name,
    columns: &'a [Column],
    key: &'a [usize],
    cells: &'a [Value],
}

// Spells the columns of a row with their values, by their places.
impl<'a, const ROOM: usize> Spelling<usize, ROOM> for Version<'a> {
    ghost use Rattle.hippo_model.specs.Rows.{cell_at};
    ghost use Rattle.hippo_history_statements.specs.Telling.{assigned_text};

    ghost text = { λ version place. assigned_text version.columns.now place
        (cell_at version.cells.now place) };

    fn spell(&self, place: &usize, out: &mut RoomyTxt<ROOM>) -> Result<(), Memory> {
        match self.cells.get(*place) {
            Some(value) => append_assigned(self.columns, *place, value, out),
            None => append_assigned(self.columns, *place, &Value::Null, out),
        }
    }
}

fn append_pair<const ROOM: usize>(
    separator: &str,
    columns: &[Column],
    place: usize,
    value: &Value,
    out: &mut RoomyTxt<ROOM>,
) -> Result<(), Memory>
    ensures adds { AppendsText (separator.now ++ assigned_text columns.now place value.now)
        result out.old out.new }
{
    out.append(separator)?;
    append_assigned(columns, place, value, out)
}

fn append_key_later<const ROOM: usize>(
    separator: &str,
    columns: &[Column],
    places: &[usize],
    values: &[Value],
    out: &mut RoomyTxt<ROOM>,
) -> Result<(), Memory>
    ensures adds { AppendsText (flat_map (λ pair. separator.now
        ++ assigned_text columns.now pair.0 pair.1) (zip places.now values.now))
        result out.old out.new }
{
    for (place, value) in places.iter().zip(values) {
        append_pair(separator, columns, *place, value, out)?;
    }
    Ok(())
}

// Appends the columns of a key with their values.
fn append_key<const ROOM: usize>(
    columns: &[Column],
    places: &[usize],
    key: &[Value],
    out: &mut RoomyTxt<ROOM>,
) -> Result<(), Memory>
    ensures adds { AppendsText (key_text columns.now places.now key.now) result out.old out.new }
{
    let Some((place, places)) = places.split_first() else {
        return Ok(());
    };
    let Some((value, values)) = key.split_first() else {
        return Ok(());
    };
    append_assigned(columns, *place, value, out)?;
    append_key_later(" AND ", columns, places, values, out)
}

fn is_of_key(key: &[usize], place: usize) -> bool
    ensures { result ≡ list_any (nat_eq place) key.now }
{
    key.iter().any(|known| place == *known)
}

fn is_set(key: &[usize], place: usize) -> bool
    ensures { result ≡ is_set key.now place }
{
    !is_of_key(key, place)
}

// The places of the columns outside the key.
#[tactic(auto, using(crate::proofs::SetPlaces::set_taken, crate::proofs::SetPlaces::set_passed))]
fn set_places(alloc: Global, count: usize, key: &[usize]) -> Result<Places, Memory>
    ensures { IfOk result (λ places. places ≡ filter (is_set key.now) (range_with_len 0 count)) }
{
    let mut places = Places::new(alloc);
    for place in 0..count {
        if is_set(key, place) {
            places.push(place)?;
        }
    }
    Ok(places)
}

fn append_values<const ROOM: usize>(
    before: &str,
    row: &[Value],
    remaining: &str,
    out: &mut RoomyTxt<ROOM>,
) -> Result<(), Memory>
    ensures adds { AppendsText (before.now ++ (literals_text row.now ++ remaining.now))
        result out.old out.new }
{
    out.append(before)?;
    append_literals(row, out)?;
    out.append(remaining)
}

impl<'a> Version<'a> {
    /// The cells of a row or of a key, with the schema of their table.
    pub fn new(schema: Option<&'a Schema>, table: &'a Name, cells: &'a Cells) -> Version<'a>
        ensures names { result.table.now ≡ table.now
            × result.columns.now ≡ columns_of (option_copied schema.entry)
            × result.key.now ≡ key_places (option_copied schema.entry)
            × result.cells.now ≡ cells.now }
    {
        Version {
            table,
            columns: columns_of(schema),
            key: key_places(schema),
            cells: cells.as_slice(),
        }
    }

    /// Appends an INSERT of the row.
    pub fn insert<const ROOM: usize>(&self, out: &mut RoomyTxt<ROOM>) -> Result<(), Memory>
        ensures adds { AppendsText (insert_text self.now.table.now self.now.cells.now)
            result out.old out.new }
    {
        append_named("INSERT INTO ", self.table, out)?;
        append_values(" VALUES (", self.cells, ")", out)
    }

    // Appends words, and the columns at some places with their values.
    fn append_cells<const ROOM: usize>(
        &self,
        words: &str,
        places: &[usize],
        separator: &str,
        out: &mut RoomyTxt<ROOM>,
    ) -> Result<(), Memory>
        ensures ok { OnOk result (out.new ≡ out.old ++ (words.now
            ++ row_text self.now.columns.now self.now.cells.now separator.now places.now)) }
        ensures err { OnErr result (KeepsFront out.old out.new) }
    {
        out.append(words)?;
        append_joined(self, separator, places, out)
    }

    // Appends words, and the columns of the key with their values.
    fn append_key<const ROOM: usize>(
        &self,
        words: &str,
        out: &mut RoomyTxt<ROOM>,
    ) -> Result<(), Memory>
        ensures ok { OnOk result (out.new ≡ out.old ++ (words.now
            ++ key_text self.now.columns.now self.now.key.now self.now.cells.now)) }
        ensures err { OnErr result (KeepsFront out.old out.new) }
    {
        out.append(words)?;
        append_key(self.columns, self.key, self.cells, out)
    }

    /// Appends an UPDATE to the row, which sets every column outside the key.
    pub fn update<const ROOM: usize>(
        &self,
        alloc: Global,
        out: &mut RoomyTxt<ROOM>,
    ) -> Result<(), Memory>
        ensures adds { AppendsText (update_text self.now.columns.now self.now.key.now
            self.now.table.now self.now.cells.now) result out.old out.new }
    {
        let places = set_places(alloc, self.columns.len(), self.key)?;
        append_named("UPDATE ", self.table, out)?;
        self.append_cells(" SET ", places.as_slice(), ", ", out)?;
        self.append_cells(" WHERE ", self.key, " AND ", out)
    }

    /// Appends an UPDATE that sets one column to the row's value.
    pub fn set<const ROOM: usize>(
        &self,
        place: usize,
        out: &mut RoomyTxt<ROOM>,
    ) -> Result<(), Memory>
        ensures adds { AppendsText (set_text self.now.columns.now self.now.key.now
            self.now.table.now self.now.cells.now place) result out.old out.new }
    {
        append_named("UPDATE ", self.table, out)?;
        self.append_cells(" SET ", &[place], ", ", out)?;
        self.append_cells(" WHERE ", self.key, " AND ", out)
    }

    /// Appends a DELETE of the row with the key.
    pub fn delete<const ROOM: usize>(&self, out: &mut RoomyTxt<ROOM>) -> Result<(), Memory>
        ensures adds { AppendsText (delete_text self.now.columns.now self.now.key.now
            self.now.table.now self.now.cells.now) result out.old out.new }
    {
        append_named("DELETE FROM ", self.table, out)?;
        self.append_key(" WHERE ", out)
    }
}
