//! Columns by their places, alone and with values.
ghost use Rattle.std.specs.Prelude.{◌≡◌, ◌++◌, option_copied, OnOk, OnErr};
ghost use Rattle.hippo_values_text.specs.Printing.{AppendsText, KeepsFront};
ghost use Rattle.hippo_history_statements.specs.Telling.{columns_of, name_at, names_text, assigned_text};

use crate::joining::{Spelling, append_joined};
use crate::literals::append_literal;
use hippo_model::{Column, Schema};
use hippo_values::{Memory, Name, RoomyTxt, Value};

/// Returns the columns of a table, or none if there is no such table.
pub fn columns_of(schema: Option<&Schema>) -> &[Column]
    ensures { result.now ≡ columns_of (option_copied schema.entry) }
{
    match schema {
        Some(schema) => schema.columns.as_slice(),
        None => &[],
    }
}

/// Appends one or more words, and a name.
pub fn append_named<const ROOM: usize>(
    words: &str,
    name: &Name,
    out: &mut RoomyTxt<ROOM>,
) -> Result<(), Memory>
    ensures adds { AppendsText (words.now ++ name.now) result out.old out.new }
{
    out.append(words)?;
    out.append(name.as_str())
}

/// Appends the name of the column at a place.
pub fn append_name<const ROOM: usize>(
    columns: &[Column],
    place: usize,
    out: &mut RoomyTxt<ROOM>,
) -> Result<(), Memory>
    ensures adds { AppendsText (name_at columns.now place) result out.old out.new }
{
    match columns.get(place) {
        Some(column) => out.append(column.name.as_str()),
        None => Ok(()),
    }
}

// The names of a table's columns, by their places.
#[derive(Clone, Copy)]
struct ColumnNames<'a> {
    columns: &'a [Column],
}

impl<'a, const ROOM: usize> Spelling<usize, ROOM> for ColumnNames<'a> {
    ghost use Rattle.hippo_history_statements.specs.Telling.{name_at};

    ghost text = { λ names place. name_at names.columns.now place };

    fn spell(&self, place: &usize, out: &mut RoomyTxt<ROOM>) -> Result<(), Memory> {
        append_name(self.columns, *place, out)
    }
}

// Appends the names, separated by commas.
fn append_names<const ROOM: usize>(
    columns: &[Column],
    places: &[usize],
    out: &mut RoomyTxt<ROOM>,
) -> Result<(), Memory>
    ensures adds { AppendsText (names_text columns.now places.now) result out.old out.new }
{
    append_joined(&ColumnNames { columns }, ", ", places, out)
}

/// Appends the names of the columns at some places, separated by commas, between a text before them
/// and a text after them.
pub fn append_listed<const ROOM: usize>(
    before: &str,
    columns: &[Column],
    places: &[usize],
    remaining: &str,
    out: &mut RoomyTxt<ROOM>,
) -> Result<(), Memory>
    ensures adds { AppendsText (before.now ++ (names_text columns.now places.now ++ remaining.now))
        result out.old out.new }
{
    out.append(before)?;
    append_names(columns, places, out)?;
    out.append(remaining)
}

/// Appends a column with a value: `NAME = VALUE`.
pub fn append_assigned<const ROOM: usize>(
    columns: &[Column],
    place: usize,
    value: &Value,
    out: &mut RoomyTxt<ROOM>,
) -> Result<(), Memory>
    ensures ok { OnOk result (out.new ≡ out.old ++ assigned_text columns.now place value.now) }
    ensures err { OnErr result (KeepsFront out.old out.new) }
{
    append_name(columns, place, out)?;
    out.append(" = ")?;
    append_literal(value, out)
}
