//! Whether rows and keys fit a table.
ghost use Rattle.std.specs.Prelude.{◌≡◌, false, slice_get};
ghost use Rattle.std.specs.Option.{option_map_or};
ghost use Rattle.hippo_model.specs.Values.{has_kind, fits};
ghost use Rattle.hippo_model.specs.Versions.{row_fits, key_fits};

use hippo_model::{Cells, Column, ColumnKind, Schema};
use hippo_values::{Value, keeps_text_rule};

fn has_kind(kind: ColumnKind, value: &Value) -> bool
    ensures { result ≡ has_kind kind value.now }
{
    match (kind, value) {
        (ColumnKind::Integer, Value::Int(_)) => true,
        (ColumnKind::Text, Value::Text(_)) => true,
        (ColumnKind::Date, Value::Day(_)) => true,
        _ => false,
    }
}

// Whether a value may be in a column.
fn fits(column: &Column, value: &Value) -> bool
    ensures { result ≡ fits column.now value.now }
{
    match value {
        Value::Null => !column.not_null,
        Value::Text(text) => has_kind(column.kind, value) && keeps_text_rule(text.as_str()),
        _ => has_kind(column.kind, value),
    }
}

// Whether there is a value at a place and it may be in a column.
fn fits_at(column: &Column, values: &[Value], place: usize) -> bool
    ensures { result ≡ option_map_or (fits column.now) (slice_get values.now place) false }
{
    match values.get(place) {
        None => false,
        Some(value) => fits(column, value),
    }
}

/// Whether a row has one value for each column of a table, and each value fits its column.
pub fn row_fits(schema: &Schema, row: &Cells) -> bool
    ensures { result ≡ row_fits schema.now row.now }
{
    let columns = schema.columns.as_slice();
    let values = row.as_slice();
    for (place, column) in columns.iter().enumerate() {
        if !fits_at(column, values, place) {
            return false;
        }
    }
    columns.len() == values.len()
}

/// Whether a key has one value for each column of a table's key, and each value fits its column.
pub fn key_fits(schema: &Schema, key: &Cells) -> bool
    ensures { result ≡ key_fits schema.now key.now }
{
    let columns = schema.columns.as_slice();
    let places = schema.key.as_slice();
    let values = key.as_slice();
    let mut count = 0;
    for place in places {
        if let Some(column) = columns.get(*place) {
            if !fits_at(column, values, count) {
                return false;
            }
            count += 1;
        }
    }
    count == values.len()
}
