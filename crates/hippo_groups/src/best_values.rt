//! The least and the greatest value of a group, updated member by member.
ghost use Rattle.std.specs.Prelude.{◌≡◌, if◌then◌else◌, option_copied, slice_index_or, IfOk, OnOk};
ghost use Rattle.hippo_values.specs.declared.values.Value as values;
ghost use Rattle.hippo_model.specs.declared.cells.Cell.TheVariants.{Shown, Denied};
ghost use Rattle.hippo_model.specs.Forms.{value_in, lesser, greater};
ghost use Rattle.hippo_eval.specs.LentCells.{or_null};

use hippo_model::{Cell, CellRow};
use hippo_values::{Duplicate, Memory, Value};
use std::alloc::Global;

// The value of a cell. `None` stands for null: the cell is denied.
fn value_in(cell: &Cell) -> Option<&Value>
    ensures { or_null (option_copied result) ≡ value_in cell.now }
{
    match cell {
        Cell::Shown(value) => Some(value),
        Cell::Denied(_) => None,
    }
}

/// Returns the value at a place in a row. `None` stands for null: the cell is denied, or the row
/// has no such place.
pub fn value_at(row: &CellRow, place: usize) -> Option<&Value>
    ensures { or_null (option_copied result) ≡ value_in (slice_index_or row.now place (Denied 0)) }
{
    match row.as_slice().get(place) {
        None => None,
        Some(cell) => value_in(cell),
    }
}

/// Returns whether a value replaces the least value so far. Any other value replaces null.
pub fn is_lesser(value: &Value, least: &Value) -> bool
    ensures { lesser least.now value.now ≡ (if result then value.now else least.now) }
{
    match (value, least) {
        (Value::Null, _) => false,
        (_, Value::Null) => true,
        _ => value < least,
    }
}

/// Returns whether a value replaces the greatest value so far.
pub fn is_greater(value: &Value, greatest: &Value) -> bool
    ensures { greater greatest.now value.now ≡ (if result then value.now else greatest.now) }
{
    greatest < value
}

fn shown(alloc: Global, value: &Value) -> Result<Cell, Memory>
    ensures { IfOk result (λ cell. cell ≡ Shown value.now) }
{
    Ok(Cell::Shown(value.copy(alloc)?))
}

/// Adds one more value to the least of some values.
pub fn lower(alloc: Global, least: &mut Cell, value: &Value) -> Result<(), Memory>
    ensures { (before : values.Value) → least.old ≡ Shown before
        → OnOk result (least.new ≡ Shown (lesser before value.now)) }
{
    if is_lesser(value, value_in(least).unwrap_or(&Value::Null)) {
        *least = shown(alloc, value)?;
    }
    Ok(())
}

/// Adds one more value to the greatest of some values.
pub fn raise(alloc: Global, greatest: &mut Cell, value: &Value) -> Result<(), Memory>
    ensures { (before : values.Value) → greatest.old ≡ Shown before
        → OnOk result (greatest.new ≡ Shown (greater before value.now)) }
{
    if is_greater(value, value_in(greatest).unwrap_or(&Value::Null)) {
        *greatest = shown(alloc, value)?;
    }
    Ok(())
}
