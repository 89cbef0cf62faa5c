//! Rows, and the cells of an answer.
ghost use Rattle.std.specs.Prelude.{◌≡◌, IfOk};
ghost use Rattle.hippo_model.specs.declared.cells.Cell.TheVariants.{Shown};
ghost use Rattle.hippo_model.specs.Rows.{cell_at, key_of};

use hippo_values::{Duplicate, Memory, Sequence, Value};
use std::alloc::Global;
use std::hash::Hash;

/// The values of a row, one for each column, or those of its key, in the key's order.
pub type Cells = Sequence<Value>;

/// A shown value, or a cell denied by the rule with this entry number; 0 if no rule ever named the
/// cell.
#[derive(Drop, PartialEq, Eq, PartialOrd, Ord, Hash)]
pub enum Cell {
    Shown(Value),
    Denied(u64),
}

pub type CellRow = Sequence<Cell>;

pub type Answer = Sequence<CellRow>;

impl Duplicate for Cell {
    fn copy(&self, alloc: Global) -> Result<Cell, Memory> {
        match self {
            Cell::Shown(value) => copied_value(alloc, value),
            Cell::Denied(rule) => Ok(Cell::Denied(*rule)),
        }
    }
}

fn copied_value(alloc: Global, value: &Value) -> Result<Cell, Memory>
    ensures { IfOk result (λ made. made ≡ Shown value.now) }
{
    Ok(Cell::Shown(value.copy(alloc)?))
}

// The value in a row's column.
fn copied_cell(alloc: Global, row: &[Value], place: usize) -> Result<Value, Memory>
    ensures { IfOk result (λ value. value ≡ cell_at row.now place) }
{
    row.get(place).unwrap_or(&Value::Null).copy(alloc)
}

/// Copies the values of a row's key columns, in the key's order. Fails only when out of memory.
pub fn copied_key(alloc: Global, places: &[usize], row: &[Value]) -> Result<Cells, Memory>
    ensures { IfOk result (λ key. key ≡ key_of places.now row.now) }
{
    let mut key = Sequence::new(alloc);
    for place in places {
        key.push(copied_cell(alloc, row, *place)?)?;
    }
    Ok(key)
}
