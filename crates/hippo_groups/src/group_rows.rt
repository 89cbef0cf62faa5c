//! The row of a group, updated member by member.
ghost use Rattle.std.specs.Prelude.{◌≡◌, ◌+◌, ◌<◌, [], ◌∷◌, ◌++◌, List, length, map, slice_index_or, IfOk, OnOk};
ghost use Rattle.hippo_values.specs.declared.values.Value.TheVariants.{Null};
ghost use Rattle.hippo_model.specs.declared.cells.Cell.TheVariants.{Denied};
ghost use Rattle.hippo_model.specs.Terms.{ShownRow};
ghost use Rattle.hippo_model.specs.Forms.{value_in, group_cell};
ghost use Rattle.hippo_groups.specs.GroupCells.{IsJoined};

use crate::best_values::{lower, raise};
use crate::members::LentRow;
use hippo_model::{Cell, CellRow, Out, Outs};
use hippo_values::{Duplicate, Memory, Sequence, Value};
use std::alloc::Global;
use std::mem;

// The cell at a place in a group's key.
fn key_cell(alloc: Global, key: &[Cell], place: usize) -> Result<Cell, Memory>
    ensures { IfOk result (λ cell. cell ≡ slice_index_or key.now place (Denied 0)) }
{
    match key.get(place) {
        Some(cell) => cell.copy(alloc),
        None => Ok(Cell::Denied(0)),
    }
}

// A cell in the row of a group without members.
fn first_cell(alloc: Global, out: &Out, key: &[Cell]) -> Result<Cell, Memory>
    ensures { IfOk result (λ cell. cell ≡ group_cell key.now [] out.now) }
{
    match out {
        Out::Column(place) => key_cell(alloc, key, *place),
        Out::Min(_) | Out::Max(_) => Ok(Cell::Shown(Value::Null)),
    }
}

// The row of a group without members.
fn first_row(alloc: Global, outs: &Outs, key: &[Cell]) -> Result<CellRow, Memory>
    ensures { IfOk result (λ cells. cells ≡ map (group_cell key.now []) outs.now) }
{
    let mut cells = Vec::with_capacity(alloc, outs.len())?;
    for out in outs.as_slice() {
        cells.push(first_cell(alloc, out, key)?)?;
    }
    Ok(Sequence::from_vec(cells))
}

// The value at a place in a row.
fn value_of<'b, R: LentRow>(row: &'b R, place: usize, null: &'b Value) -> &'b Value
    requires { null.now ≡ Null }
    ensures { result.now ≡ value_in (slice_index_or (R.cells row.now) place (Denied 0)) }
{
    row.value(place).unwrap_or(null)
}

// Adds one more member to a cell of its group's row.
fn join_cell<R: LentRow>(alloc: Global, out: Out, cell: &mut Cell, row: &R) -> Result<(), Memory>
    ensures { (key : ShownRow) (members : List ShownRow) → cell.old ≡ group_cell key members out
        → OnOk result (cell.new ≡ group_cell key (members ++ R.cells row.now ∷ []) out) }
{
    match out {
        Out::Column(_) => Ok(()),
        Out::Min(place) => lower(alloc, cell, value_of(row, place, &Value::Null)),
        Out::Max(place) => raise(alloc, cell, value_of(row, place, &Value::Null)),
    }
}

// Adds one more member to the cell at `place`. The cells before it already have this member.
fn join_place<R: LentRow>(
    alloc: Global,
    outs: &Outs,
    cells: &mut [Cell],
    place: usize,
    row: &R,
) -> Result<(), Memory>
    requires { place < length outs.now }
    ensures { (key : ShownRow) (members : List ShownRow)
        → IsJoined key members (members ++ R.cells row.now ∷ []) outs.now place cells.old
        → OnOk result (IsJoined key members (members ++ R.cells row.now ∷ []) outs.now (place + 1)
        cells.new) }
{
    if place >= cells.len() {
        return Ok(());
    }
    join_cell(alloc, *outs.get(place), &mut cells[place], row)
}

// Adds one more member to its group's row.
fn join<R: LentRow>(alloc: Global, outs: &Outs, cells: &mut [Cell], row: &R) -> Result<(), Memory>
    ensures { (key : ShownRow) (members : List ShownRow)
        → cells.old ≡ map (group_cell key members) outs.now
        → OnOk result (cells.new ≡ map (group_cell key (members ++ R.cells row.now ∷ [])) outs.now) }
{
    for place in 0..outs.len() {
        join_place(alloc, outs, cells, place, row)?;
    }
    Ok(())
}

// The row of a group with one more member.
fn joined<R: LentRow>(
    alloc: Global,
    outs: &Outs,
    cells: CellRow,
    row: &R,
) -> Result<CellRow, Memory>
    ensures { (key : ShownRow) (members : List ShownRow)
        → cells ≡ map (group_cell key members) outs.now
        → IfOk result (λ new. new ≡ map (group_cell key (members ++ R.cells row.now ∷ [])) outs.now) }
{
    let mut cells = cells.into_vec();
    join(alloc, outs, &mut cells, row)?;
    Ok(Sequence::from_vec(cells))
}

/// Returns the row of a group with one member.
pub fn row_of_first<R: LentRow>(
    alloc: Global,
    outs: &Outs,
    key: &[Cell],
    row: &R,
) -> Result<CellRow, Memory>
    ensures { IfOk result (λ cells. cells ≡ map (group_cell key.now (R.cells row.now ∷ [])) outs.now) }
{
    let first = first_row(alloc, outs, key)?;
    joined(alloc, outs, first, row)
}

/// Adds one more member to the row of the group at a place.
pub fn join_at<R: LentRow>(
    alloc: Global,
    outs: &Outs,
    rows: &mut [CellRow],
    place: usize,
    row: &R,
) -> Result<(), Memory>
    ensures { (front back : List ShownRow) (key : ShownRow) (members : List ShownRow)
        → rows.old ≡ front ++ map (group_cell key members) outs.now ∷ back → place ≡ length front
        → OnOk result (rows.new ≡ front ++ map (group_cell key (members ++ R.cells row.now ∷ [])) outs.now
        ∷ back) }
{
    if place >= rows.len() {
        return Ok(());
    }
    let cells = mem::replace(&mut rows[place], Sequence::new(alloc));
    rows[place] = joined(alloc, outs, cells, row)?;
    Ok(())
}
