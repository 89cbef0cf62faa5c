//! The lines that insert a row: one, or several if this one would be longer than a line may be.
ghost use Rattle.std.specs.Prelude.{◌≡◌, ◌&&◌, ◌++◌, ◌∷◌, [], if◌then◌else◌, filter, flat_map, nat_eq, Some, IfOk, OnOk};
ghost use Rattle.std.specs.List.{list_any, range_with_len};
ghost use Rattle.hippo_model.specs.declared.entry.Act.TheVariants.{Insert};
ghost use Rattle.hippo_model.specs.Rows.{cell_at};
ghost use Rattle.hippo_history_statements.specs.Telling.{is_set, act_statement};
ghost use Rattle.hippo_history_top.specs.CarryingOn.{is_filled_text, filled_texts, emptied_value, emptied_cell, emptied_row, insert_line, set_line, parted_lines, row_lines};
ghost use Rattle.hippo_history_top.specs.ScriptLines.{console_lines};

use hippo_history_statements::{append_act_statement, append_set_statement};
use hippo_model::{Act, Cells, Places, Schema};
use hippo_values::{CellText, Duplicate, LINE_LIMIT, Memory, Name, Txt, Value};
use std::alloc::Global;

// A row of a table.
#[derive(Clone, Copy)]
pub(crate) struct Born<'a> {
    pub schema: &'a Schema,
    pub table: &'a Name,
    pub row: &'a Cells,
}

fn is_of_key(key: &[usize], place: usize) -> bool
    ensures { result ≡ list_any (nat_eq place) key.now }
{
    key.iter().any(|known| place == *known)
}

fn is_set(key: &[usize], place: usize) -> bool
    ensures { result ≡ is_set key.now place }
{
    !is_of_key(key, place)
}

fn is_filled_text(value: &Value) -> bool
    ensures { result ≡ is_filled_text value.now }
{
    match value {
        Value::Text(text) => !text.as_str().is_empty(),
        _ => false,
    }
}

// Whether the value in a row's column is a text that is not empty.
fn is_filled(row: &Cells, place: usize) -> bool
    ensures { result ≡ is_filled_text (cell_at row.now place) }
{
    match row.as_slice().get(place) {
        None => false,
        Some(value) => is_filled_text(value),
    }
}

fn is_filled_outside(key: &[usize], row: &Cells, place: usize) -> bool
    ensures { result ≡ (is_set key.now place && is_filled_text (cell_at row.now place)) }
{
    is_set(key, place) && is_filled(row, place)
}

// Adds a place, if the row has a text there that is not empty, outside the key.
fn add_filled(key: &[usize], row: &Cells, place: usize, places: &mut Places) -> Result<(), Memory>
    ensures { OnOk result (places.new ≡ places.old
        ++ (if is_set key.now place && is_filled_text (cell_at row.now place) then place ∷ [] else [])) }
{
    if is_filled_outside(key, row, place) {
        places.push(place)?;
    }
    Ok(())
}

// The places of the texts outside the key that are not empty.
#[tactic(auto, using(crate::proofs::CarryLoops::filled_more))]
fn filled_texts(alloc: Global, count: usize, key: &[usize], row: &Cells) -> Result<Places, Memory>
    ensures { IfOk result (λ places. places ≡ filter (λ place. is_filled_text (cell_at row.now place))
        (filter (is_set key.now) (range_with_len 0 count))) }
{
    let mut places = Places::new(alloc);
    for place in 0..count {
        add_filled(key, row, place, &mut places)?;
    }
    Ok(places)
}

// The places of a schema's texts outside the key that are not empty in a row.
fn filled_in(alloc: Global, schema: &Schema, row: &Cells) -> Result<Places, Memory>
    ensures { IfOk result (λ places. places ≡ filled_texts schema.now row.now) }
{
    filled_texts(alloc, schema.columns.len(), schema.key.as_slice(), row)
}

// A copy of a value, or an empty text for a text.
fn emptied_value(alloc: Global, value: &Value) -> Result<Value, Memory>
    ensures { IfOk result (λ emptied. emptied ≡ emptied_value value.now) }
{
    match value {
        Value::Text(_) => Ok(Value::Text(CellText::from_str(alloc, "")?)),
        _ => value.copy(alloc),
    }
}

fn emptied_cell(alloc: Global, key: &[usize], place: usize, value: &Value) -> Result<Value, Memory>
    ensures { IfOk result (λ emptied. emptied ≡ emptied_cell key.now place value.now) }
{
    if is_set(key, place) {
        emptied_value(alloc, value)
    } else {
        value.copy(alloc)
    }
}

// A copy of a row in which the texts outside the key are empty.
fn emptied_row(alloc: Global, key: &[usize], row: &[Value]) -> Result<Cells, Memory>
    ensures { IfOk result (λ made. made ≡ emptied_row key.now row.now) }
{
    let mut made = Cells::new(alloc);
    for (place, value) in row.iter().enumerate() {
        made.push(emptied_cell(alloc, key, place, value)?)?;
    }
    Ok(made)
}

// Appends the line that makes an act, which is no question.
pub(crate) fn append_line(
    alloc: Global,
    schema: &Schema,
    act: &Act,
    out: &mut Txt,
) -> Result<(), Memory>
    ensures { OnOk result (out.new ≡ out.old
        ++ console_lines (act_statement (Some schema.now) act.now)) }
{
    out.append("0 ")?;
    append_act_statement(alloc, Some(schema), act, out)?;
    out.append("\n")
}

fn append_set(born: &Born<'_>, place: usize, out: &mut Txt) -> Result<(), Memory>
    ensures { OnOk result (out.new ≡ out.old
        ++ set_line born.now.schema.now born.now.table.now born.now.row.now place) }
{
    out.append("0 ")?;
    append_set_statement(born.schema, born.table, born.row, place, out)?;
    out.append("\n")
}

// Appends the lines that set these columns.
fn append_sets(born: &Born<'_>, places: &[usize], out: &mut Txt) -> Result<(), Memory>
    ensures { OnOk result (out.new ≡ out.old ++ flat_map
        (set_line born.now.schema.now born.now.table.now born.now.row.now) places.now) }
{
    for place in places {
        append_set(born, *place, out)?;
    }
    Ok(())
}

// The INSERT of the row without the texts outside its key.
fn emptied_insert(alloc: Global, born: &Born<'_>) -> Result<Act, Memory>
    ensures { IfOk result (λ act. act ≡ Insert born.now.table.now
        (emptied_row born.now.schema.now.key born.now.row.now)) }
{
    let table = born.table.copy(alloc)?;
    let row = emptied_row(alloc, born.schema.key.as_slice(), born.row.as_slice())?;
    Ok(Act::Insert { table, row })
}

fn append_emptied(alloc: Global, born: &Born<'_>, out: &mut Txt) -> Result<(), Memory>
    ensures { OnOk result (out.new ≡ out.old
        ++ insert_line born.now.table.now (emptied_row born.now.schema.now.key born.now.row.now)) }
{
    let act = emptied_insert(alloc, born)?;
    let told = append_line(alloc, born.schema, &act, out);
    drop(act);
    told
}

// Appends the lines that insert the row without its texts, and then set each of them.
fn append_parted(alloc: Global, born: &Born<'_>, out: &mut Txt) -> Result<(), Memory>
    ensures { OnOk result (out.new ≡ out.old
        ++ parted_lines born.now.schema.now born.now.table.now born.now.row.now) }
{
    append_emptied(alloc, born, out)?;
    let places = filled_in(alloc, born.schema, born.row)?;
    append_sets(born, places.as_slice(), out)?;
    Ok(())
}

// The line that inserts the row.
fn insert_line(alloc: Global, born: &Born<'_>, act: &Act) -> Result<Txt, Memory>
    requires act { act.now ≡ Insert born.now.table.now born.now.row.now }
    ensures { IfOk result (λ line. line ≡ insert_line born.now.table.now born.now.row.now) }
{
    let mut line = Txt::new(alloc);
    append_line(alloc, born.schema, act, &mut line)?;
    Ok(line)
}

// Appends a line if it is not too long, and else the lines that insert the row in parts.
fn append_either(alloc: Global, born: &Born<'_>, line: &str, out: &mut Txt) -> Result<(), Memory>
    requires line { line.now ≡ insert_line born.now.table.now born.now.row.now }
    ensures { OnOk result (out.new ≡ out.old
        ++ row_lines born.now.schema.now born.now.table.now born.now.row.now) }
{
    if line.len() <= LINE_LIMIT + 1 {
        out.append(line)
    } else {
        append_parted(alloc, born, out)
    }
}

/// Appends the lines that insert a row. `act` is its INSERT.
pub(crate) fn append_birth(
    alloc: Global,
    born: &Born<'_>,
    act: &Act,
    out: &mut Txt,
) -> Result<(), Memory>
    requires act { act.now ≡ Insert born.now.table.now born.now.row.now }
    ensures { OnOk result (out.new ≡ out.old
        ++ row_lines born.now.schema.now born.now.table.now born.now.row.now) }
{
    let line = insert_line(alloc, born, act)?;
    append_either(alloc, born, line.as_str(), out)
}
