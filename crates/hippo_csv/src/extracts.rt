//! Writes the rows of an answer as records.
ghost use Rattle.std.specs.Prelude.{◌≡◌, ◌++◌, ◌∷◌, [], map, flat_map, codes, decimal, OnOk};
ghost use Rattle.csv.specs.Records.{fields_of};
ghost use Rattle.csv.specs.Writing.{default_writer, row_text, writer_under};
ghost use Rattle.hippo_values_text.specs.Printing.{AppendsText};
ghost use Rattle.hippo_model.specs.declared.cells.Cell.TheVariants.{Shown, Denied};
ghost use Rattle.hippo_report.specs.Adding.{AddsWhole};
ghost use Rattle.hippo_report.specs.Cells.{cell_text};
ghost use Rattle.hippo_csv.specs.Records.{cell_field, extract_line};
ghost use Rattle.hippo_csv.specs.Extracting.{IsBetween};

use csv::{Error, StringRecord, Writer, WriterBuilder};
use hippo_model::{Cell, CellRow};
use hippo_values::{Memory, RoomyTxt, Txt, Value};
use hippo_values_text::print_value;
use itoa::Buffer;
use std::alloc::Global;
use std::slice;

fn print_denied(rule: u64, text: &mut Txt) -> Result<(), Memory>
    ensures { OnOk result (text.new ≡ text.old ++ cell_text (Denied rule)) }
{
    text.append("DENIED(")?;
    text.append(Buffer::new().format(rule))?;
    text.append(")")
}

fn push_printed(value: &Value, text: &mut Txt, fields: &mut StringRecord) -> Result<(), Memory>
    ensures { OnOk result (fields_of fields.new
        ≡ fields_of fields.old ++ cell_text (Shown value.now) ∷ []) }
{
    text.clear();
    print_value(value, text)?;
    fields.push_field(text.as_str())?;
    Ok(())
}

fn push_denied(rule: u64, text: &mut Txt, fields: &mut StringRecord) -> Result<(), Memory>
    ensures { OnOk result (fields_of fields.new
        ≡ fields_of fields.old ++ cell_field (Denied rule) ∷ []) }
{
    text.clear();
    print_denied(rule, text)?;
    fields.push_field(text.as_str())?;
    Ok(())
}

fn push_shown(value: &Value, text: &mut Txt, fields: &mut StringRecord) -> Result<(), Memory>
    ensures { OnOk result (fields_of fields.new
        ≡ fields_of fields.old ++ cell_field (Shown value.now) ∷ []) }
{
    match value {
        Value::Null => fields.push_field("")?,
        Value::Text(own) => fields.push_field(own.as_str())?,
        Value::Int(_) => push_printed(value, text, fields)?,
        Value::Day(_) => push_printed(value, text, fields)?,
    }
    Ok(())
}

fn push_cell(cell: &Cell, text: &mut Txt, fields: &mut StringRecord) -> Result<(), Memory>
    ensures { OnOk result (fields_of fields.new
        ≡ fields_of fields.old ++ cell_field cell.now ∷ []) }
{
    match cell {
        Cell::Shown(value) => push_shown(value, text, fields),
        Cell::Denied(rule) => push_denied(*rule, text, fields),
    }
}

// Fills the record with the cells of a row. Cells are printed into `text`.
fn fill_record(row: &[Cell], text: &mut Txt, fields: &mut StringRecord) -> Result<(), Memory>
    ensures { OnOk result (fields_of fields.new ≡ map cell_field row.now) }
{
    fields.clear();
    for cell in row {
        push_cell(cell, text, fields)?;
    }
    Ok(())
}

// Writes a record after those written before.
fn write_record(writer: &mut Writer<Vec<u8>>, fields: &StringRecord) -> Result<(), Error>
    requires { IsBetween writer.old }
    ensures between { OnOk result (IsBetween writer.new) }
    ensures text { OnOk result ((writer_under writer.new).items
        ≡ (writer_under writer.old).items ++ row_text default_writer (fields_of fields.now)) }
{
    writer.write_byte_record(fields.as_byte_record())?;
    writer.flush()?;
    Ok(())
}

// The state for writing the rows of an answer: one writer for all rows, whose records may differ in
// length; the record of the current row; and a text into which cells are printed.
#[derive(Drop)]
struct Extractor {
    writer: Writer<Vec<u8>>,
    record: StringRecord,
    text: Txt,
}

impl Extractor {
    fn new(alloc: Global) -> Extractor
        ensures { IsBetween result.writer }
    {
        Extractor {
            writer: WriterBuilder::new()
                .flexible(true)
                .from_writer(Vec::new(alloc)),
            record: StringRecord::new(alloc),
            text: Txt::new(alloc),
        }
    }
}

// A record is always a text. The other case cannot occur; it returns out of memory.
fn append_line<const ROOM: usize>(
    session: u8,
    line: &[u8],
    out: &mut RoomyTxt<ROOM>,
) -> Result<(), Memory>
    ensures adds { AppendsText (decimal session ++ (codes " csv " ++ line.now))
        result out.old out.new }
{
    match str::from_utf8(line) {
        Ok(text) => {
            out.append(Buffer::new().format(session))?;
            out.append(" csv ")?;
            out.append(text)
        }
        Err(_) => Err(Memory),
    }
}

// The writer writes into memory, so each of its faults is out of memory.
fn append_row<const ROOM: usize>(
    session: u8,
    row: &CellRow,
    tools: &mut Extractor,
    out: &mut RoomyTxt<ROOM>,
) -> Result<(), Memory>
    requires { IsBetween tools.old.writer }
    ensures between { OnOk result (IsBetween tools.new.writer) }
    ensures adds { AppendsText (extract_line session row.now) result out.old out.new }
{
    fill_record(row.as_slice(), &mut tools.text, &mut tools.record)?;
    let start = tools.writer.get_ref().len();
    write_record(&mut tools.writer, &tools.record).map_err(|_| Memory)?;
    append_line(session, &tools.writer.get_ref().as_slice()[start..], out)
}

fn append_rows<const ROOM: usize>(
    session: u8,
    rows: &[CellRow],
    tools: &mut Extractor,
    out: &mut RoomyTxt<ROOM>,
) -> Result<(), Memory>
    requires { IsBetween tools.old.writer }
    ensures adds { AppendsText (flat_map (extract_line session) rows.now) result out.old out.new }
{
    for row in rows {
        append_row(session, row, tools, out)?;
    }
    Ok(())
}

fn append_answer<const ROOM: usize>(
    alloc: Global,
    session: u8,
    rows: &[CellRow],
    out: &mut RoomyTxt<ROOM>,
) -> Result<(), Memory>
    ensures adds { AppendsText (flat_map (extract_line session) rows.now) result out.old out.new }
{
    let mut tools = Extractor::new(alloc);
    let appended = append_rows(session, rows, &mut tools, out);
    drop(tools);
    appended
}

/// Appends the rows of an answer for a session as RFC 4180 records: for each row `N csv `, the
/// record, and a line feed. A text is written as it is, and NULL as an empty field. Every other
/// value is printed as in SQL, and a denied cell as `DENIED(e)` with the number of its rule. When
/// out of memory the text is unchanged.
pub fn extract_lines<const ROOM: usize>(
    alloc: Global,
    session: u8,
    rows: &[CellRow],
    out: &mut RoomyTxt<ROOM>,
) -> Result<(), Memory>
    ensures { AddsWhole (flat_map (extract_line session) rows.now) result out.old out.new }
{
    let length = out.as_str().len();
    let written = append_answer(alloc, session, rows, out);
    if written.is_err() {
        out.truncate(length);
    }
    written
}

/// Appends one row of an answer for a session as a record, as `extract_lines` does. When out of
/// memory the text is unchanged.
pub fn extract_line<const ROOM: usize>(
    alloc: Global,
    session: u8,
    row: &CellRow,
    out: &mut RoomyTxt<ROOM>,
) -> Result<(), Memory>
    ensures { AddsWhole (extract_line session row.now) result out.old out.new }
{
    extract_lines(alloc, session, slice::from_ref(row), out)
}
