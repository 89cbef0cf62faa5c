//! Checks of records that are loaded. Each is an INSERT of its row.
ghost use Rattle.std.specs.Prelude.{◌≡◌, ◌⊎◌, ◌^◌, ◌<◌, ◌&&◌, true, IfOk};
ghost use Rattle.std.specs.List.{list_all};
ghost use Rattle.std.specs.Result.{result_map_both};
ghost use Rattle.std.specs.Str.{is_utf8};
ghost use Rattle.hippo_values.specs.Moments.{is_day, is_signed_number};
ghost use Rattle.hippo_model.specs.Keepable.{is_folded_name};
ghost use Rattle.hippo_model.specs.Terms.{History};
ghost use Rattle.hippo_model.specs.declared.name_fault.NameFault.TheVariants as faults;
ghost use Rattle.hippo_csv.specs.declared.faults.CsvFault.TheVariants as fields;
ghost use Rattle.hippo_csv.specs.Loading.{row_of_fields};
ghost use Rattle.hippo_typing_laws.specs.Written.{is_typed, is_written};
ghost use Rattle.hippo_report.specs.declared.speaker.Speaker.TheVariants.{Console};
ghost use Rattle.hippo_replay.specs.Standing.{Represents, MayFollow, IsTimely};
ghost use Rattle.hippo_report.specs.declared.refusal.Refusal.TheVariants.{Memory as NoMemory};
ghost use Rattle.hippo_report.specs.declared.refusal.Refusal.TheVariants as refusals;
ghost use Rattle.hippo_engine_checks.specs.Checks.{Finds};
ghost use Rattle.hippo_engine_checks.specs.Judging.{record_refusal, loaded_row, loaded_insert, judged_load};
ghost use Rattle.hippo_engine_checks.specs.Changes.{FindsChange};

use crate::changes::entry_of_change;
use hippo_csv::{CsvFault, Fields, field_values, read_fields};
use hippo_engine_sessions::WorldView;
use hippo_model::{Cells, Entry, NameFault, Schema};
use hippo_replay::State;
use hippo_report::Refusal;
use hippo_stmt_ast::Stmt;
use hippo_stmt_lines::WrittenName;
use hippo_typing_catalog::Catalog;
use hippo_typing_catalog::name_faults::boxed_name;
use hippo_typing_laws::name_fits;
use hippo_values::{Boxed, DayNumber, Memory, Name, Value};
use std::alloc::Global;

// The refusal of the field at a place. It names the field's column.
fn field_refusal(alloc: Global, schema: &Schema, place: usize) -> Refusal
    ensures { (result ≡ record_refusal schema.now (fields.Field place)) ⊎ (result ≡ NoMemory) }
{
    match schema.columns.as_slice().get(place) {
        Some(column) => match boxed_name(alloc, &column.name) {
            Ok(name) => Refusal::BadField(name),
            Err(Memory) => Refusal::Memory,
        },
        None => Refusal::Memory,
    }
}

fn record_refusal(alloc: Global, schema: &Schema, fault: CsvFault) -> Refusal
    ensures { (result ≡ record_refusal schema.now fault) ⊎ (result ≡ NoMemory) }
{
    match fault {
        CsvFault::Count => Refusal::Meaningless(NameFault::WrongCount(schema.columns.len() as u64)),
        CsvFault::Field(place) => field_refusal(alloc, schema, place),
        CsvFault::Memory => Refusal::Memory,
    }
}

// The row that the fields of a record give, or why they give none.
fn row_of(alloc: Global, schema: &Schema, fields: &Fields) -> Result<Cells, Refusal>
    ensures { Finds (λ row. row)
        (result_map_both (λ row. row) (record_refusal schema.now)
        (row_of_fields schema.now fields.now)) result }
{
    match field_values(alloc, schema, fields) {
        Ok(row) => Ok(row),
        Err(fault) => Err(record_refusal(alloc, schema, fault)),
    }
}

// The row that a text gives as one record.
fn loaded_row(alloc: Global, schema: &Schema, text: &str) -> Result<Cells, Refusal>
    ensures { Finds (λ row. row) (loaded_row schema.now text.now) result }
{
    match read_fields(alloc, text) {
        Ok(Some(fields)) => row_of(alloc, schema, &fields),
        Ok(None) => Err(Refusal::BadRecord),
        Err(Memory) => Err(Refusal::Memory),
    }
}

// The types guarantee that each number has 64 bits, each text is UTF-8, and each day lies in the
// years 0001 to 9999. These functions look at none of it.
fn number_fits(_number: i64)
    ensures { is_signed_number _number ≡ true }
{}

fn text_fits(text: &str)
    ensures { is_utf8 text.now ≡ true }
{}

fn day_fits(day: DayNumber)
    ensures { is_day day ≡ true }
{
    let _number = day.day();
}

fn value_fits(value: &Value)
    ensures { is_typed value.now ≡ true }
{
    match value {
        Value::Null => {}
        Value::Int(number) => number_fits(*number),
        Value::Text(text) => text_fits(text.as_str()),
        Value::Day(day) => day_fits(*day),
    }
}

fn values_fit(values: &[Value])
    ensures { list_all is_typed values.now ≡ true }
{
    for value in values {
        value_fits(value);
    }
}

fn insert_fits(table: &Name, values: &[Value])
    ensures { (is_folded_name table.now && list_all is_typed values.now) ≡ true }
{
    name_fits(table);
    values_fit(values);
}

// The refusal that no table has this name.
fn unknown_table(alloc: Global, table: &Name) -> Refusal
    ensures { (result ≡ refusals.Meaningless (faults.UnknownTable table.now)) ⊎ (result ≡ NoMemory) }
{
    match boxed_name(alloc, table) {
        Ok(table) => Refusal::Meaningless(NameFault::UnknownTable(table)),
        Err(Memory) => Refusal::Memory,
    }
}

// The INSERT of the record's row into a table.
fn insert_into(alloc: Global, catalog: &Catalog, table: Name, text: &str) -> Result<Stmt, Refusal>
    ensures found { Finds (λ insert. insert) (loaded_insert catalog.now.names table text.now)
        result }
    ensures written { IfOk result (λ insert. is_written insert ≡ true) }
{
    match catalog.table(&table) {
        Some(schema) => {
            let values = loaded_row(alloc, schema, text)?;
            insert_fits(&table, values.as_slice());
            Ok(Stmt::Insert { table, values })
        }
        None => Err(unknown_table(alloc, &table)),
    }
}

fn insert_of(
    alloc: Global,
    catalog: &Catalog,
    table: &WrittenName<'_>,
    text: &str,
) -> Result<Stmt, Refusal>
    ensures found { Finds (λ insert. insert) (loaded_insert catalog.now.names table.now text.now)
        result }
    ensures written { IfOk result (λ insert. is_written insert ≡ true) }
{
    match table.name(alloc) {
        Ok(table) => insert_into(alloc, catalog, table, text),
        Err(Memory) => Err(Refusal::Memory),
    }
}

/// A record to load into a table, as the line writes it.
#[derive(Clone, Copy)]
pub(crate) struct Record<'a> {
    pub(crate) table: &'a WrittenName<'a>,
    pub(crate) text: &'a str,
}

/// The entry that a record for a table adds: the entry of the INSERT of its row. It may follow the
/// history. Or its first refusal: there is no such table, the text is not one record with a
/// well-formed field for each column, or the INSERT is refused. It may also be refused when out of
/// memory.
pub(crate) fn entry_of_record<W: WorldView>(
    alloc: Global,
    state: &State,
    world: &W,
    loaded: &Record<'_>,
) -> Result<Boxed<Entry>, Refusal>
    requires timely { IsTimely state.now (W.seen world.now).clock }
    ensures found { (history : History) → Represents state.now history
        → FindsChange history (W.seen world.now)
        (judged_load history (W.seen world.now) Console loaded.now.table.now loaded.now.text.now)
        result }
    ensures number { IfOk result (λ entry. entry.seq < 2 ^ 63) }
    ensures follows { IfOk result (λ entry. MayFollow state.now entry) }
{
    match insert_of(alloc, &state.catalog, loaded.table, loaded.text) {
        Ok(insert) => {
            let found = entry_of_change(alloc, state, world, &insert);
            drop(insert);
            found
        }
        Err(refusal) => Err(refusal),
    }
}
