//! Reads the values of fields.
ghost use Rattle.std.specs.Prelude.{◌≡◌, true, length, ok_or, IfOk};
ghost use Rattle.std.specs.Bool.{then_some};
ghost use Rattle.std.specs.Char.{is_ascii_digit};
ghost use Rattle.std.specs.List.{list_all};
ghost use Rattle.std.specs.Str.Parse.{signed_digits_value};
ghost use Rattle.hippo_values.specs.Moments.{is_signed_number};
ghost use Rattle.hippo_lexer.specs.Cutting.{day_of};
ghost use Rattle.hippo_model.specs.declared.schema.ColumnKind.TheVariants as columns;
ghost use Rattle.hippo_csv.specs.declared.faults.CsvFault.TheVariants as faults;
ghost use Rattle.hippo_csv.specs.Records.{without_sign, is_integer_text, filled_value, field_value, field_values};
ghost use Rattle.hippo_csv.specs.Loading.{GivesValues, is_signed_numeral, all_values, row_of_fields};

use crate::faults::CsvFault;
use crate::fields::Fields;
use hippo_model::{Cells, ColumnKind, Schema};
use hippo_values::{CellText, DayNumber, Memory, Value};
use hippo_values_text::read_day;
use std::alloc::Global;

fn without_sign(bytes: &[u8]) -> &[u8]
    ensures { result.now ≡ without_sign bytes.now }
{
    match bytes {
        [b'-', digits @ ..] => digits,
        _ => bytes,
    }
}

fn are_digits(bytes: &[u8]) -> bool
    ensures { result ≡ list_all is_ascii_digit bytes.now }
{
    bytes.iter().all(|byte| byte.is_ascii_digit())
}

// One or more digits, with or without a `-` before them.
fn is_numeral(bytes: &[u8]) -> bool
    ensures { result ≡ is_signed_numeral bytes.now }
{
    let digits = without_sign(bytes);
    !digits.is_empty() && are_digits(digits)
}

// The number that digits write; none if it does not fit.
fn number_of(text: &str) -> Option<i64>
    requires { is_signed_numeral text.now ≡ true }
    ensures { result
        ≡ then_some (is_signed_number (signed_digits_value 10 text.now))
        (signed_digits_value 10 text.now) }
{
    text.parse::<i64>().ok()
}

fn integer_of(text: &str) -> Option<i64>
    ensures { result ≡ then_some (is_integer_text text.now) (signed_digits_value 10 text.now) }
{
    if is_numeral(text.as_bytes()) {
        number_of(text)
    } else {
        None
    }
}

fn integer_value(text: &str) -> Option<Value>
    ensures { result ≡ filled_value columns.Integer text.now }
{
    match integer_of(text) {
        Some(number) => Some(Value::Int(number)),
        None => None,
    }
}

// The day that a text writes.
fn day_of(text: &str) -> Option<DayNumber>
    ensures { result ≡ day_of text.now }
{
    read_day(text)
}

fn day_value(text: &str) -> Option<Value>
    ensures { result ≡ filled_value columns.Date text.now }
{
    match day_of(text) {
        Some(day) => Some(Value::Day(day)),
        None => None,
    }
}

fn filled_value(alloc: Global, kind: ColumnKind, text: &str) -> Result<Option<Value>, Memory>
    ensures { IfOk result (λ value. value ≡ filled_value kind text.now) }
{
    match kind {
        ColumnKind::Integer => Ok(integer_value(text)),
        ColumnKind::Text => Ok(Some(Value::Text(CellText::from_str(alloc, text)?))),
        ColumnKind::Date => Ok(day_value(text)),
    }
}

fn field_value(alloc: Global, kind: ColumnKind, text: &str) -> Result<Option<Value>, Memory>
    ensures { IfOk result (λ value. value ≡ field_value kind text.now) }
{
    if text.is_empty() {
        Ok(Some(Value::Null))
    } else {
        filled_value(alloc, kind, text)
    }
}

// The value of the field at an index.
fn value_at(alloc: Global, kind: ColumnKind, text: &str, place: usize) -> Result<Value, CsvFault>
    ensures { GivesValues result (ok_or (field_value kind text.now) (faults.Field place)) }
{
    field_value(alloc, kind, text)?.ok_or(CsvFault::Field(place))
}

// The values of the fields, which are as many as the table's columns.
fn all_values(alloc: Global, schema: &Schema, fields: &Fields) -> Result<Cells, CsvFault>
    requires { length fields.now ≡ length schema.now.columns }
    ensures { GivesValues result (all_values (field_values schema.now fields.now)) }
{
    let mut row = Cells::new(alloc);
    for (place, field) in fields.as_slice().iter().enumerate() {
        let kind = schema.columns.get(place).kind;
        row.push(value_at(alloc, kind, field.as_str(), place)?)?;
    }
    Ok(row)
}

/// The row of a table that the fields of a record make. An empty field is NULL. An INTEGER field is
/// digits with or without a `-` before them, within 64 bits. A DATE field is a day as `YYYY-MM-DD`.
/// A TEXT field is the text itself. Returns `Count` if there are more or fewer fields than columns;
/// else `Field`, with the index of the first field that does not have its column's form, if there
/// is one.
pub fn field_values(alloc: Global, schema: &Schema, fields: &Fields) -> Result<Cells, CsvFault>
    ensures { GivesValues result (row_of_fields schema.now fields.now) }
{
    if fields.len() == schema.columns.len() {
        all_values(alloc, schema, fields)
    } else {
        Err(CsvFault::Count)
    }
}
