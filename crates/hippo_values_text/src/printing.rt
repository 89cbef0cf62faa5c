//! Prints values.
ghost use Rattle.std.specs.Prelude.{◌≡◌, ◌+◌, ◌≤◌, ◌++◌, length, IsOk, OnOk, OnErr};
ghost use Rattle.std.specs.Fmt.{signed_decimal};
ghost use Rattle.std.specs.List.{list_any};
ghost use Rattle.hippo_values_text.specs.Dates.{day_text};
ghost use Rattle.hippo_values_text.specs.Printing.{value_text, AppendsText};
ghost use Rattle.hippo_values_text.specs.Quoting.{is_quote, doubled_quotes, quoted_text};

use crate::dates;
use hippo_values::{DayNumber, Memory, RoomyTxt, Value};
use itoa::Buffer;

fn append_integer<const ROOM: usize>(number: i64, out: &mut RoomyTxt<ROOM>) -> Result<(), Memory>
    ensures adds { AppendsText (signed_decimal number) result out.old out.new }
    ensures room { length out.old + length (signed_decimal number) ≤ ROOM → IsOk result }
{
    out.append(Buffer::new().format(number))
}

// Whether a text contains a quote. One pass over its bytes.
fn has_quote(text: &str) -> bool
    ensures { result ≡ list_any is_quote text.now }
{
    text.as_bytes().contains(&b'\'')
}

// Appends a text with each quote doubled, one piece up to each quote at a time.
fn append_by_quotes<const ROOM: usize>(text: &str, out: &mut RoomyTxt<ROOM>) -> Result<(), Memory>
    ensures adds { AppendsText (doubled_quotes text.now) result out.old out.new }
    ensures room { length out.old + length (doubled_quotes text.now) ≤ ROOM → IsOk result }
{
    let mut rest = text;
    while let Some((before, after)) = rest.split_once('\'') {
        out.append(before)?;
        out.append("''")?;
        rest = after;
    }
    out.append(rest)
}

// Appends a text with each quote doubled. A text without quotes is appended whole, which is faster.
fn append_doubled<const ROOM: usize>(text: &str, out: &mut RoomyTxt<ROOM>) -> Result<(), Memory>
    ensures adds { AppendsText (doubled_quotes text.now) result out.old out.new }
    ensures room { length out.old + length (doubled_quotes text.now) ≤ ROOM → IsOk result }
{
    if has_quote(text) {
        append_by_quotes(text, out)
    } else {
        out.append(text)
    }
}

fn append_quoted<const ROOM: usize>(text: &str, out: &mut RoomyTxt<ROOM>) -> Result<(), Memory>
    ensures adds { AppendsText (quoted_text text.now) result out.old out.new }
    ensures room { length out.old + length (quoted_text text.now) ≤ ROOM → IsOk result }
{
    out.push('\'')?;
    append_doubled(text, out)?;
    out.push('\'')
}

fn append_day<const ROOM: usize>(day: DayNumber, out: &mut RoomyTxt<ROOM>) -> Result<(), Memory>
    ensures adds { AppendsText (day_text day) result out.old out.new }
    ensures room { length out.old + length (day_text day) ≤ ROOM → IsOk result }
{
    match str::from_utf8(&dates::day_text(day)) {
        Ok(text) => out.append(text),
        Err(_) => unreachable!(),
    }
}

/// Appends the printed form of a value: `NULL`, a decimal number, a text between quotes with each
/// quote in it doubled, or a day as `YYYY-MM-DD`. It allocates nothing while the result fits in the
/// text's guaranteed capacity. When out of memory, part of the printed form may have been appended.
#[inline(always)]
pub fn append_value<const ROOM: usize>(
    value: &Value,
    out: &mut RoomyTxt<ROOM>,
) -> Result<(), Memory>
    ensures adds { AppendsText (value_text value.now) result out.old out.new }
    ensures room { length out.old + length (value_text value.now) ≤ ROOM → IsOk result }
{
    match value {
        Value::Null => out.append("NULL"),
        Value::Int(number) => append_integer(*number, out),
        Value::Text(text) => append_quoted(text.as_str(), out),
        Value::Day(day) => append_day(*day, out),
    }
}

/// Like `append_value`, but leaves the text unchanged when out of memory.
pub fn print_value<const ROOM: usize>(value: &Value, out: &mut RoomyTxt<ROOM>) -> Result<(), Memory>
    ensures ok { OnOk result (out.new ≡ out.old ++ value_text value.now) }
    ensures err { OnErr result (out.new ≡ out.old) }
    ensures room { length out.old + length (value_text value.now) ≤ ROOM → IsOk result }
{
    let length = out.as_str().len();
    let printed = append_value(value, out);
    if printed.is_err() {
        out.truncate(length);
    }
    printed
}
