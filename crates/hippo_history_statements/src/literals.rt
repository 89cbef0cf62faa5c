//! Values as literals.
ghost use Rattle.std.specs.Prelude.{◌++◌, codes};
ghost use Rattle.hippo_values_text.specs.Dates.{day_text};
ghost use Rattle.hippo_values_text.specs.Printing.{AppendsText};
ghost use Rattle.hippo_history_statements.specs.Telling.{literal_text, literals_text};

use crate::joining::{Spelling, append_joined};
use hippo_values::{DayNumber, Memory, RoomyTxt, Value};
use hippo_values_text::{append_value, day_text};

fn append_day<const ROOM: usize>(day: DayNumber, out: &mut RoomyTxt<ROOM>) -> Result<(), Memory>
    ensures adds { AppendsText (codes "DATE '" ++ (day_text day ++ codes "'")) result out.old out.new }
{
    match str::from_utf8(&day_text(day)) {
        Ok(text) => {
            out.append("DATE '")?;
            out.append(text)?;
            out.append("'")
        }
        Err(_) => unreachable!(),
    }
}

/// Appends a value as a literal: `NULL`, a decimal number, a text between quotes with each of its
/// quotes doubled, or a day as `DATE 'YYYY-MM-DD'`.
pub fn append_literal<const ROOM: usize>(
    value: &Value,
    out: &mut RoomyTxt<ROOM>,
) -> Result<(), Memory>
    ensures adds { AppendsText (literal_text value.now) result out.old out.new }
{
    match value {
        Value::Day(day) => append_day(*day, out),
        _ => append_value(value, out),
    }
}

/// Spells each value of a list as a literal.
#[derive(Clone, Copy)]
struct Literals;

impl<const ROOM: usize> Spelling<Value, ROOM> for Literals {
    ghost use Rattle.hippo_history_statements.specs.Telling.{literal_text};

    ghost text = { λ literals value. literal_text value };

    fn spell(&self, value: &Value, out: &mut RoomyTxt<ROOM>) -> Result<(), Memory> {
        append_literal(value, out)
    }
}

/// Appends values as literals, separated by commas.
pub fn append_literals<const ROOM: usize>(
    values: &[Value],
    out: &mut RoomyTxt<ROOM>,
) -> Result<(), Memory>
    ensures adds { AppendsText (literals_text values.now) result out.old out.new }
{
    append_joined(&Literals, ", ", values, out)
}
