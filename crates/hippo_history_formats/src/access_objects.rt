//! An access as a JSON object (RFC 8259).
ghost use Rattle.std.specs.Prelude.{◌≡◌, map, IfOk, OnOk, string_bytes, codes};
ghost use Rattle.serde_json.specs.Data.{put, string, number, unsigned};
ghost use Rattle.serde_json.specs.View.{view, members_view};
ghost use Rattle.serde_json.specs.Written.{compact_text};
ghost use Rattle.hippo_values_text.specs.Dates.{day_text};
ghost use Rattle.hippo_report_flags.specs.Flags.{value_data};
ghost use Rattle.hippo_history_formats.specs.Accesses.{seen_data, denied_data, list_data, access_data};

use crate::access::{Access, DeniedCell, SeenCell};
use crate::members::{put_number, put_text};
use hippo_report::ascii_text;
use hippo_values::{DayNumber, Value};
use hippo_values_text::day_text;
use serde_json::{Map, put};
use std::alloc::{AllocError, Global};

// Something with a JSON form.
trait JsonForm {
    ghost use Rattle.serde_json.specs.Data.{Data};
    ghost use Rattle.serde_json.specs.View.{view};
    ghost use Rattle.std.specs.Prelude.{◌≡◌, IfOk};

    ghost form: { Self → Data };

    fn data(&self, alloc: Global) -> Result<serde_json::Value, AllocError>
        ensures { IfOk result (λ made. view made ≡ form self.now) };
}

fn day_data(alloc: Global, day: DayNumber) -> Result<serde_json::Value, AllocError>
    ensures { IfOk result (λ made. view made ≡ string (day_text day)) }
{
    serde_json::Value::try_from_str(alloc, ascii_text(&day_text(day)))
}

impl JsonForm for Value {
    ghost use Rattle.hippo_report_flags.specs.Flags.{value_data};

    ghost form = { value_data };

    fn data(&self, alloc: Global) -> Result<serde_json::Value, AllocError> {
        match self {
            Value::Null => Ok(serde_json::Value::Null),
            Value::Int(number) => Ok(serde_json::Value::from(*number)),
            Value::Text(text) => serde_json::Value::try_from_str(alloc, text.as_str()),
            Value::Day(day) => day_data(alloc, *day),
        }
    }
}

// Adds a value in its JSON form.
fn put_form<T: JsonForm>(
    alloc: Global,
    members: &mut Map<String, serde_json::Value>,
    key: &str,
    value: &T,
) -> Result<(), AllocError>
    ensures { OnOk result (members_view members.new.entries
        ≡ put key.now (T.form value.now) (members_view members.old.entries)) }
{
    let form = value.data(alloc)?;
    put(members, alloc, key, form)
}

impl JsonForm for SeenCell {
    ghost use Rattle.hippo_history_formats.specs.Accesses.{seen_data};

    ghost form = { seen_data };

    fn data(&self, alloc: Global) -> Result<serde_json::Value, AllocError> {
        let mut members = Map::new(alloc);
        put_text(alloc, &mut members, "column", self.column.as_str())?;
        put_form(alloc, &mut members, "value", &self.value)?;
        Ok(serde_json::Value::Object(members))
    }
}

impl JsonForm for DeniedCell {
    ghost use Rattle.hippo_history_formats.specs.Accesses.{denied_data};

    ghost form = { denied_data };

    fn data(&self, alloc: Global) -> Result<serde_json::Value, AllocError> {
        let mut members = Map::new(alloc);
        put_text(alloc, &mut members, "column", self.column.as_str())?;
        put_number(alloc, &mut members, "rule", self.rule)?;
        Ok(serde_json::Value::Object(members))
    }
}

fn items_data<T: JsonForm>(
    alloc: Global,
    members: &[T],
) -> Result<Vec<serde_json::Value>, AllocError>
    ensures { IfOk result (λ made. map view made.items ≡ map T.form members.now) }
{
    let mut items = Vec::new(alloc);
    for member in members {
        items.push(member.data(alloc)?)?;
    }
    Ok(items)
}

// Adds a list of values.
fn put_list<T: JsonForm>(
    alloc: Global,
    members: &mut Map<String, serde_json::Value>,
    key: &str,
    list: &[T],
) -> Result<(), AllocError>
    ensures { OnOk result (members_view members.new.entries
        ≡ put key.now (list_data T.form list.now) (members_view members.old.entries)) }
{
    let items = items_data(alloc, list)?;
    put(members, alloc, key, serde_json::Value::Array(items))
}

// Adds the entry and the moment of the question, and who asked.
fn put_asker(
    alloc: Global,
    members: &mut Map<String, serde_json::Value>,
    access: &Access,
    moment: &str,
) -> Result<(), AllocError>
    ensures { OnOk result (members_view members.new.entries
        ≡ put (codes "user") (string access.now.user)
        (put (codes "recipient") (string access.now.recipient)
        (put (codes "purpose") (string access.now.purpose)
        (put (codes "moment") (string moment.now)
        (put (codes "entry") (number (unsigned access.now.entry))
        (members_view members.old.entries)))))) }
{
    put_number(alloc, members, "entry", access.entry)?;
    put_text(alloc, members, "moment", moment)?;
    put_text(alloc, members, "purpose", access.purpose.as_str())?;
    put_text(alloc, members, "recipient", access.recipient.as_str())?;
    put_text(alloc, members, "user", access.user.as_str())
}

// Adds the row, what the question saw of it, and what was denied to it.
fn put_row(
    alloc: Global,
    members: &mut Map<String, serde_json::Value>,
    access: &Access,
) -> Result<(), AllocError>
    ensures { OnOk result (members_view members.new.entries
        ≡ put (codes "denied") (list_data denied_data access.now.denied)
        (put (codes "tested") (list_data seen_data access.now.tested)
        (put (codes "shown") (list_data seen_data access.now.shown)
        (put (codes "key") (list_data value_data access.now.key)
        (put (codes "table") (string access.now.table)
        (members_view members.old.entries)))))) }
{
    put_text(alloc, members, "table", access.table.as_str())?;
    put_list(alloc, members, "key", access.key.as_slice())?;
    put_list(alloc, members, "shown", access.shown.as_slice())?;
    put_list(alloc, members, "tested", access.tested.as_slice())?;
    put_list(alloc, members, "denied", access.denied.as_slice())
}

fn access_data(
    alloc: Global,
    access: &Access,
    moment: &str,
) -> Result<serde_json::Value, AllocError>
    ensures { IfOk result (λ made. view made ≡ access_data access.now moment.now) }
{
    let mut members = Map::new(alloc);
    put_asker(alloc, &mut members, access, moment)?;
    put_row(alloc, &mut members, access)?;
    Ok(serde_json::Value::Object(members))
}

/// Returns an access as an object, without spaces.
pub(crate) fn access_json(
    alloc: Global,
    access: &Access,
    moment: &str,
) -> Result<String, AllocError>
    ensures { IfOk result (λ text. string_bytes text
        ≡ compact_text (access_data access.now moment.now)) }
{
    let object = access_data(alloc, access, moment)?;
    object.to_string(alloc)
}
