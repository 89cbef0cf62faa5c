//! Members of a JSON object (RFC 8259), one after another.
ghost use Rattle.std.specs.Prelude.{◌≡◌, option_copied, OnOk};
ghost use Rattle.serde_json.specs.Data.{put, string, number, unsigned};
ghost use Rattle.serde_json.specs.View.{members_view};
ghost use Rattle.hippo_history_formats.specs.Formats.{number_data, text_data};

use serde_json::{Map, Value, put};
use std::alloc::{AllocError, Global};

/// Adds a text to the object.
pub(crate) fn put_text(
    alloc: Global,
    members: &mut Map<String, Value>,
    key: &str,
    text: &str,
) -> Result<(), AllocError>
    ensures { OnOk result (members_view members.new.entries
        ≡ put key.now (string text.now) (members_view members.old.entries)) }
{
    let member = Value::try_from_str(alloc, text)?;
    put(members, alloc, key, member)
}

/// Adds a number to the object.
pub(crate) fn put_number(
    alloc: Global,
    members: &mut Map<String, Value>,
    key: &str,
    value: u64,
) -> Result<(), AllocError>
    ensures { OnOk result (members_view members.new.entries
        ≡ put key.now (number (unsigned value)) (members_view members.old.entries)) }
{
    put(members, alloc, key, Value::from(value))
}

/// Adds a number of days to the object, or null if there is none.
pub(crate) fn put_days(
    alloc: Global,
    members: &mut Map<String, Value>,
    key: &str,
    days: Option<u32>,
) -> Result<(), AllocError>
    ensures { OnOk result (members_view members.new.entries
        ≡ put key.now (number_data days) (members_view members.old.entries)) }
{
    match days {
        None => put(members, alloc, key, Value::Null),
        Some(days) => put(members, alloc, key, Value::from(days)),
    }
}

/// Adds a text to the object, or null if there is none.
pub(crate) fn put_text_or_null(
    alloc: Global,
    members: &mut Map<String, Value>,
    key: &str,
    text: Option<&str>,
) -> Result<(), AllocError>
    ensures { OnOk result (members_view members.new.entries
        ≡ put key.now (text_data (option_copied text.entry)) (members_view members.old.entries)) }
{
    match text {
        None => put(members, alloc, key, Value::Null),
        Some(text) => put_text(alloc, members, key, text),
    }
}
