//! An entry as a line.
ghost use Rattle.std.specs.Prelude.{◌≡◌, ◌++◌, option_copied, OnOk, OnErr};
ghost use Rattle.hippo_values_text.specs.Dates.{moment_text};
ghost use Rattle.hippo_values_text.specs.Printing.{AppendsText};
ghost use Rattle.hippo_history_statements.specs.Telling.{entry_line};

use crate::acts::append_act_statement;
use hippo_model::{Entry, Schema};
use hippo_values::{Memory, Moment, RoomyTxt};
use hippo_values_text::moment_text;
use itoa::Buffer;
use std::alloc::Global;

fn append_moment<const ROOM: usize>(moment: &Moment, out: &mut RoomyTxt<ROOM>) -> Result<(), Memory>
    ensures adds { AppendsText (moment_text moment.now) result out.old out.new }
{
    match str::from_utf8(&moment_text(*moment)) {
        Ok(text) => out.append(text),
        Err(_) => unreachable!(),
    }
}

fn append_entry<const ROOM: usize>(
    alloc: Global,
    schema: Option<&Schema>,
    entry: &Entry,
    out: &mut RoomyTxt<ROOM>,
) -> Result<(), Memory>
    ensures adds { AppendsText (entry_line (option_copied schema.entry) entry.now)
        result out.old out.new }
{
    out.append(Buffer::new().format(entry.seq))?;
    out.append(" ")?;
    append_moment(&entry.moment, out)?;
    out.append(" ")?;
    append_act_statement(alloc, schema, &entry.act, out)?;
    out.append("\n")
}

/// Appends an entry as a line: its number, its moment, and the statement that made it, as
/// `append_act_statement` writes it. For an entry of a history this is `told_entry`, if `schema` is
/// that of the table that the act names, as the entries before it define it. When out of memory,
/// the text is unchanged.
pub fn entry_line<const ROOM: usize>(
    alloc: Global,
    schema: Option<&Schema>,
    entry: &Entry,
    out: &mut RoomyTxt<ROOM>,
) -> Result<(), Memory>
    ensures ok { OnOk result (out.new ≡ out.old
        ++ entry_line (option_copied schema.entry) entry.now) }
    ensures err { OnErr result (out.new ≡ out.old) }
{
    let length = out.as_str().len();
    let appended = append_entry(alloc, schema, entry, out);
    if appended.is_err() {
        out.truncate(length);
    }
    appended
}
