//! An access as a line in each format.
ghost use Rattle.std.specs.Prelude.{◌≡◌, ◌++◌, OnOk, codes};
ghost use Rattle.hippo_values_text.specs.Printing.{AppendsText};
ghost use Rattle.hippo_report.specs.Cells.{keyed_text};
ghost use Rattle.hippo_history_formats.specs.Formats.{json_line, csv_line};
ghost use Rattle.hippo_history_formats.specs.Accesses.{seen_text, denied_text, titled_text, asker_text, cells_text, access_text, access_data, access_fields, access_line, access_header};

use crate::access::{Access, DeniedCell, SeenCell};
use crate::access_objects::access_json;
use crate::access_records::access_record;
use crate::grants::append_word;
use crate::records::append_record;
use crate::told::{append_text_line, moment_of};
use hippo_model::Cells;
use hippo_report::{Format, Printed, append_joined};
use hippo_values::{Memory, Name, RoomyTxt, Txt};
use hippo_values_text::append_value;
use itoa::Buffer;
use std::alloc::Global;

const HEADER: &str = "entry,moment,user,purpose,recipient,table,key,shown,tested,denied\n";

fn append_seen<const ROOM: usize>(seen: &SeenCell, out: &mut RoomyTxt<ROOM>) -> Result<(), Memory>
    ensures adds { AppendsText (seen_text seen.now) result out.old out.new }
{
    out.append(seen.column.as_str())?;
    out.append(" ")?;
    append_value(&seen.value, out)?;
    Ok(())
}

impl<const ROOM: usize> Printed<ROOM> for SeenCell {
    ghost use Rattle.hippo_history_formats.specs.Accesses.{seen_text};

    ghost text = { seen_text };

    fn print(&self, out: &mut RoomyTxt<ROOM>) -> Result<(), Memory> {
        append_seen(self, out)
    }
}

fn append_denied<const ROOM: usize>(
    denied: &DeniedCell,
    out: &mut RoomyTxt<ROOM>,
) -> Result<(), Memory>
    ensures adds { AppendsText (denied_text denied.now) result out.old out.new }
{
    out.append(denied.column.as_str())?;
    out.append(" ")?;
    out.append(Buffer::new().format(denied.rule))
}

impl<const ROOM: usize> Printed<ROOM> for DeniedCell {
    ghost use Rattle.hippo_history_formats.specs.Accesses.{denied_text};

    ghost text = { denied_text };

    fn print(&self, out: &mut RoomyTxt<ROOM>) -> Result<(), Memory> {
        append_denied(self, out)
    }
}

// Appends a title and the members of a list, or nothing if the list is empty.
fn append_titled<T: Printed<0>>(title: &str, members: &[T], out: &mut Txt) -> Result<(), Memory>
    ensures { OnOk result (out.new ≡ out.old ++ titled_text T.text title.now members.now) }
{
    if members.is_empty() {
        return Ok(());
    }
    out.append(title)?;
    append_joined(", ", members, out)
}

// Appends the number of the question's entry, its moment, and who asked.
fn append_asker(access: &Access, moment: &str, out: &mut Txt) -> Result<(), Memory>
    ensures { OnOk result (out.new ≡ out.old ++ asker_text access.now moment.now) }
{
    out.append(Buffer::new().format(access.entry))?;
    append_word(moment, out)?;
    append_word(access.user.as_str(), out)?;
    append_word(access.purpose.as_str(), out)?;
    append_word(access.recipient.as_str(), out)
}

// Appends a table's name, and a key in parentheses.
fn append_keyed(table: &Name, key: &Cells, out: &mut Txt) -> Result<(), Memory>
    ensures { OnOk result (out.new ≡ out.old ++ keyed_text table.now key.now) }
{
    out.append(table.as_str())?;
    out.append("(")?;
    append_joined(", ", key.as_slice(), out)?;
    out.append(")")
}

// Appends what the question saw, and what was denied to it.
fn append_cells(access: &Access, out: &mut Txt) -> Result<(), Memory>
    ensures { OnOk result (out.new ≡ out.old ++ cells_text access.now) }
{
    append_titled(" shown ", access.shown.as_slice(), out)?;
    append_titled(" tested ", access.tested.as_slice(), out)?;
    append_titled(" denied ", access.denied.as_slice(), out)
}

fn append_text(access: &Access, moment: &str, out: &mut Txt) -> Result<(), Memory>
    ensures { OnOk result (out.new ≡ out.old ++ access_text access.now moment.now) }
{
    append_asker(access, moment, out)?;
    out.append(" ")?;
    append_keyed(&access.table, &access.key, out)?;
    append_cells(access, out)?;
    out.append("\n")
}

fn append_json(alloc: Global, access: &Access, moment: &str, out: &mut Txt) -> Result<(), Memory>
    ensures { OnOk result (out.new ≡ out.old ++ json_line (access_data access.now moment.now)) }
{
    let text = access_json(alloc, access, moment)?;
    append_text_line(text.as_str(), out)
}

fn append_csv(alloc: Global, access: &Access, moment: &str, out: &mut Txt) -> Result<(), Memory>
    ensures { OnOk result (out.new ≡ out.old ++ csv_line (access_fields access.now moment.now)) }
{
    let fields = access_record(alloc, access, moment)?;
    append_record(alloc, &fields, out)
}

/// Appends an access as a line in a format.
pub fn append_access(
    alloc: Global,
    format: Format,
    access: &Access,
    out: &mut Txt,
) -> Result<(), Memory>
    ensures { OnOk result (out.new ≡ out.old ++ access_line format access.now) }
{
    let moment = moment_of(alloc, &access.moment)?;
    match format {
        Format::Text => append_text(access, moment.as_str(), out),
        Format::Json => append_json(alloc, access, moment.as_str(), out),
        Format::Csv => append_csv(alloc, access, moment.as_str(), out),
    }
}

/// What stands before the lines of all accesses: in CSV the names of the fields.
pub fn access_header(format: Format) -> &'static str
    ensures { result.now ≡ access_header format }
{
    match format {
        Format::Text => "",
        Format::Json => "",
        Format::Csv => HEADER,
    }
}
