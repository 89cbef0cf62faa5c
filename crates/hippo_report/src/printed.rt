//! The printed form of values, cells and shared rows in replies.
ghost use Rattle.std.specs.Prelude.{◌++◌, flat_map, decimal, codes};
ghost use Rattle.hippo_values_text.specs.Printing.{value_text, AppendsText};
ghost use Rattle.hippo_report.specs.Adding.{AddsWhole};
ghost use Rattle.hippo_report.specs.Cells.{separated_text, cell_text, keyed_text, shared_text};

use hippo_model::{Cell, Cells, SharedRow};
use hippo_values::{Memory, Name, RoomyTxt, Value};
use hippo_values_text::append_value;
use itoa::Buffer;

/// A part of a reply.
pub trait Printed<const ROOM: usize> {
    ghost use Rattle.std.specs.Prelude.{ℕ, List};

    /// The printed form.
    ghost text: { Self → List ℕ };

    /// Appends the printed form. When out of memory, part of it may have been appended.
    fn print(&self, out: &mut RoomyTxt<ROOM>) -> Result<(), Memory>
        ensures adds { AppendsText (text self.now) result out.old out.new };
}

impl<const ROOM: usize> Printed<ROOM> for Value {
    ghost text = { value_text };

    #[inline(always)]
    fn print(&self, out: &mut RoomyTxt<ROOM>) -> Result<(), Memory> {
        append_value(self, out)
    }
}

fn append_denied<const ROOM: usize>(rule: u64, out: &mut RoomyTxt<ROOM>) -> Result<(), Memory>
    ensures adds { AppendsText (codes "DENIED(" ++ (decimal rule ++ codes ")"))
        result out.old out.new }
{
    out.append("DENIED(")?;
    out.append(Buffer::new().format(rule))?;
    out.append(")")
}

impl<const ROOM: usize> Printed<ROOM> for Cell {
    ghost text = { cell_text };

    #[inline(always)]
    fn print(&self, out: &mut RoomyTxt<ROOM>) -> Result<(), Memory> {
        match self {
            Cell::Shown(value) => append_value(value, out),
            Cell::Denied(rule) => append_denied(*rule, out),
        }
    }
}

/// Appends a part. When out of memory the text is unchanged.
pub fn append_whole<const ROOM: usize, T: Printed<ROOM>>(
    part: &T,
    out: &mut RoomyTxt<ROOM>,
) -> Result<(), Memory>
    ensures { AddsWhole (T.text part.now) result out.old out.new }
{
    let length = out.as_str().len();
    let printed = part.print(out);
    if printed.is_err() {
        out.truncate(length);
    }
    printed
}

/// Appends the members of a list, each after a separator. When out of memory, part of them may have
/// been appended.
pub fn append_later<const ROOM: usize, T: Printed<ROOM>>(
    separator: &str,
    rest: &[T],
    out: &mut RoomyTxt<ROOM>,
) -> Result<(), Memory>
    ensures adds { AppendsText (flat_map (λ member. separator.now ++ T.text member) rest.now)
        result out.old out.new }
{
    for member in rest {
        out.append(separator)?;
        member.print(out)?;
    }
    Ok(())
}

/// Appends the members of a list, with a separator between them. When out of memory, part of them
/// may have been appended.
pub fn append_joined<const ROOM: usize, T: Printed<ROOM>>(
    separator: &str,
    members: &[T],
    out: &mut RoomyTxt<ROOM>,
) -> Result<(), Memory>
    ensures adds { AppendsText (separated_text T.text separator.now members.now)
        result out.old out.new }
{
    if members.is_empty() {
        return Ok(());
    }
    members[0].print(out)?;
    append_later(separator, &members[1..], out)
}

/// Appends a table's name, and a key in parentheses. When out of memory, part of them may have been
/// appended.
pub fn append_keyed<const ROOM: usize>(
    table: &Name,
    key: &Cells,
    out: &mut RoomyTxt<ROOM>,
) -> Result<(), Memory>
    ensures adds { AppendsText (keyed_text table.now key.now) result out.old out.new }
{
    out.append(table.as_str())?;
    out.append("(")?;
    append_joined(", ", key.as_slice(), out)?;
    out.append(")")
}

impl<const ROOM: usize> Printed<ROOM> for SharedRow {
    ghost text = { shared_text };

    fn print(&self, out: &mut RoomyTxt<ROOM>) -> Result<(), Memory> {
        append_keyed(&self.table, &self.key, out)
    }
}
