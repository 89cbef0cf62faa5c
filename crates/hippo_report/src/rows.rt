//! Rows of answers, and denied cells.
ghost use Rattle.std.specs.Prelude.{flat_map};
ghost use Rattle.hippo_values_text.specs.Printing.{AppendsText};
ghost use Rattle.hippo_report.specs.Adding.{AddsWhole};
ghost use Rattle.hippo_report.specs.Cells.{answer_line, denied_line};

use crate::pieces::append_pieces;
use crate::printed::{Printed, append_joined, append_keyed, append_whole};
use hippo_model::{CellRow, Cells};
use hippo_values::{Memory, Name, RoomyTxt};
use itoa::Buffer;

// One row of an answer for a session.
#[derive(Clone, Copy)]
struct AnswerRow<'a> {
    session: u8,
    row: &'a CellRow,
}

impl<'a, const ROOM: usize> Printed<ROOM> for AnswerRow<'a> {
    ghost use Rattle.hippo_report.specs.Cells.{answer_line};

    ghost text = { λ line. answer_line line.session line.row.now };

    fn print(&self, out: &mut RoomyTxt<ROOM>) -> Result<(), Memory> {
        out.append(Buffer::new().format(self.session))?;
        out.append(" row ")?;
        append_joined(", ", self.row.as_slice(), out)?;
        out.append("\n")
    }
}

/// Appends one row of an answer for a session: `N row CELLS`. A value is printed as in SQL, and a
/// denied cell as `DENIED(e)` with the number of its rule. When out of memory the text is
/// unchanged.
pub fn answer_line<const ROOM: usize>(
    session: u8,
    row: &CellRow,
    out: &mut RoomyTxt<ROOM>,
) -> Result<(), Memory>
    ensures { AddsWhole (answer_line session row.now) result out.old out.new }
{
    append_whole(&AnswerRow { session, row }, out)
}

fn append_answers<const ROOM: usize>(
    session: u8,
    rows: &[CellRow],
    out: &mut RoomyTxt<ROOM>,
) -> Result<(), Memory>
    ensures adds { AppendsText (flat_map (answer_line session) rows.now) result out.old out.new }
{
    for row in rows {
        answer_line(session, row, out)?;
    }
    Ok(())
}

// Rows of an answer for a session.
#[derive(Clone, Copy)]
struct AnswerRows<'a> {
    session: u8,
    rows: &'a [CellRow],
}

impl<'a, const ROOM: usize> Printed<ROOM> for AnswerRows<'a> {
    ghost use Rattle.std.specs.Prelude.{flat_map};
    ghost use Rattle.hippo_report.specs.Cells.{answer_line};

    ghost text = { λ lines. flat_map (answer_line lines.session) lines.rows.now };

    fn print(&self, out: &mut RoomyTxt<ROOM>) -> Result<(), Memory> {
        append_answers(self.session, self.rows, out)
    }
}

/// Appends rows of an answer for a session, each as `answer_line` does. When out of memory the text
/// is unchanged.
pub fn answer_lines<const ROOM: usize>(
    session: u8,
    rows: &[CellRow],
    out: &mut RoomyTxt<ROOM>,
) -> Result<(), Memory>
    ensures { AddsWhole (flat_map (answer_line session) rows.now) result out.old out.new }
{
    append_whole(&AnswerRows { session, rows }, out)
}

// A denied cell, and the rule that denies it.
#[derive(Clone, Copy)]
struct DeniedCell<'a> {
    table: &'a Name,
    key: &'a Cells,
    column: &'a Name,
    rule: u64,
}

impl<'a, const ROOM: usize> Printed<ROOM> for DeniedCell<'a> {
    ghost use Rattle.hippo_report.specs.Cells.{denied_line};

    ghost text = { λ cell. denied_line cell.table.now cell.key.now cell.column.now cell.rule };

    fn print(&self, out: &mut RoomyTxt<ROOM>) -> Result<(), Memory> {
        out.append("0 denied ")?;
        append_keyed(self.table, self.key, out)?;
        append_pieces(
            &[
                " ",
                self.column.as_str(),
                " ",
                Buffer::new().format(self.rule),
                "\n",
            ],
            out,
        )
    }
}

/// Appends one denied cell: `0 denied TABLE(KEY) COLUMN RULE`. When out of memory the text is
/// unchanged.
pub fn denied_line<const ROOM: usize>(
    table: &Name,
    key: &Cells,
    column: &Name,
    rule: u64,
    out: &mut RoomyTxt<ROOM>,
) -> Result<(), Memory>
    ensures { AddsWhole (denied_line table.now key.now column.now rule) result out.old out.new }
{
    let cell = DeniedCell {
        table,
        key,
        column,
        rule,
    };
    append_whole(&cell, out)
}
