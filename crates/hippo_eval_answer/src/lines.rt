//! Answers as printed lines.
ghost use Rattle.std.specs.Prelude.{◌≡◌, ◌++◌, ℕ, List, [], flat_map, length, OnOk, IfOk};
ghost use Rattle.hippo_model.specs.Terms.{ShownRow};
ghost use Rattle.hippo_model.specs.Masking.{masked_cell, masked_items, masked_answer};
ghost use Rattle.hippo_report.specs.Cells.{answer_line, cell_text, comma, separated_text};
ghost use Rattle.hippo_eval.specs.Gathering.{IsGathered};
ghost use Rattle.hippo_eval.specs.LentCells.{lent_cell};
ghost use Rattle.hippo_eval.specs.Walks.{rows_of};
ghost use Rattle.hippo_eval_answer.specs.Lines.{AreLinesOf, IsSaid, line_front};

use crate::inquiry::Inquiry;
use crate::visits::visit_rows;
use hippo_eval::{ANSWER_LIMIT, EvalFault, LentCell, Onward, Visitor, cell};
use hippo_model::{Cell, CellRow, ChoiceView, Combo, Expr, Masked};
use hippo_policy::ChoicesAt;
use hippo_report::{Printed, append_joined};
use hippo_values::{Memory, RoomyTxt, Value};
use itoa::Buffer;
use std::alloc::Global;

/// The number of bytes that are reserved for lines at the start.
pub const LINES_ROOM: usize = 256;

// The number of bytes of the longest front of a line, `255 row `.
const FRONT_ROOM: usize = 8;

/// The lines of an answer's rows for a session, and their number.
#[derive(Drop)]
pub struct Lines {
    pub text: RoomyTxt<LINES_ROOM>,
    pub count: usize,
}

impl Lines {
    // No lines.
    fn new(alloc: Global) -> Result<Lines, Memory>
        ensures { IfOk result (λ lines. (session : ℕ) → AreLinesOf session [] lines) }
    {
        Ok(Lines {
            text: RoomyTxt::with_room(alloc)?,
            count: 0,
        })
    }
}

// Appends a cell whose value is borrowed.
#[inline(always)]
fn append_cell<const ROOM: usize>(
    cell: &LentCell<'_>,
    out: &mut RoomyTxt<ROOM>,
) -> Result<(), Memory>
    ensures { OnOk result (out.new ≡ out.old ++ cell_text (lent_cell cell.now)) }
{
    match cell {
        LentCell::Shown(Some(value)) => value.print(out),
        LentCell::Shown(None) => Value::Null.print(out),
        LentCell::Denied(rule) => Cell::Denied(*rule).print(out),
    }
}

// Appends the cell of an item in a combination of rows.
#[inline(always)]
fn append_item<C: ChoiceView, const ROOM: usize>(
    item: &Expr,
    combo: &Combo<'_>,
    choices: &C,
    out: &mut RoomyTxt<ROOM>,
) -> Result<(), Memory>
    ensures { OnOk result (out.new ≡ out.old
        ++ cell_text (masked_cell (C.choices choices.now) combo.now item.now)) }
{
    append_cell(&cell(item, combo, choices), out)
}

// Appends the cells of items in a combination of rows, each after a comma.
fn append_later<C: ChoiceView, const ROOM: usize>(
    items: &[Expr],
    combo: &Combo<'_>,
    choices: &C,
    out: &mut RoomyTxt<ROOM>,
) -> Result<(), Memory>
    ensures { OnOk result (out.new ≡ out.old ++ flat_map (λ item. comma
        ++ cell_text (masked_cell (C.choices choices.now) combo.now item)) items.now) }
{
    for item in items {
        out.push(',')?;
        out.push(' ')?;
        append_item(item, combo, choices, out)?;
    }
    Ok(())
}

// Appends the cells of items in a combination of rows, separated by commas.
fn append_items<C: ChoiceView, const ROOM: usize>(
    items: &[Expr],
    combo: &Combo<'_>,
    choices: &C,
    out: &mut RoomyTxt<ROOM>,
) -> Result<(), Memory>
    ensures { OnOk result (out.new ≡ out.old ++ separated_text (λ item. cell_text (masked_cell
        (C.choices choices.now) combo.now item)) comma items.now) }
{
    let Some((first, rest)) = items.split_first() else {
        return Ok(());
    };
    append_item(first, combo, choices, out)?;
    append_later(rest, combo, choices, out)
}

// The front of each line of an answer to a session.
fn line_front(alloc: Global, session: u8) -> Result<RoomyTxt<FRONT_ROOM>, Memory>
    ensures { IfOk result (λ front. front ≡ line_front session) }
{
    let mut buffer = Buffer::new();
    let mut front = RoomyTxt::with_room(alloc)?;
    front.append(buffer.format(session))?;
    front.append(" row ")?;
    Ok(front)
}

// Appends the line of a combination's row. `front` is the front of the session's lines.
fn append_row<C: ChoiceView, const ROOM: usize>(
    front: &str,
    query: &Masked,
    combo: &Combo<'_>,
    choices: &C,
    out: &mut RoomyTxt<ROOM>,
) -> Result<(), Memory>
    ensures { (session : ℕ) → front.now ≡ line_front session
        → OnOk result (out.new ≡ out.old ++ answer_line session (masked_items
        (C.choices choices.now) query.now combo.now)) }
{
    out.append(front)?;
    append_items(query.items.as_slice(), combo, choices, out)?;
    out.push('\n')
}

// Prints the rows of the combinations that count, up to one more than the limit.
#[derive(Drop)]
struct RowPrinter<'a, C> {
    query: &'a Masked,
    choices: &'a C,
    session: u8,
    // The front of the session's lines, which is made once.
    front: &'a str,
    ghost is_front: { front.now ≡ line_front session },
}

impl<'a, C: ChoiceView> Visitor for RowPrinter<'a, C> {
    ghost use Rattle.std.specs.Prelude.{map};
    ghost use Rattle.hippo_model.specs.Masking.{masked_items};
    ghost use Rattle.hippo_eval.specs.Gathering.{IsGathered};
    ghost use Rattle.hippo_eval.specs.declared.answers.TheConstants.{ANSWER_LIMIT};
    ghost use Rattle.hippo_eval_answer.specs.Lines.{AreLinesOf};

    type State = Lines;

    ghost Keeps = { λ printer combinations lines. IsGathered (AreLinesOf printer.session)
        (λ rows. rows) ANSWER_LIMIT (map (masked_items (C.choices printer.choices.now)
        printer.query.now) combinations) lines };

    fn visit(
        &self,
        _alloc: Global,
        state: &mut Lines,
        combo: &Combo<'_>,
    ) -> Result<Onward, Memory> {
        if state.count > ANSWER_LIMIT {
            return Ok(Onward::Enough);
        }
        append_row(self.front, self.query, combo, self.choices, &mut state.text)?;
        state.count += 1;
        Ok(Onward::More)
    }
}

// The lines, or a fault if they are more than the limit.
#[tactic(auto, using(crate::proofs::LineLemmas::are_whole, crate::proofs::LineLemmas::go_beyond))]
fn within_limit(lines: Lines) -> Result<Lines, EvalFault>
    ensures { (session : ℕ) (rows : List ShownRow) → IsGathered (AreLinesOf session)
        (λ found. found) ANSWER_LIMIT rows lines → IsSaid ANSWER_LIMIT session rows result }
{
    if lines.count > ANSWER_LIMIT {
        Err(EvalFault::TooManyRows)
    } else {
        Ok(lines)
    }
}

/// The lines of the rows of a query with the policy written into it, over unmasked rows and
/// patients' choices, printed directly from these rows. Returns `TooManyRows` exactly when there
/// are more than 100,000 rows.
pub(crate) fn printed_lines(
    alloc: Global,
    session: u8,
    inquiry: &Inquiry<'_>,
) -> Result<Lines, EvalFault>
    requires { length inquiry.now.sets ≡ length inquiry.now.query.now.tables }
    ensures { IsSaid ANSWER_LIMIT session (masked_answer
        (⟦<ChoicesAt<'static> as ChoiceView>⟧.choices inquiry.now.choices) inquiry.now.query.now
        (rows_of inquiry.now.sets)) result }
{
    let front = line_front(alloc, session)?;
    let printer = RowPrinter {
        query: inquiry.query,
        choices: &inquiry.choices,
        session,
        front: front.as_str(),
    };
    let mut lines = Lines::new(alloc)?;
    match visit_rows(
        alloc,
        &printer,
        &mut lines,
        inquiry.query,
        &inquiry.sets,
        &inquiry.choices,
    ) {
        Ok(()) => within_limit(lines),
        Err(fault) => Err(fault),
    }
}

// Prints the rows of a finished answer for a session.
#[derive(Drop)]
struct LinePrinter<'a> {
    session: u8,
    // The front of the session's lines, which is made once.
    front: &'a str,
    ghost is_front: { front.now ≡ line_front session },
}

impl<'a> LinePrinter<'a> {
    // Appends the line of a row.
    fn append_line<const ROOM: usize>(
        &self,
        row: &CellRow,
        out: &mut RoomyTxt<ROOM>,
    ) -> Result<(), Memory>
        ensures { OnOk result (out.new ≡ out.old ++ answer_line self.now.session row.now) }
    {
        out.append(self.front)?;
        append_joined(", ", row.as_slice(), out)?;
        out.push('\n')
    }

    fn append_lines<const ROOM: usize>(
        &self,
        rows: &[CellRow],
        out: &mut RoomyTxt<ROOM>,
    ) -> Result<(), Memory>
        ensures { OnOk result (out.new
            ≡ out.old ++ flat_map (answer_line self.now.session) rows.now) }
    {
        for row in rows {
            self.append_line(row, out)?;
        }
        Ok(())
    }
}

/// The lines of the rows of a finished answer. Fails when out of memory.
pub(crate) fn lines_of(alloc: Global, session: u8, rows: &[CellRow]) -> Result<Lines, Memory>
    ensures { IfOk result (λ lines. AreLinesOf session rows.now lines) }
{
    let front = line_front(alloc, session)?;
    let printer = LinePrinter {
        session,
        front: front.as_str(),
    };
    let mut lines = Lines::new(alloc)?;
    printer.append_lines(rows, &mut lines.text)?;
    lines.count = rows.len();
    Ok(lines)
}
