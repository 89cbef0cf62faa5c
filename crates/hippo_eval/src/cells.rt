//! The value of an expression in a combination of rows.
ghost use Rattle.std.specs.Prelude.{◌≡◌, true, option_map, option_copied, slice_get, IfOk, IfSome};
ghost use Rattle.std.specs.Option.{option_map_or};
ghost use Rattle.hippo_model.specs.Verdicts.{number_in};
ghost use Rattle.hippo_model.specs.Forms.{value_in};
ghost use Rattle.hippo_model.specs.Masking.{Choices, raw_value, is_younger, agrees_by, shown_if, masked_cell, is_shown_cell};
ghost use Rattle.hippo_model.specs.MaskedTruth.{masked_value};
ghost use Rattle.hippo_model.specs.declared.cells.Cell.TheVariants.{Shown};
ghost use Rattle.hippo_eval.specs.LentCells.{or_null, lent_cell};

use hippo_model::{Cell, Cells, ChoiceView, Combo, Expr, Ref};
use hippo_values::{Duplicate, Memory, Name, Value};
use std::alloc::Global;

/// A cell whose value is borrowed.
#[derive(Clone, Copy)]
pub enum LentCell<'a> {
    /// A value; None means null.
    Shown(Option<&'a Value>),
    /// Denied by the rule with this entry number.
    Denied(u64),
}

// The row of the table at a place, if there is one.
#[inline(always)]
fn row_at<'a>(combo: &'a Combo<'_>, place: usize) -> Option<&'a Cells>
    ensures { option_copied result ≡ option_map (λ kept. kept.row) (slice_get combo.now place) }
{
    if place < combo.len() {
        Some(combo.row(place))
    } else {
        None
    }
}

/// The value in a column of a combination of rows; None past its end.
#[inline(always)]
pub fn raw_value<'a>(combo: &'a Combo<'_>, column: &Ref) -> Option<&'a Value>
    ensures { or_null (option_copied result) ≡ raw_value combo.now column.now }
{
    match row_at(combo, column.table) {
        None => None,
        Some(row) => row.as_slice().get(column.column),
    }
}

// The value of an expression, when no rule masks it and there is a value.
#[inline(always)]
pub(crate) fn plain_value<'a>(expr: &'a Expr, combo: &'a Combo<'_>) -> Option<&'a Value>
    ensures { (choices : Choices) → IfSome result (λ value.
        masked_value choices combo.now expr.now ≡ value.now) }
{
    match expr {
        Expr::Keep(column) => raw_value(combo, column),
        Expr::Literal(value) => Some(value),
        _ => None,
    }
}

// Whether the row of a column was born after the given second.
fn is_younger(combo: &Combo<'_>, column: &Ref, after: &i64) -> bool
    ensures { result ≡ is_younger combo.now column.now after.now }
{
    column.table < combo.len() && combo.born(column.table).seconds() > *after
}

fn is_in_time(combo: &Combo<'_>, column: &Ref, after: &Option<i64>) -> bool
    ensures { result ≡ option_map_or (is_younger combo.now column.now) after.now true }
{
    match after {
        None => true,
        Some(after) => is_younger(combo, column, after),
    }
}

// Whether the patient with this number agrees to an item. False when there is no number.
fn agrees<C: ChoiceView>(choices: &C, subject: Option<&Value>, item: &Name, opt_in: bool) -> bool
    ensures { let number = number_in (or_null (option_copied subject.entry)) in
        result ≡ agrees_by (C.choices choices.now) number item.now opt_in }
{
    match subject {
        Some(Value::Int(number)) => choices.choice(*number, item).unwrap_or(!opt_in),
        _ => false,
    }
}

fn shown_if<'a>(test: bool, value: Option<&'a Value>, rule: u64) -> LentCell<'a>
    ensures { lent_cell result ≡ shown_if test (or_null (option_copied value.entry)) rule }
{
    if test {
        LentCell::Shown(value)
    } else {
        LentCell::Denied(rule)
    }
}

// The cell of any expression. Not inlined, so that `cell` returns an unmasked value in few
// instructions.
#[inline(never)]
pub(crate) fn cell_by_rule<'a, C: ChoiceView>(
    expr: &'a Expr,
    combo: &'a Combo<'_>,
    choices: &C,
) -> LentCell<'a>
    ensures { lent_cell result ≡ masked_cell (C.choices choices.now) combo.now expr.now }
{
    match expr {
        Expr::Keep(column) => LentCell::Shown(raw_value(combo, column)),
        Expr::Null(rule) => LentCell::Denied(*rule),
        Expr::Aged {
            column,
            rule,
            after,
        } => {
            let shows = is_younger(combo, column, after);
            shown_if(shows, raw_value(combo, column), *rule)
        }
        Expr::Case {
            column,
            subject,
            item,
            rule,
            opt_in,
            after,
        } => {
            let shows = is_in_time(combo, column, after)
                && agrees(choices, raw_value(combo, subject), item, *opt_in);
            shown_if(shows, raw_value(combo, column), *rule)
        }
        Expr::Literal(value) => LentCell::Shown(Some(value)),
    }
}

/// The cell of an expression in a combination of rows, with a borrowed value.
#[inline(always)]
pub fn cell<'a, C: ChoiceView>(expr: &'a Expr, combo: &'a Combo<'_>, choices: &C) -> LentCell<'a>
    ensures { lent_cell result ≡ masked_cell (C.choices choices.now) combo.now expr.now }
{
    match expr {
        Expr::Keep(column) => LentCell::Shown(raw_value(combo, column)),
        Expr::Literal(value) => LentCell::Shown(Some(value)),
        _ => cell_by_rule(expr, combo, choices),
    }
}

impl<'a> LentCell<'a> {
    /// The value that a comparison reads. None, for null, when the cell is denied or there is no
    /// value.
    #[inline(always)]
    pub fn value(&self) -> Option<&'a Value>
        ensures { or_null (option_copied result) ≡ value_in (lent_cell self.now) }
    {
        match self {
            LentCell::Shown(value) => *value,
            LentCell::Denied(_) => None,
        }
    }

    #[inline(always)]
    pub fn is_shown(&self) -> bool
        ensures { result ≡ is_shown_cell (lent_cell self.now) }
    {
        match self {
            LentCell::Shown(_) => true,
            LentCell::Denied(_) => false,
        }
    }

    /// An owned copy of the cell.
    pub fn copy(&self, alloc: Global) -> Result<Cell, Memory>
        ensures { IfOk result (λ made. made ≡ lent_cell self.now) }
    {
        match self {
            LentCell::Shown(value) => copied_value(alloc, *value),
            LentCell::Denied(rule) => Ok(Cell::Denied(*rule)),
        }
    }
}

fn copied_value(alloc: Global, value: Option<&Value>) -> Result<Cell, Memory>
    ensures { IfOk result (λ made. made ≡ Shown (or_null (option_copied value.entry))) }
{
    match value {
        None => Ok(Cell::Shown(Value::Null)),
        Some(value) => Ok(Cell::Shown(value.copy(alloc)?)),
    }
}
