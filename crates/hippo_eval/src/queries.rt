//! The guards, the condition and the items of a query, evaluated in one combination of rows.
ghost use Rattle.std.specs.Prelude.{◌≡◌, ◌&&◌, map, IfOk, OnOk};
ghost use Rattle.hippo_model.specs.Conditions.{is_true};
ghost use Rattle.hippo_model.specs.Masking.{masked_cell, is_shown_cell, is_guarded, masked_passes, masked_items};

use crate::cells::cell;
use crate::conditions::part_truth;
use hippo_model::{CellRow, ChoiceView, Combo, Expr, Masked};
use hippo_values::{Memory, Sequence, Truth};
use std::alloc::Global;

/// Whether the cell of an expression is shown in a combination of rows. Does not read the rows when
/// the expression alone decides.
#[inline(always)]
pub fn is_shown<C: ChoiceView>(expr: &Expr, combo: &Combo<'_>, choices: &C) -> bool
    ensures { result ≡ is_shown_cell (masked_cell (C.choices choices.now) combo.now expr.now) }
{
    match expr {
        Expr::Keep(_) => true,
        Expr::Literal(_) => true,
        Expr::Null(_) => false,
        _ => cell(expr, combo, choices).is_shown(),
    }
}

#[inline(always)]
fn is_guarded<C: ChoiceView>(query: &Masked, combo: &Combo<'_>, choices: &C) -> bool
    ensures { result ≡ is_guarded (C.choices choices.now) query.now combo.now }
{
    for guard in query.guards.as_slice() {
        if !is_shown(&guard.expr, combo, choices) {
            return false;
        }
    }
    true
}

#[inline(always)]
fn is_true(truth: Truth) -> bool
    ensures { result ≡ is_true truth }
{
    matches!(truth, Truth::True)
}

/// Whether a combination of rows qualifies: each guard is shown, and the condition is true.
/// Allocates no memory.
pub fn passes<C: ChoiceView>(query: &Masked, combo: &Combo<'_>, choices: &C) -> bool
    ensures { result ≡ (is_guarded (C.choices choices.now) query.now combo.now
        && masked_passes (C.choices choices.now) query.now combo.now) }
{
    is_guarded(query, combo, choices) && is_true(part_truth(&query.cond, combo, choices))
}

/// Replaces the cells of a row by the cells of some items in a combination of rows. Reuses the
/// row's memory: when it has room, only long texts allocate.
pub fn refill<C: ChoiceView>(
    alloc: Global,
    items: &[Expr],
    combo: &Combo<'_>,
    choices: &C,
    row: &mut CellRow,
) -> Result<(), Memory>
    ensures { OnOk result (row.new
        ≡ map (masked_cell (C.choices choices.now) combo.now) items.now) }
{
    row.clear();
    for item in items {
        row.push(cell(item, combo, choices).copy(alloc)?)?;
    }
    Ok(())
}

/// The row of the query's answer that a combination of rows makes.
pub fn project<C: ChoiceView>(
    alloc: Global,
    query: &Masked,
    combo: &Combo<'_>,
    choices: &C,
) -> Result<CellRow, Memory>
    ensures { IfOk result (λ row. row ≡ masked_items (C.choices choices.now) query.now combo.now) }
{
    let mut row = Sequence::with_capacity(alloc, query.items.len())?;
    refill(alloc, query.items.as_slice(), combo, choices, &mut row)?;
    Ok(row)
}
