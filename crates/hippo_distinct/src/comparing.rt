//! Compares a row with the one that a combination of rows makes.
ghost use Rattle.std.specs.Prelude.{◌≡◌, map, IsTrue};
ghost use Rattle.hippo_model.specs.Masking.{masked_cell};
ghost use Rattle.hippo_eval.specs.LentCells.{lent_cell};

use hippo_eval::{LentCell, cell};
use hippo_model::{Cell, CellRow, ChoiceView, Combo, Expr};
use hippo_values::Value;

// Whether a cell equals a borrowed one.
#[inline(always)]
fn is_cell(kept: &Cell, lent: &LentCell<'_>) -> bool
    ensures { IsTrue result → kept.now ≡ lent_cell lent.now }
{
    match (kept, lent) {
        (Cell::Shown(value), LentCell::Shown(other)) => value == other.unwrap_or(&Value::Null),
        (Cell::Denied(rule), LentCell::Denied(other)) => rule == other,
        _ => false,
    }
}

// Whether a cell is the value of an item in a combination of rows.
#[inline(always)]
fn is_item<C: ChoiceView>(kept: &Cell, item: &Expr, combo: &Combo<'_>, choices: &C) -> bool
    ensures { IsTrue result → kept.now ≡ masked_cell (C.choices choices.now) combo.now item.now }
{
    is_cell(kept, &cell(item, combo, choices))
}

/// Whether the cells of a row are the values of the items in a combination of rows.
pub(crate) fn is_row<C: ChoiceView>(
    row: &CellRow,
    items: &[Expr],
    combo: &Combo<'_>,
    choices: &C,
) -> bool
    ensures { IsTrue result
        → row.now ≡ map (masked_cell (C.choices choices.now) combo.now) items.now }
{
    let cells = row.as_slice();
    if cells.len() != items.len() {
        return false;
    }
    for (place, item) in items.iter().enumerate() {
        if !is_item(&cells[place], item, combo, choices) {
            return false;
        }
    }
    true
}
