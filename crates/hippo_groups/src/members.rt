//! The members of groups, whose cells are stored elsewhere.
ghost use Rattle.hippo_eval.specs.LentCells.{or_null};

use hippo_eval::cell;
use hippo_model::{ChoiceView, Combo, Expr};
use hippo_values::Value;

/// A row whose values are borrowed.
pub trait LentRow {
    ghost use Rattle.std.specs.Prelude.{◌≡◌, option_copied, slice_index_or};
    ghost use Rattle.hippo_model.specs.declared.cells.Cell.TheVariants.{Denied};
    ghost use Rattle.hippo_model.specs.Terms.{ShownRow};
    ghost use Rattle.hippo_model.specs.Forms.{value_in};
    ghost use Rattle.hippo_eval.specs.LentCells.{or_null};

    ghost cells: { Self → ShownRow };

    /// Returns the value at a place. `None` stands for null: the cell is denied, or the row has no
    /// such place.
    fn value(&self, place: usize) -> Option<&Value>
        ensures { or_null (option_copied result)
            ≡ value_in (slice_index_or (cells self.now) place (Denied 0)) };
}

/// The row that a combination of rows makes.
#[derive(Drop)]
pub struct Member<'a, C> {
    pub items: &'a [Expr],
    pub combo: &'a Combo<'a>,
    pub choices: &'a C,
}

impl<'a, C: ChoiceView> LentRow for Member<'a, C> {
    ghost use Rattle.std.specs.Prelude.{map};
    ghost use Rattle.hippo_model.specs.Masking.{masked_cell};

    ghost cells = { λ member. map (masked_cell (C.choices member.choices.now) member.combo.now)
        member.items.now };

    fn value(&self, place: usize) -> Option<&Value> {
        match self.items.get(place) {
            None => None,
            Some(item) => cell(item, self.combo, self.choices).value(),
        }
    }
}
