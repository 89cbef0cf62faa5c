//! One row of each table of a statement, the join order, and patients' choices.
ghost use Rattle.std.specs.Prelude.{◌≡◌, ◌<◌, ◌-◌, ◌↔◌, [], ◌∷◌, ◌++◌, length, take, option_map, slice_get, slice_set, Some, IsTrue, OnOk, OnErr};

use crate::cells::Cells;
use crate::schema::Places;
use hippo_values::{Memory, Moment, Name};
use std::alloc::Global;
use std::marker::Model;

/// The order in which a query's tables are joined, as their indexes in FROM.
#[derive(Drop)]
pub struct Plan {
    pub order: Places,
}

/// The choices of patients on items.
pub trait ChoiceView {
    ghost use Rattle.std.specs.Prelude.{ℕ, ℤ, Bool, List, Option};

    /// The choice of a patient on an item, by the patient's number and the item's bytes.
    ghost choices: { Self → ℤ → List ℕ → Option Bool };

    /// The choice on the item of the patient with this number, `true` for YES; none if the patient
    /// made no choice.
    fn choice(&self, subject: i64, item: &Name) -> Option<bool>
        ensures { result ≡ choices self.now subject item.now };
}

// A borrowed row, and the moment at which it was born.
#[derive(Drop)]
struct LentRow<'a> {
    row: &'a Cells,
    born: Moment,
}

/// One row of each of a statement's tables, in the order of FROM, each with the moment at which it
/// was born.
#[derive(Drop)]
pub struct Combo<'a> {
    rows: Vec<LentRow<'a>>,
}

impl<'a> Model for Combo<'a> {
    ghost use Rattle.std.specs.Prelude.{map};
    ghost use Rattle.hippo_model.specs.Terms.{Combination};

    ghost Value = { Combination };

    ghost view = { λ combo. map (λ member. record { row = member.row.now; born = member.born })
        combo.rows.items };
}

impl<'a> Combo<'a> {
    /// A combination without rows; allocates nothing.
    pub fn new(alloc: Global) -> Combo<'a>
        ensures { result ≡ [] }
    {
        Combo {
            rows: Vec::new(alloc),
        }
    }

    /// Adds the next table's row. Fails only when out of memory.
    pub fn push(&mut self, row: &'a Cells, born: Moment) -> Result<(), Memory>
        ensures ok { OnOk result (self.new
            ≡ self.old ++ record { row = row.now; born = born } ∷ []) }
        ensures err { OnErr result (self.new ≡ self.old) }
    {
        match self.rows.push(LentRow { row, born }) {
            Ok(()) => Ok(()),
            Err(_) => Err(Memory),
        }
    }

    /// Replaces the row of the table at an index, from 0.
    pub fn set(&mut self, place: usize, row: &'a Cells, born: Moment)
        requires { place < length self.old }
        ensures { self.new
            ≡ slice_set self.old place (record { row = row.now; born = born }) }
    {
        self.rows[place] = LentRow { row, born };
    }

    /// Removes the last table's row, if there is one.
    pub fn pop(&mut self)
        ensures { self.new ≡ take (length self.old - 1) self.old }
    {
        let _ = self.rows.pop();
    }

    /// The number of rows.
    pub fn len(&self) -> usize
        ensures { result ≡ length self.now }
    {
        self.rows.len()
    }

    pub fn is_empty(&self) -> bool
        ensures { IsTrue result ↔ (self.now ≡ []) }
    {
        self.rows.is_empty()
    }

    /// The row of the table at an index, from 0.
    pub fn row(&self, place: usize) -> &'a Cells
        requires { place < length self.now }
        ensures { option_map (λ kept. kept.row) (slice_get self.now place) ≡ Some result.now }
    {
        self.rows[place].row
    }

    /// The moment at which the row of the table at an index was born.
    pub fn born(&self, place: usize) -> Moment
        requires { place < length self.now }
        ensures { option_map (λ kept. kept.born) (slice_get self.now place) ≡ Some result }
    {
        self.rows[place].born
    }
}
