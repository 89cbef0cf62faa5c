//! One side of a join: a query over tables, and which tests already decide a combination when only
//! some of its rows are chosen.
ghost use Rattle.std.specs.Prelude.{◌≡◌, ◌<◌, true, List, IfOk, length, not, ◌||◌, unwrap_or, slice_get, slice_set};
ghost use Rattle.std.specs.Option.{option_map_or};
ghost use Rattle.hippo_model.specs.Terms.{Place};
ghost use Rattle.hippo_model.specs.Conditions.{is_true};
ghost use Rattle.hippo_model.specs.Masking.{masked_cell, is_shown_cell};
ghost use Rattle.hippo_join_lookups.specs.Places.{blank as blank_row, rows_at, Fits, stands};
ghost use Rattle.hippo_join_lookups.specs.Known.{knows, knows_expr};
ghost use Rattle.hippo_join_lookups.specs.Ties.{holds};

use hippo_eval::{is_shown, test};
use hippo_join_lookups::{knows, knows_expr, outer_parts, slot_at};
use hippo_model::{BornRow, ChoiceView, Combo, CondOf, Expr, Guard, Masked};
use hippo_tables_rows::{RowSet, Sets};
use hippo_values::{Memory, Truth};
use std::alloc::Global;

/// A query over tables, with the patients' choices. The rows of the query's tables are given in the
/// order of FROM.
#[derive(Drop)]
pub struct Side<'a, C> {
    pub query: &'a Masked,
    pub sets: &'a Sets<'a>,
    pub choices: &'a C,
    /// Stands in for a row that is not chosen yet.
    pub blank: &'a BornRow,
    ghost is_blank: { blank.now ≡ blank_row },
}

/// The chosen row of a table, or the blank row.
pub fn chosen_row<'a>(set: &'a RowSet, slot: Option<usize>, blank: &'a BornRow) -> &'a BornRow
    ensures { result.now ≡ option_map_or (λ place. unwrap_or (slice_get set.now.rows place)
        blank.now) slot blank.now }
{
    match slot {
        Some(place) if place < set.len() => set.born_row(place),
        _ => blank,
    }
}

fn is_true(truth: Truth) -> bool
    ensures { result ≡ is_true truth }
{
    matches!(truth, Truth::True)
}

impl<'a, C: ChoiceView> Side<'a, C> {
    /// The chosen rows, with the blank row for each other table.
    pub fn rows(&self, alloc: Global, slots: &[Option<usize>]) -> Result<Combo<'a>, Memory>
        ensures { IfOk result (λ rows. rows ≡ rows_at self.now.sets.now slots.now) }
    {
        let mut rows = Combo::new(alloc);
        for table in 0..self.sets.len() {
            let slot = slot_at(slots, table);
            let row = chosen_row(self.sets.get(table), slot, self.blank);
            rows.push(&row.row, row.born)?;
        }
        Ok(rows)
    }

    // Replaces a table's row in `rows` by the one now chosen, or by the blank row.
    pub(crate) fn renew(&self, rows: &mut Combo<'a>, slots: &[Option<usize>], table: usize)
        requires long { length slots.now ≡ length self.now.sets.now }
        requires table { table < length slots.now }
        requires rows { slice_set rows.old table blank_row
            ≡ slice_set (rows_at self.now.sets.now slots.now) table blank_row }
        ensures { rows.new ≡ rows_at self.now.sets.now slots.now }
    {
        let slot = slot_at(slots, table);
        let row = chosen_row(self.sets.get(table), slot, self.blank);
        rows.set(table, &row.row, row.born);
    }

    // Whether a part of the condition holds; true if its columns are not all known.
    fn part_holds(&self, part: &CondOf<Expr>, slots: &[Option<usize>], rows: &Combo<'_>) -> bool
        ensures { result ≡ (not (knows slots.now part.now)
            || holds (C.choices self.now.choices.now) rows.now part.now) }
    {
        !knows(part, slots) || is_true(test(part, rows, self.choices))
    }

    fn guard_holds(&self, guard: &Guard, slots: &[Option<usize>], rows: &Combo<'_>) -> bool
        ensures { result ≡ (not (knows_expr slots.now guard.now.expr)
            || is_shown_cell (masked_cell (C.choices self.now.choices.now) rows.now
            guard.now.expr)) }
    {
        !knows_expr(&guard.expr, slots) || is_shown(&guard.expr, rows, self.choices)
    }

    // Whether the guards hold, as far as their columns are known. True if some qualifying
    // combination has these rows.
    fn guards_hold(&self, slots: &[Option<usize>], rows: &Combo<'_>) -> bool
        requires { rows.now ≡ rows_at self.now.sets.now slots.now }
        ensures { (places : List Place) → Fits slots.now places
            → stands (C.choices self.now.choices.now) self.now.query.now self.now.sets.now places
            ≡ true
            → result ≡ true }
    {
        for guard in self.query.guards.as_slice() {
            if !self.guard_holds(guard, slots, rows) {
                return false;
            }
        }
        true
    }

    // Whether one part of the condition holds; true if its columns are not all known.
    fn test_holds(&self, test: usize, slots: &[Option<usize>], rows: &Combo<'_>) -> bool
        requires { rows.now ≡ rows_at self.now.sets.now slots.now }
        ensures { (places : List Place) → Fits slots.now places
            → stands (C.choices self.now.choices.now) self.now.query.now self.now.sets.now places
            ≡ true
            → result ≡ true }
    {
        match outer_parts(&self.query.cond).get(test) {
            Some(part) => self.part_holds(part, slots, rows),
            None => true,
        }
    }

    /// Whether the parts of the condition at these places can hold with the chosen rows.
    pub fn tests_hold(&self, tests: &[usize], slots: &[Option<usize>], rows: &Combo<'_>) -> bool
        requires { rows.now ≡ rows_at self.now.sets.now slots.now }
        ensures { (places : List Place) → Fits slots.now places
            → stands (C.choices self.now.choices.now) self.now.query.now self.now.sets.now places
            ≡ true
            → result ≡ true }
    {
        for test in tests {
            if !self.test_holds(*test, slots, rows) {
                return false;
            }
        }
        true
    }

    /// Whether a combination with the chosen rows can qualify, judged by some parts of the
    /// condition.
    pub fn may_count(
        &self,
        alloc: Global,
        tests: &[usize],
        slots: &[Option<usize>],
    ) -> Result<bool, Memory>
        ensures { IfOk result (λ may. (places : List Place) → Fits slots.now places
            → stands (C.choices self.now.choices.now) self.now.query.now self.now.sets.now places
            ≡ true → may ≡ true) }
    {
        if tests.is_empty() {
            return Ok(true);
        }
        let rows = self.rows(alloc, slots)?;
        Ok(self.tests_hold(tests, slots, &rows))
    }

    // Whether a combination with the chosen rows can qualify, judged by the guards and some parts
    // of the condition.
    pub(crate) fn may_count_by(
        &self,
        rows: &Combo<'_>,
        tests: &[usize],
        slots: &[Option<usize>],
    ) -> bool
        requires { rows.now ≡ rows_at self.now.sets.now slots.now }
        ensures { (places : List Place) → Fits slots.now places
            → stands (C.choices self.now.choices.now) self.now.query.now self.now.sets.now places
            ≡ true
            → result ≡ true }
    {
        self.guards_hold(slots, rows) && self.tests_hold(tests, slots, rows)
    }
}
