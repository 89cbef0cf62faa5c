//! Lookup of rows by key, when equalities fix the key's values.
ghost use Rattle.std.specs.Prelude.{◌≡◌, ◌∷◌, [], ◌-◌, ◌<◌, ◌≤◌, List, Some, IfOk, IfSome, length, take};
ghost use Rattle.hippo_values.specs.declared.truths.CompareOp.TheVariants.{Eq};
ghost use Rattle.hippo_model.specs.declared.query.CondOf.TheVariants.{Compare};
ghost use Rattle.hippo_model.specs.Conditions.{outer_parts};
ghost use Rattle.hippo_model.specs.Masking.{raw_value};
ghost use Rattle.hippo_model.specs.Rows.{key_of};
ghost use Rattle.hippo_model.specs.Terms.{Place};
ghost use Rattle.hippo_join_lookups.specs.Places.{chosen_rows, row_at_place, Fits};
ghost use Rattle.hippo_join_stages.specs.Keys.{IsShownAs, IsFixedBy, IsKeyTold, IsWithin};

use crate::sides::Side;
use hippo_join_lookups::{column_of, outer_parts, shows_column, slot_at, value_at};
use hippo_model::{Cells, ChoiceView, CondOf, Expr, Ref};
use hippo_tables_rows::RowSet;
use hippo_values::{CompareOp, Duplicate, Memory, Sequence, Value};
use std::alloc::Global;

/// A range of consecutive places, from `start` to before `end`.
#[derive(Clone, Copy)]
pub struct Span {
    pub start: usize,
    pub end: usize,
}

impl Span {
    /// The number of places.
    pub fn len(&self) -> usize
        ensures { result ≡ self.now.end - self.now.start }
    {
        self.end.saturating_sub(self.start)
    }
}

fn span_of(found: Option<usize>, count: usize) -> Span
    requires { IfSome found (λ place. place < count) }
    ensures { (place : Place) → found ≡ Some place → (result.start ≤ place) × (place < result.end) }
{
    match found {
        Some(place) => Span {
            start: place,
            end: place + 1,
        },
        None => Span { start: 0, end: 0 },
    }
}

// The place of the row with a key, as a span; empty if there is none.
fn span_with_key(set: &RowSet, key: &Cells) -> Span
    ensures { (place : Place) → place < length set.now.rows
        → key_of set.now.key (row_at_place set.now.rows place).row ≡ key.now
        → (result.start ≤ place)
        × (place < result.end) }
{
    span_of(set.find(key), set.len())
}

impl<'a, C: ChoiceView> Side<'a, C> {
    // The value in a column of a chosen row.
    fn chosen_value(&self, column: Ref, slots: &[Option<usize>]) -> Option<&'a Value>
        ensures { IfSome result (λ value. (places : List Place) → Fits slots.now places
            → raw_value (chosen_rows self.now.sets.now places) column ≡ value.now) }
    {
        let place = slot_at(slots, column.table)?;
        if column.table < self.sets.len() {
            value_at(self.sets.get(column.table), column.column, place)
        } else {
            None
        }
    }

    // The value of a literal, or of a column of a chosen row.
    pub(crate) fn shown_value(&self, expr: &'a Expr, slots: &[Option<usize>]) -> Option<&'a Value>
        ensures { IfSome result (λ value.
            IsShownAs (C.choices self.now.choices.now) self.now.sets.now slots.now expr.now
            value.now) }
    {
        match expr {
            Expr::Literal(value) => Some(value),
            _ => self.chosen_value(column_of(expr)?, slots),
        }
    }

    // The value of a column, if this equality fixes it.
    fn told_by_equal(
        &self,
        column: Ref,
        left: &'a Expr,
        right: &'a Expr,
        slots: &[Option<usize>],
    ) -> Option<&'a Value>
        ensures { IfSome result (λ value. IsFixedBy (C.choices self.now.choices.now)
            self.now.sets.now slots.now
            (Compare Eq left.now right.now ∷ []) column value.now) }
    {
        if shows_column(left, column) {
            self.shown_value(right, slots)
        } else if shows_column(right, column) {
            self.shown_value(left, slots)
        } else {
            None
        }
    }

    fn told_by_part(
        &self,
        column: Ref,
        part: &'a CondOf<Expr>,
        slots: &[Option<usize>],
    ) -> Option<&'a Value>
        ensures { IfSome result (λ value. IsFixedBy (C.choices self.now.choices.now)
            self.now.sets.now slots.now
            (part.now ∷ []) column value.now) }
    {
        match part {
            CondOf::Compare {
                op: CompareOp::Eq,
                left,
                right,
            } => self.told_by_equal(column, left, right, slots),
            _ => None,
        }
    }

    // The value of a column, if the condition fixes it by equality with a literal or with a column
    // of a chosen row.
    pub(crate) fn told_value(&self, column: Ref, slots: &[Option<usize>]) -> Option<&'a Value>
        ensures { IfSome result (λ value. IsFixedBy (C.choices self.now.choices.now)
            self.now.sets.now slots.now
            (outer_parts self.now.query.now.cond) column value.now) }
    {
        for part in outer_parts(&self.query.cond) {
            if let Some(value) = self.told_by_part(column, part, slots) {
                return Some(value);
            }
        }
        None
    }

    // The first values of a table's key, as far as the condition fixes them.
    fn told_front(
        &self,
        alloc: Global,
        table: usize,
        columns: &[usize],
        slots: &[Option<usize>],
    ) -> Result<Cells, Memory>
        ensures { IfOk result (λ front. IsKeyTold (C.choices self.now.choices.now) self.now.sets.now
            slots.now
            (outer_parts self.now.query.now.cond) table (take (length front) columns.now) front) }
    {
        let mut front = Sequence::new(alloc);
        for column in columns {
            let column = Ref {
                table,
                column: *column,
            };
            let Some(value) = self.told_value(column, slots) else {
                return Ok(front);
            };
            front.push(value.copy(alloc)?)?;
        }
        Ok(front)
    }

    // The range of a table's rows that can follow the chosen rows. When the condition fixes the
    // whole key, it is the row with that key. When it fixes the first values of the key, it is the
    // rows whose key begins with them, within the bounds on the next value. Otherwise it is all
    // rows.
    pub(crate) fn span(
        &self,
        alloc: Global,
        table: usize,
        slots: &[Option<usize>],
    ) -> Result<Span, Memory>
        requires { table < length self.now.sets.now }
        ensures { IfOk result (λ span. IsWithin (C.choices self.now.choices.now) self.now.query.now
            self.now.sets.now
            slots.now table span) }
    {
        let set = self.sets.get(table);
        let columns = set.key().as_slice();
        let front = self.told_front(alloc, table, columns, slots)?;
        match columns.get(front.len()) {
            None => Ok(span_with_key(set, &front)),
            Some(column) => self.span_from(alloc, table, &front, *column, slots),
        }
    }
}
