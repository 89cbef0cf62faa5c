//! Lookup of rows by a column that their table is ordered by, by bounds or by a list of values. A
//! table is ordered by the first column of its key and by each column with a secondary order.
ghost use Rattle.std.specs.Prelude.{◌<◌, IfOk, IfSome, length, None};
ghost use Rattle.hippo_join_stages.specs.Stages.{Reaches, ReachesFrom};
ghost use Rattle.hippo_join_stages.specs.declared.following.Following.TheVariants.{Searched};
ghost use Rattle.hippo_join_stages.specs.Walking.{candidate_places};

use crate::following::Following;
use crate::keys::Span;
use crate::reaching::open_slots;
use crate::sides::Side;
use hippo_join_lookups::{column_of, count_listed, find_list, outer_parts, places_listed};
use hippo_model::{ChoiceView, CondOf, Expr, Ref};
use hippo_values::{CompareOp, Memory, Value};
use std::alloc::Global;

// At or below this many rows, scan.
const FEW: usize = 16;

// A row found through an order costs as much as scanning this many rows.
pub(crate) const WALKED: usize = 4;

// An access path to a table's rows: the bounds of a column, or the list of values that restricts
// it.
#[derive(Clone, Copy)]
pub(crate) enum Access {
    Bounds(usize),
    List(usize),
}

// Whether there are too many rows to scan, when a row found through an order costs as much as
// scanning `walked` rows.
fn is_long(rows: usize, walked: usize) -> bool
    requires { 0 < walked }
{
    rows > FEW && rows / walked > FEW / 2
}

// The column of a table that an expression shows.
fn column_in(expr: &Expr, table: usize) -> Option<usize> {
    match column_of(expr) {
        Some(column) if column.table == table => Some(column.column),
        _ => None,
    }
}

// A column of a table that an equality compares.
pub(crate) fn compared_column(part: &CondOf<Expr>, table: usize) -> Option<usize> {
    match part {
        CondOf::Compare {
            op: CompareOp::Eq,
            left,
            right,
        } => column_in(left, table).or(column_in(right, table)),
        _ => None,
    }
}

// The access path to a table's rows that a part of a condition gives.
pub(crate) fn access_by(part: &CondOf<Expr>, table: usize) -> Option<Access> {
    match part {
        CondOf::Compare { left, right, .. } => {
            let column = column_in(left, table).or(column_in(right, table));
            Some(Access::Bounds(column?))
        }
        CondOf::Between { value, .. } => Some(Access::Bounds(column_in(value, table)?)),
        CondOf::Among { value, .. } => Some(Access::List(column_in(value, table)?)),
        _ => None,
    }
}

impl<'a, C: ChoiceView> Side<'a, C> {
    // Whether the chosen rows fix the value of a column. Unless its table is looked up `once`,
    // literals do not count, since the rows that they find are the same each time.
    pub(crate) fn is_joined(&self, column: Ref, slots: &[Option<usize>], once: bool) -> bool {
        self.told_value(column, slots).is_some() && (once || self.told_value(column, &[]).is_none())
    }

    // Whether the chosen rows fix the value of a column that its table is ordered by.
    fn finds_by(&self, column: Ref, slots: &[Option<usize>], once: bool) -> bool
        requires { column.table < length self.now.sets.now }
    {
        self.sets.get(column.table).is_ordered_by(column.column)
            && self.is_joined(column, slots, once)
    }

    // Whether the chosen rows fix the value of some column that a table is ordered by.
    pub(crate) fn is_found(&self, table: usize, slots: &[Option<usize>], once: bool) -> bool
        requires { table < length self.now.sets.now }
    {
        for part in outer_parts(&self.query.cond) {
            if let Some(column) = compared_column(part, table) {
                if self.finds_by(Ref { table, column }, slots, once) {
                    return true;
                }
            }
        }
        false
    }

    // The number of a table's rows within the bounds of a column, if it has bounds and the table is
    // ordered by it.
    fn count_bounded(&self, table: usize, column: usize, slots: &[Option<usize>]) -> Option<usize>
        requires { table < length self.now.sets.now }
    {
        let null = Value::Null;
        let own = Ref { table, column };
        let low = self.lowest(own, slots, &null)?;
        let high = self.told_end(own, true, slots);
        self.sets.get(table).count_within(column, Some(low), high)
    }

    // The number of a table's rows that match the list of a column, if it has a list and the table
    // is ordered by it.
    fn count_of_list(&self, table: usize, column: usize) -> Option<usize>
        requires { table < length self.now.sets.now }
    {
        let set = self.sets.get(table);
        if !set.is_ordered_by(column) {
            return None;
        }
        let list = find_list(outer_parts(&self.query.cond), Ref { table, column })?;
        Some(count_listed(set, column, list))
    }

    // The number of a table's rows that an access path finds, if it can be used.
    pub(crate) fn count_by(
        &self,
        table: usize,
        access: Access,
        slots: &[Option<usize>],
    ) -> Option<usize>
        requires { table < length self.now.sets.now }
    {
        match access {
            Access::Bounds(column) => self.count_bounded(table, column, slots),
            Access::List(column) => self.count_of_list(table, column),
        }
    }

    // The access path that finds the fewest rows of a table, if it finds fewer than `most`.
    fn best_access(&self, table: usize, slots: &[Option<usize>], most: usize) -> Option<Access>
        requires { table < length self.now.sets.now }
    {
        let mut best = None;
        let mut least = most;
        for part in outer_parts(&self.query.cond) {
            if let Some(access) = access_by(part, table) {
                let count = self.count_by(table, access, slots).unwrap_or(least);
                if count < least {
                    best = Some(access);
                    least = count;
                }
            }
        }
        best
    }

    // The places that an access path finds: within the bounds of a column, or with a value of its
    // list. None if the path cannot be used.
    fn places_by(
        &self,
        alloc: Global,
        table: usize,
        access: Access,
        slots: &[Option<usize>],
    ) -> Result<Option<Vec<usize>>, Memory>
        requires { table < length self.now.sets.now }
        ensures { IfOk result (λ found. IfSome found (λ places. ReachesFrom
            (C.choices self.now.choices.now) self.now.query.now self.now.sets.now slots.now table
            places.items)) }
    {
        let set = self.sets.get(table);
        match access {
            Access::Bounds(column) => {
                let null = Value::Null;
                let own = Ref { table, column };
                let Some(low) = self.lowest(own, slots, &null) else {
                    return Ok(None);
                };
                let high = self.told_end(own, true, slots);
                set.places_within(alloc, column, Some(low), high)
            }
            Access::List(column) => {
                let own = Ref { table, column };
                let Some(list) = find_list(outer_parts(&self.query.cond), own) else {
                    return Ok(None);
                };
                places_listed(alloc, set, column, list)
            }
        }
    }

    // The places that the best access path finds, if it finds fewer than `most`.
    fn found_places(
        &self,
        alloc: Global,
        table: usize,
        slots: &[Option<usize>],
        most: usize,
    ) -> Result<Option<Vec<usize>>, Memory>
        requires { table < length self.now.sets.now }
        ensures { IfOk result (λ found. IfSome found (λ places. ReachesFrom
            (C.choices self.now.choices.now) self.now.query.now self.now.sets.now slots.now table
            places.items)) }
    {
        match self.best_access(table, slots, most) {
            None => Ok(None),
            Some(access) => self.places_by(alloc, table, access, slots),
        }
    }

    // The places that the best access path finds, if it finds fewer than `most`; otherwise those of
    // the span.
    fn fewer_places<'s>(
        &self,
        alloc: Global,
        table: usize,
        slots: &[Option<usize>],
        span: Span,
        most: usize,
    ) -> Result<Following<'s>, Memory>
        requires table { table < length self.now.sets.now }
        requires span { ReachesFrom (C.choices self.now.choices.now) self.now.query.now
            self.now.sets.now
            slots.now table (candidate_places (Searched span)) }
        ensures { IfOk result (λ following. ReachesFrom
            (C.choices self.now.choices.now) self.now.query.now self.now.sets.now
            slots.now table (candidate_places following)) }
    {
        match self.found_places(alloc, table, slots, most)? {
            Some(places) => Ok(Following::Found(places)),
            None => Ok(Following::Searched(span)),
        }
    }

    /// The candidate places of a table, given the chosen rows: by key, or by the column that finds
    /// the fewest rows. A row found through an order counts as much as scanning `walked` rows.
    pub fn candidates<'s>(
        &self,
        alloc: Global,
        table: usize,
        slots: &[Option<usize>],
        walked: usize,
    ) -> Result<Following<'s>, Memory>
        requires table { table < length self.now.sets.now }
        requires walked { 0 < walked }
        ensures { IfOk result (λ following. ReachesFrom
            (C.choices self.now.choices.now) self.now.query.now self.now.sets.now
            slots.now table (candidate_places following)) }
    {
        let span = self.span(alloc, table, slots)?;
        if is_long(span.len(), walked) {
            self.fewer_places(alloc, table, slots, span, span.len() / walked)
        } else {
            Ok(Following::Searched(span))
        }
    }

    // The places of a table's rows that can be in a qualifying combination, with no row chosen.
    pub(crate) fn open_candidates<'s>(
        &self,
        alloc: Global,
        table: usize,
    ) -> Result<Following<'s>, Memory>
        requires { table < length self.now.sets.now }
        ensures { IfOk result (λ following. Reaches
            (C.choices self.now.choices.now) self.now.query.now self.now.sets.now table
            (candidate_places following)) }
    {
        let slots = open_slots(alloc, self.sets.len())?;
        self.candidates(alloc, table, &slots, WALKED)
    }
}
