//! Materialises the stages of a join: the rows of each table that can follow the chosen rows.
ghost use Rattle.std.specs.Prelude.{◌≡◌, ◌<◌, true, false, None, Some, [], ◌∷◌, ◌++◌, if◌then◌else◌, OnOk, IfOk, length, replicate};
ghost use Rattle.std.specs.List.{All};
ghost use Rattle.hippo_join_lookups.specs.Places.{chosen_rows as chosen, rows_at};
ghost use Rattle.hippo_join_stages.specs.Walking.{candidate_places, IsWalkable, AreWalkable};
ghost use Rattle.hippo_join_lookups.specs.Known.{is_open};
ghost use Rattle.hippo_join_stages.specs.Stages.{AllQualify, HaveValue, Reaches, ReachesFrom, ReachesWith, IsStage, AreStages, suffices};

use crate::following::{Following, listed};
use crate::sides::Side;
use crate::stages::Stage;
use crate::sufficing::can_fail;
use hippo_eval::raw_value;
use hippo_join_lookups::{
    Tie, find_tie, index_by_column, is_chosen, is_null, knows, knows_expr, outer_parts, slot_at,
    value_at, with_value,
};
use hippo_model::{ChoiceView, Combo, Expr, Ref};
use hippo_values::{Memory, Value};
use std::alloc::Global;
use std::cell::Cell;

// How many rows can be tested and sorted in the time of a lookup: by a whole key, by its first
// values, and by a column with an order.
const BY_KEY: usize = 3;

const BY_FRONT: usize = 8;

const BY_ORDER: usize = 16;

// One row of this many is expected to have the value of a tie.
const SHARE: usize = 16;

// At or below this many rows, the rows of an only table are tested during the scan, not before.
const FEW_ROWS: usize = 64;

/// A slot for the row of each table, with no row chosen.
pub fn open_slots(alloc: Global, tables: usize) -> Result<Vec<Option<usize>>, Memory>
    ensures { IfOk result (λ slots. slots.items ≡ replicate tables None) }
{
    Ok(vec![in alloc; None; tables]?)
}

/// Appends a place if a test holds.
pub fn push_if(test: bool, places: &mut Vec<usize>, place: usize) -> Result<(), Memory>
    ensures { OnOk result (places.new.items ≡ if test then places.old.items ++ place ∷ []
        else places.old.items) }
{
    if test {
        places.push(place)?;
    }
    Ok(())
}

// About how many of some rows have the value of their tie.
fn rows_beside(rows: usize) -> usize {
    rows.div_ceil(SHARE)
}

impl<'a, C: ChoiceView> Side<'a, C> {
    // Whether a part of the condition, or a guard that can fail, can be tested with these rows
    // chosen.
    fn knows_test(&self, slots: &[Option<usize>]) -> bool {
        let parts = outer_parts(&self.query.cond);
        let guards = self.query.guards.as_slice();
        parts.iter().any(|part| knows(part, slots))
            || guards.iter().any(|guard| can_fail(&guard.expr) && knows_expr(&guard.expr, slots))
    }

    // The parts of the condition that can be tested with these rows chosen, by their places.
    fn known_parts(&self, alloc: Global, slots: &[Option<usize>]) -> Result<Vec<usize>, Memory> {
        let mut known = Vec::new(alloc);
        for (place, part) in outer_parts(&self.query.cond).iter().enumerate() {
            if knows(part, slots) {
                known.push(place)?;
            }
        }
        Ok(known)
    }

    // The candidates that pass the guards and the parts of the condition on this table alone.
    fn tested_places(
        &self,
        alloc: Global,
        table: usize,
        candidates: &Following<'_>,
        tests: &[usize],
    ) -> Result<Vec<usize>, Memory>
        requires table { table < length self.now.sets.now }
        requires candidates { Reaches (C.choices self.now.choices.now) self.now.query.now
            self.now.sets.now
            table (candidate_places candidates.now) }
        ensures { IfOk result (λ places. Reaches (C.choices self.now.choices.now) self.now.query.now
            self.now.sets.now
            table places.items) }
    {
        let mut slots = open_slots(alloc, self.sets.len())?;
        let mut rows = self.rows(alloc, &slots)?;
        let mut places = Vec::new(alloc);
        for index in 0..candidates.len() {
            let place = candidates.place(index);
            slots[table] = Some(place);
            self.renew(&mut rows, &slots, table);
            let may_count = self.may_count_by(&rows, tests, &slots);
            push_if(may_count, &mut places, place)?;
        }
        Ok(places)
    }

    // The places of a table's rows that can be in a qualifying combination, with no other row
    // chosen. When literals fix the row's key or its first values, or bound the next one, or
    // restrict a column that the table is ordered by, the rows are found by binary search. They are
    // tested before they are materialised. The exception is a query of one table with few rows:
    // there the scan tests the whole condition at once.
    fn reached_places(
        &self,
        alloc: Global,
        table: usize,
        alone: &[Option<usize>],
    ) -> Result<Vec<usize>, Memory>
        requires { table < length self.now.sets.now }
        ensures { IfOk result (λ places. Reaches (C.choices self.now.choices.now) self.now.query.now
            self.now.sets.now
            table places.items) }
    {
        let candidates = self.open_candidates(alloc, table)?;
        let are_many = self.sets.len() > 1 || candidates.len() > FEW_ROWS;
        if are_many && self.knows_test(alone) {
            let tests = self.known_parts(alloc, alone)?;
            self.tested_places(alloc, table, &candidates, &tests)
        } else {
            listed(alloc, &candidates)
        }
    }

    // Whether the condition and the chosen rows fix a table's whole key.
    pub(crate) fn tells_key(&self, table: usize, slots: &[Option<usize>]) -> bool
        requires { table < length self.now.sets.now }
    {
        for column in self.sets.get(table).key().as_slice() {
            let column = Ref {
                table,
                column: *column,
            };
            if self.told_value(column, slots).is_none() {
                return false;
            }
        }
        true
    }

    // Whether the chosen rows fix the first value of a table's key.
    fn tells_front(&self, table: usize, slots: &[Option<usize>], once: bool) -> bool
        requires { table < length self.now.sets.now }
    {
        let Some(column) = self.sets.get(table).key().as_slice().first() else {
            return false;
        };
        let column = Ref {
            table,
            column: *column,
        };
        self.is_joined(column, slots, once)
    }

    // How many rows can be tested and sorted in the time of a lookup by key or by a column that the
    // table is ordered by, if the chosen rows fix it.
    fn lookup_cost(&self, table: usize, slots: &[Option<usize>], once: bool) -> Option<usize>
        requires { table < length self.now.sets.now }
    {
        if self.tells_key(table, slots) {
            Some(BY_KEY)
        } else if self.tells_front(table, slots, once) {
            Some(BY_FRONT)
        } else if self.is_found(table, slots, once) {
            Some(BY_ORDER)
        } else {
            None
        }
    }

    // Whether a table's rows are looked up for each combination of chosen rows; `before` is about
    // the number of these combinations. The only table of a query is always looked up, once. The
    // rows of another one are looked up if that costs less than testing and sorting the rows that
    // literals find, or if there is no combination to look them up for.
    fn is_searched(
        &self,
        alloc: Global,
        table: usize,
        slots: &[Option<usize>],
        before: usize,
    ) -> Result<bool, Memory>
        requires { table < length self.now.sets.now }
    {
        if self.sets.len() == 1 || before == 0 {
            return Ok(true);
        }
        let is_tied = find_tie(outer_parts(&self.query.cond), table, slots).is_some();
        let once = before == 1 && is_tied;
        let Some(cost) = self.lookup_cost(table, slots, once) else {
            return Ok(false);
        };
        if before == 1 {
            return Ok(true);
        }
        let found = self.count_found(alloc, table)?;
        Ok(before.saturating_mul(cost) < found)
    }

    // The same, but none is looked up if all stages are to be materialised.
    fn looks_up(
        &self,
        alloc: Global,
        table: usize,
        slots: &[Option<usize>],
        before: usize,
        lists: bool,
    ) -> Result<bool, Memory>
        requires { table < length self.now.sets.now }
        ensures { IfOk result (λ searched. lists ≡ true → searched ≡ false) }
    {
        if lists {
            return Ok(false);
        }
        let is_searched = self.is_searched(alloc, table, slots, before)?;
        Ok(is_searched)
    }

    // Whether all rows of a table are scanned without being materialised. That is so when all of
    // these hold: at most one combination of rows is expected before (`before` is an estimate),
    // since the candidates are computed again for each; no tie restricts the candidates; and
    // nothing can be tested on the table alone.
    fn walks_all(
        &self,
        table: usize,
        slots: &[Option<usize>],
        before: usize,
        alone: &[Option<usize>],
    ) -> bool {
        before <= 1
            && find_tie(outer_parts(&self.query.cond), table, slots).is_none()
            && !self.knows_test(alone)
    }

    // The stage of a table after the chosen ones, with materialised places.
    fn listed_stage(
        &self,
        alloc: Global,
        table: usize,
        slots: &[Option<usize>],
        alone: &[Option<usize>],
        tests: Vec<usize>,
    ) -> Result<Stage, Memory>
        requires { table < length self.now.sets.now }
        ensures stage { IfOk result (λ stage. IsStage (C.choices self.now.choices.now)
            self.now.query.now
            self.now.sets.now stage) }
        ensures listed { IfOk result (λ stage. stage.is_searched ≡ false) }
        ensures table { IfOk result (λ stage. stage.table ≡ table) }
    {
        let places = self.reached_places(alloc, table, alone)?;
        let rows = places.len();
        let Some(tie) = find_tie(outer_parts(&self.query.cond), table, slots) else {
            return Ok(Stage {
                table,
                tie: None,
                is_searched: false,
                rows,
                places,
                values: Vec::new(alloc),
                suffices: self.suffices(table, &None),
                near: Cell::new(0),
                tests,
            });
        };
        let index = index_by_column(alloc, self.sets.get(table), tie.column, places)?;
        Ok(Stage {
            table,
            tie: Some(tie),
            is_searched: false,
            rows: rows_beside(rows),
            places: index.places,
            values: index.values,
            suffices: self.suffices(table, &Some(tie)),
            near: Cell::new(0),
            tests,
        })
    }

    // The stage of a table after the chosen ones. Its places are materialised if all stages are to
    // be materialised, or if its rows cannot be looked up.
    fn stage(
        &self,
        alloc: Global,
        table: usize,
        slots: &[Option<usize>],
        before: usize,
        lists: bool,
    ) -> Result<Stage, Memory>
        requires sets { table < length self.now.sets.now }
        requires slots { table < length slots.now }
        ensures walkable { IfOk result (λ stage. IsWalkable
            (C.choices self.now.choices.now) self.now.query.now self.now.sets.now stage) }
        ensures listed { IfOk result (λ stage. lists ≡ true → stage.is_searched ≡ false) }
        ensures table { IfOk result (λ stage. stage.table ≡ table) }
    {
        if self.looks_up(alloc, table, slots, before, lists)? {
            let tests = self.tests_at(alloc, table, slots, &[])?;
            let suffices = self.suffices(table, &None);
            return Ok(Stage::searched(alloc, table, 1, suffices, tests));
        }
        let mut alone = open_slots(alloc, self.sets.len())?;
        alone[table] = Some(0);
        let tests = self.tests_at(alloc, table, slots, &alone)?;
        if !lists && self.walks_all(table, slots, before, &alone) {
            let rows = self.sets.get(table).len();
            let suffices = self.suffices(table, &None);
            Ok(Stage::searched(alloc, table, rows, suffices, tests))
        } else {
            self.listed_stage(alloc, table, slots, &alone, tests)
        }
    }

    // The places of a stage whose rows have a value in the column of its tie; none if the value is
    // null.
    #[inline(always)]
    fn places_with<'s>(&self, stage: &'s Stage, tie: &Tie, value: &Value) -> &'s [usize]
        requires stage { IsStage (C.choices self.now.choices.now) self.now.query.now
            self.now.sets.now stage.now }
        requires tie { stage.now.tie ≡ Some tie.now }
        ensures reaches { ReachesWith (C.choices self.now.choices.now) self.now.query.now
            self.now.sets.now
            tie.now.other value.now stage.now.table result.now }
        ensures equal { HaveValue self.now.sets.now stage.now.table tie.now.column value.now
            result.now }
    {
        let places = stage.places.as_slice();
        if is_null(value) {
            &places[..0]
        } else {
            with_value(places, stage.values.as_slice(), value, &stage.near)
        }
    }

    // The places of a stage that its tie to the chosen rows allows.
    fn tied_places<'s>(&self, stage: &'s Stage, tie: &Tie, slots: &[Option<usize>]) -> &'s [usize]
        requires stage { IsStage (C.choices self.now.choices.now) self.now.query.now
            self.now.sets.now stage.now }
        requires tie { stage.now.tie ≡ Some tie.now }
        ensures { ReachesFrom (C.choices self.now.choices.now) self.now.query.now self.now.sets.now
            slots.now stage.now.table result.now }
    {
        let Some(place) = slot_at(slots, tie.other.table) else {
            return stage.places.as_slice();
        };
        if tie.other.table >= self.sets.len() {
            return stage.places.as_slice();
        }
        let others = self.sets.get(tie.other.table);
        let value = value_at(others, tie.other.column, place).unwrap_or(&Value::Null);
        self.places_with(stage, tie, value)
    }

    /// The candidate places of a materialised stage, given the chosen rows.
    pub fn places_of<'s>(&self, stage: &'s Stage, slots: &[Option<usize>]) -> &'s [usize]
        requires { IsStage (C.choices self.now.choices.now) self.now.query.now self.now.sets.now
            stage.now }
        ensures { ReachesFrom (C.choices self.now.choices.now) self.now.query.now self.now.sets.now
            slots.now stage.now.table result.now }
    {
        match &stage.tie {
            None => stage.places.as_slice(),
            Some(tie) => self.tied_places(stage, tie, slots),
        }
    }

    // The same as `tied_places`, with the chosen rows passed in.
    #[inline(always)]
    fn places_tied_to<'s>(
        &self,
        stage: &'s Stage,
        tie: &Tie,
        slots: &[Option<usize>],
        rows: &Combo<'_>,
    ) -> &'s [usize]
        requires stage { IsStage (C.choices self.now.choices.now) self.now.query.now
            self.now.sets.now stage.now }
        requires tie { stage.now.tie ≡ Some tie.now }
        requires rows { rows.now ≡ rows_at self.now.sets.now slots.now }
        ensures reaches { ReachesFrom (C.choices self.now.choices.now) self.now.query.now
            self.now.sets.now
            slots.now stage.now.table result.now }
        ensures count { is_open slots.now stage.now.table ≡ true
            → suffices stage.now slots.now ≡ true
            → AllQualify (C.choices self.now.choices.now) self.now.query.now self.now.sets.now
            slots.now stage.now.table result.now }
    {
        if is_chosen(slots, tie.other.table) {
            let value = raw_value(rows, &tie.other).unwrap_or(&Value::Null);
            self.places_with(stage, tie, value)
        } else {
            stage.places.as_slice()
        }
    }

    /// The same as `places_of`, with the chosen rows passed in.
    #[inline(always)]
    pub fn places_after<'s>(
        &self,
        stage: &'s Stage,
        slots: &[Option<usize>],
        rows: &Combo<'_>,
    ) -> &'s [usize]
        requires stage { IsStage (C.choices self.now.choices.now) self.now.query.now
            self.now.sets.now stage.now }
        requires rows { rows.now ≡ rows_at self.now.sets.now slots.now }
        ensures reaches { ReachesFrom (C.choices self.now.choices.now) self.now.query.now
            self.now.sets.now
            slots.now stage.now.table result.now }
        ensures count { is_open slots.now stage.now.table ≡ true
            → suffices stage.now slots.now ≡ true
            → AllQualify (C.choices self.now.choices.now) self.now.query.now self.now.sets.now
            slots.now stage.now.table result.now }
    {
        match &stage.tie {
            None => stage.places.as_slice(),
            Some(tie) => self.places_tied_to(stage, tie, slots, rows),
        }
    }

    // The parts of the condition to test once a table's row is chosen: those that neither the rows
    // chosen before nor the table alone allow to be tested. None for the last table, since the
    // whole condition is tested then.
    fn tests_at(
        &self,
        alloc: Global,
        table: usize,
        slots: &[Option<usize>],
        alone: &[Option<usize>],
    ) -> Result<Vec<usize>, Memory>
        requires { table < length slots.now }
    {
        let mut tests = Vec::new(alloc);
        let mut others = slots.iter().enumerate();
        if others.all(|(place, slot)| place == table || slot.is_some()) {
            return Ok(tests);
        }
        let mut after = Vec::from_slice(alloc, slots)?;
        after[table] = Some(0);
        for (place, part) in outer_parts(&self.query.cond).iter().enumerate() {
            if knows(part, &after) && !knows(part, slots) && !knows(part, alone) {
                tests.push(place)?;
            }
        }
        Ok(tests)
    }

    /// The stages of a join after the chosen rows, for tables in the given order. With `lists`, all
    /// are materialised; without it, only those whose rows are not looked up.
    pub fn stages_after(
        &self,
        alloc: Global,
        mut slots: Vec<Option<usize>>,
        order: &[usize],
        lists: bool,
    ) -> Result<Vec<Stage>, Memory>
        requires long { length slots.items ≡ length self.now.sets.now }
        requires below { All (λ table. table < length self.now.sets.now) order.now }
        ensures { IfOk result (λ stages. AreWalkable
            (C.choices self.now.choices.now) self.now.query.now self.now.sets.now lists order.now
            stages.items) }
    {
        let mut stages = Vec::new(alloc);
        let mut before = 1;
        for table in order {
            let stage = self.stage(alloc, *table, &slots, before, lists)?;
            before = before.saturating_mul(stage.rows);
            stages.push(stage)?;
            slots[*table] = Some(0);
        }
        Ok(stages)
    }

    /// The stages of a join, for tables in the given order. With `lists`, all are materialised;
    /// without it, only those whose rows are not looked up.
    pub fn stages_in(
        &self,
        alloc: Global,
        order: &[usize],
        lists: bool,
    ) -> Result<Vec<Stage>, Memory>
        requires { All (λ table. table < length self.now.sets.now) order.now }
        ensures { IfOk result (λ stages. AreWalkable
            (C.choices self.now.choices.now) self.now.query.now self.now.sets.now lists order.now
            stages.items) }
    {
        let slots = open_slots(alloc, self.sets.len())?;
        self.stages_after(alloc, slots, order, lists)
    }

    /// The stages of a join, all materialised, for tables in the given order.
    pub fn stages(&self, alloc: Global, order: &[usize]) -> Result<Vec<Stage>, Memory>
        requires { All (λ table. table < length self.now.sets.now) order.now }
        ensures { IfOk result (λ stages. AreStages (C.choices self.now.choices.now)
            self.now.query.now self.now.sets.now
            order.now stages.items) }
    {
        self.stages_in(alloc, order, true)
    }
}
