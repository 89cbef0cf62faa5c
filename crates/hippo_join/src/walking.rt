//! The nested-loop join: walks the qualifying combinations stage by stage, by the rows' places.
ghost use Rattle.std.specs.Prelude.{◌≡◌, [], ◌∷◌, ◌<◌, true, None, Some, List, IfOk, IfSome, OnOk, length, nat_lt, slice_set};
ghost use Rattle.std.specs.List.{All, Contains};
ghost use Rattle.std.specs.List.Sorted.{IsStrictlyIncreasing};
ghost use Rattle.std.specs.Option.{option_map_or};
ghost use Rattle.hippo_model.specs.Terms.{Combination, Place};
ghost use Rattle.hippo_eval.specs.declared.walks.Onward.TheVariants.{More as MoreOn};
ghost use Rattle.hippo_join_lookups.specs.Known.{is_open};
ghost use Rattle.hippo_join_lookups.specs.Places.{are_there, rows_at, stands, stays};
ghost use Rattle.hippo_join_stages.specs.Stages.{AllQualify, Counts, ReachesFrom, suffices};
ghost use Rattle.hippo_join_stages.specs.Walking.{candidate_places, IsWalkable};
ghost use Rattle.hippo_join_stages.specs.Visiting.{Visited};
ghost use Rattle.hippo_join.specs.Walked.{join_of, CanGoOn, Follow, HasContinued, HasWalked};

use hippo_eval::{Onward, passes};
use hippo_join_lookups::is_open;
use hippo_join_stages::{Following, Side, Stage, ascends, listed, open_slots};
use hippo_model::{ChoiceView, Combo};
use hippo_tables_rows::RowSet;
use hippo_values::Memory;
use std::alloc::Global;

// Visits qualifying combinations, one after the other, and keeps a result of their places in a
// state.
pub(crate) trait PlaceVisitor {
    ghost use Rattle.std.specs.Prelude.{◌≡◌, [], ◌∷◌, List, map, Some, IfOk};
    ghost use Rattle.hippo_model.specs.Terms.{Combination, Place};
    ghost use Rattle.hippo_tables_keyed.specs.RowSets.{KeyedRows};
    ghost use Rattle.hippo_join_lookups.specs.Places.{chosen_rows};
    ghost use Rattle.hippo_join_stages.specs.Visiting.{KeptOn};

    type State;

    // Whether a state is the result of visiting some combinations and then these, given by their
    // places in tables.
    ghost Keeps: { Self → List KeyedRows → List Combination → List (List Place) → Self.State
        → Type 0 };

    // Adds one combination, whose rows are all chosen, to the state.
    fn visit(
        &self,
        alloc: Global,
        state: &mut Self::State,
        slots: &[Option<usize>],
        rows: &Combo<'_>,
    ) -> Result<Onward, Memory>
        ensures { (sets : List KeyedRows) (front : List Combination) (before : List (List Place))
            (places : List Place)
            → slots.now ≡ map Some places → rows.now ≡ chosen_rows sets places
            → Keeps self.now sets front before state.old
            → IfOk result (λ onward. KeptOn (Keeps self.now sets front) onward before (places ∷ [])
            state.new) };
}

// The candidate places, each once, in ascending order.
fn ascending(alloc: Global, following: &Following<'_>) -> Result<Vec<usize>, Memory>
    ensures order { IfOk result (λ places. IsStrictlyIncreasing places.items) }
    ensures all { IfOk result (λ places. (place : Place)
        → Contains (candidate_places following.now) place
        → Contains places.items place) }
    ensures none_else { IfOk result (λ places. All (Contains (candidate_places following.now))
        places.items) }
{
    let mut places = listed(alloc, following)?;
    places.sort_unstable();
    places.dedup();
    Ok(places)
}

// Whether the chosen place of a table, if there is one, is below the number of its rows.
#[inline(always)]
fn is_there(set: &RowSet, slot: Option<usize>) -> bool
    ensures { result ≡ option_map_or (λ place. nat_lt place (length set.now.rows)) slot true }
{
    match slot {
        Some(place) => place < set.len(),
        None => true,
    }
}

// Whether each chosen place is below the number of its table's rows.
pub(crate) fn are_there<C: ChoiceView>(side: &Side<'_, C>, slots: &[Option<usize>]) -> bool
    requires { length slots.now ≡ length side.now.sets.now }
    ensures { result ≡ are_there side.now.sets.now slots.now }
{
    for (table, slot) in slots.iter().enumerate() {
        if !is_there(side.sets.get(table), *slot) {
            return false;
        }
    }
    true
}

// A walk over the qualifying combinations of a side, with its visitor. It goes in the order of the
// product if `in_order` is true.
#[derive(Drop)]
pub(crate) struct Walk<'w, 'a, C, V> {
    pub(crate) side: &'w Side<'a, C>,
    pub(crate) alloc: Global,
    pub(crate) in_order: bool,
    pub(crate) visitor: &'w V,
}

impl<'w, 'a, C: ChoiceView, V: PlaceVisitor> Walk<'w, 'a, C, V> {
    // The candidate places of a stage, given the chosen rows. They are in ascending order if the
    // walk is in order.
    #[inline(always)]
    fn following<'s>(
        &self,
        stage: &'s Stage,
        slots: &[Option<usize>],
        rows: &Combo<'a>,
    ) -> Result<Following<'s>, Memory>
        requires table { stage.now.table < length self.now.side.now.sets.now }
        requires stage { IsWalkable (C.choices self.now.side.now.choices.now)
            self.now.side.now.query.now self.now.side.now.sets.now stage.now }
        requires rows { rows.now ≡ rows_at self.now.side.now.sets.now slots.now }
        ensures { IfOk result (λ following. Follow (join_of C.choices self.now) stage.now slots.now
            (suffices stage.now slots.now) (candidate_places following)) }
    {
        let following = self.side.following(self.alloc, stage, slots, rows)?;
        if !self.in_order || following.rises() {
            Ok(following)
        } else {
            Ok(Following::Found(ascending(self.alloc, &following)?))
        }
    }

    // The candidate places of a materialised stage, given the chosen rows; in ascending order if
    // the walk is in order. None if the stage looks its rows up, or if the places have to be
    // sorted.
    #[inline(always)]
    fn listed_places<'s>(
        &self,
        stage: &'s Stage,
        slots: &[Option<usize>],
        rows: &Combo<'a>,
    ) -> Option<&'s [usize]>
        requires stage { IsWalkable (C.choices self.now.side.now.choices.now)
            self.now.side.now.query.now self.now.side.now.sets.now stage.now }
        requires rows { rows.now ≡ rows_at self.now.side.now.sets.now slots.now }
        ensures { IfSome result (λ places. Follow (join_of C.choices self.now) stage.now slots.now
            (suffices stage.now slots.now) places.now) }
    {
        if stage.is_searched {
            return None;
        }
        let places = self.side.places_after(stage, slots, rows);
        if self.in_order && !ascends(places) {
            return None;
        }
        Some(places)
    }

    // Whether each candidate of a stage is known to qualify, because the tie suffices or because
    // the places alone show it.
    #[inline(always)]
    fn all_count(&self, stage: &Stage, following: &Following<'_>, slots: &[Option<usize>]) -> bool
        requires table { stage.now.table < length self.now.side.now.sets.now }
        requires follow { Follow (join_of C.choices self.now) stage.now slots.now
            (suffices stage.now slots.now) (candidate_places following.now) }
        ensures { Follow (join_of C.choices self.now) stage.now slots.now result
            (candidate_places following.now) }
    {
        if stage.suffices(slots) {
            return true;
        }
        self.side.all_count(stage.table, following)
    }

    // Visits the combination whose rows are all chosen and which qualifies.
    #[inline(always)]
    fn visit_counted(
        &self,
        slots: &[Option<usize>],
        rows: &Combo<'_>,
        state: &mut V::State,
    ) -> Result<Onward, Memory>
        requires can { CanGoOn (join_of C.choices self.now) [] slots.now rows.now }
        requires counts { stays (C.choices self.now.side.now.choices.now)
            self.now.side.now.query.now rows.now ≡ true }
        ensures { HasContinued (join_of C.choices self.now) (V.Keeps self.now.visitor.now) slots.now
            slots.now rows.now result state.old state.new }
    {
        self.visitor.visit(self.alloc, state, slots, rows)
    }

    // Visits the combination whose rows are all chosen, if it qualifies.
    #[inline(always)]
    fn visit_whole(
        &self,
        slots: &[Option<usize>],
        rows: &Combo<'_>,
        state: &mut V::State,
    ) -> Result<Onward, Memory>
        requires { CanGoOn (join_of C.choices self.now) [] slots.now rows.now }
        ensures { HasContinued (join_of C.choices self.now) (V.Keeps self.now.visitor.now) slots.now
            slots.now rows.now result state.old state.new }
    {
        if passes(self.side.query, rows, self.side.choices) {
            self.visit_counted(slots, rows, state)
        } else {
            Ok(Onward::More)
        }
    }

    // Visits the combination whose rows are all chosen, if it qualifies; `counts` says that it is
    // known to.
    #[inline(always)]
    fn visit_last(
        &self,
        counts: bool,
        slots: &[Option<usize>],
        rows: &Combo<'_>,
        state: &mut V::State,
    ) -> Result<Onward, Memory>
        requires can { CanGoOn (join_of C.choices self.now) [] slots.now rows.now }
        requires counts { counts ≡ true → stays (C.choices self.now.side.now.choices.now)
            self.now.side.now.query.now rows.now ≡ true }
        ensures { HasContinued (join_of C.choices self.now) (V.Keeps self.now.visitor.now) slots.now
            slots.now rows.now result state.old state.new }
    {
        if counts {
            self.visit_counted(slots, rows, state)
        } else {
            self.visit_whole(slots, rows, state)
        }
    }

    // Unchooses the row of a table.
    #[inline(always)]
    fn leave(&self, table: usize, slots: &mut [Option<usize>], rows: &mut Combo<'a>)
        requires long { length slots.old ≡ length self.now.side.now.sets.now }
        requires table { table < length slots.old }
        requires rows { rows.old ≡ rows_at self.now.side.now.sets.now slots.old }
        ensures slots { slots.new ≡ slice_set slots.old table None }
        ensures rows { rows.new ≡ rows_at self.now.side.now.sets.now slots.new }
    {
        slots[table] = None;
        rows.set(table, &self.side.blank.row, self.side.blank.born);
    }

    // Visits the qualifying combinations with the chosen rows and with the row at a place of a
    // stage's table, which replaces the one chosen before. There are none if the table has no such
    // row. At the last stage the whole condition is tested, unless the combination is known to
    // qualify. At the other stages only some parts are tested. Inlined, for speed.
    #[inline(always)]
    #[cycle(walk)]
    fn walk_with(
        &self,
        stage: &Stage,
        rest: &[Stage],
        place: usize,
        counts: bool,
        slots: &mut [Option<usize>],
        rows: &mut Combo<'a>,
        state: &mut V::State,
    ) -> Result<Onward, Memory>
        requires table { stage.now.table < length slots.old }
        requires counts { counts ≡ true → Counts (C.choices self.now.side.now.choices.now)
            self.now.side.now.query.now self.now.side.now.sets.now slots.old stage.now.table place }
        requires can { CanGoOn (join_of C.choices self.now) (stage.now ∷ rest.now) slots.old
            rows.old }
        ensures { HasWalked (join_of C.choices self.now) (V.Keeps self.now.visitor.now)
            stage.now.table (slice_set slots.old stage.now.table (Some place)) slots.old slots.new
            rows.new result state.old state.new }
    {
        let set = self.side.sets.get(stage.table);
        if place >= set.len() {
            return Ok(Onward::More);
        }
        let kept = set.born_row(place);
        slots[stage.table] = Some(place);
        rows.set(stage.table, &kept.row, kept.born);
        if rest.is_empty() {
            let whole = self.visit_last(counts, slots, rows, state)?;
            return Ok(whole);
        }
        if !self.side.tests_hold(&stage.tests, slots, rows) {
            return Ok(Onward::More);
        }
        let onward = self.walk(rest, slots, rows, state)?;
        Ok(onward)
    }

    // Visits the qualifying combinations with the chosen rows, for each candidate place of a stage.
    // All candidates may be known to qualify. The last candidate's row stays chosen. Inlined, for
    // speed.
    #[inline(always)]
    #[cycle(walk)]
    fn walk_each(
        &self,
        stage: &Stage,
        rest: &[Stage],
        following: &Following<'_>,
        count: bool,
        slots: &mut [Option<usize>],
        rows: &mut Combo<'a>,
        state: &mut V::State,
    ) -> Result<Onward, Memory>
        requires still { is_open slots.old stage.now.table ≡ true }
        requires can { CanGoOn (join_of C.choices self.now) (stage.now ∷ rest.now) slots.old
            rows.old }
        requires follow { Follow (join_of C.choices self.now) stage.now slots.old count
            (candidate_places following.now) }
        ensures { HasWalked (join_of C.choices self.now) (V.Keeps self.now.visitor.now)
            stage.now.table slots.old slots.old slots.new rows.new result state.old state.new }
    {
        for index in 0..following.len() {
            let place = following.place(index);
            let onward = self.walk_with(stage, rest, place, count, slots, rows, state)?;
            if let Onward::Enough = onward {
                return Ok(Onward::Enough);
            }
        }
        Ok(Onward::More)
    }

    // Visits the qualifying combinations with the chosen rows, for each candidate place of a stage.
    // No candidate's row stays chosen. Inlined, for speed: materialised places are walked as a
    // slice.
    #[inline(always)]
    #[cycle(walk)]
    fn walk_through(
        &self,
        stage: &Stage,
        rest: &[Stage],
        following: &Following<'_>,
        slots: &mut [Option<usize>],
        rows: &mut Combo<'a>,
        state: &mut V::State,
    ) -> Result<Onward, Memory>
        requires still { is_open slots.old stage.now.table ≡ true }
        requires can { CanGoOn (join_of C.choices self.now) (stage.now ∷ rest.now) slots.old
            rows.old }
        requires follow { Follow (join_of C.choices self.now) stage.now slots.old
            (suffices stage.now slots.old) (candidate_places following.now) }
        ensures { HasContinued (join_of C.choices self.now) (V.Keeps self.now.visitor.now) slots.old
            slots.new rows.new result state.old state.new }
    {
        let count = self.all_count(stage, following, slots);
        let onward = self.walk_each(stage, rest, following, count, slots, rows, state)?;
        self.leave(stage.table, slots, rows);
        Ok(onward)
    }

    // Visits the qualifying combinations with the chosen rows, along stages of the other tables.
    // They come in the order of the product if the walk is in order and the stages are in the order
    // of FROM.
    #[cycle(walk)]
    pub(crate) fn walk(
        &self,
        stages: &[Stage],
        slots: &mut [Option<usize>],
        rows: &mut Combo<'a>,
        state: &mut V::State,
    ) -> Result<Onward, Memory>
        requires { CanGoOn (join_of C.choices self.now) stages.now slots.old rows.old }
        ensures { HasContinued (join_of C.choices self.now) (V.Keeps self.now.visitor.now) slots.old
            slots.new rows.new result state.old state.new }
    {
        let Some((stage, rest)) = stages.split_first() else {
            return self.visit_whole(slots, rows, state);
        };
        if !is_open(slots, stage.table) {
            return self.walk(rest, slots, rows, state);
        }
        if let Some(places) = self.listed_places(stage, slots, rows) {
            let following = Following::Listed(places);
            return self.walk_through(stage, rest, &following, slots, rows, state);
        }
        let following = self.following(stage, slots, rows)?;
        self.walk_through(stage, rest, &following, slots, rows, state)
    }
}

// Visits all qualifying combinations, by joining the tables in an order.
pub(crate) fn walk_all<C: ChoiceView, V: PlaceVisitor>(
    side: &Side<'_, C>,
    alloc: Global,
    order: &[usize],
    in_order: bool,
    visitor: &V,
    state: &mut V::State,
) -> Result<(), Memory>
    requires below { All (λ table. table < length side.now.sets.now) order.now }
    requires whole { (table : Place) → table < length side.now.sets.now
        → Contains order.now table }
    requires rises { in_order ≡ true → IsStrictlyIncreasing order.now }
    ensures { (front : List Combination) (before : List (List Place))
        → V.Keeps visitor.now side.now.sets.now front before state.old → OnOk result (Visited
        (λ places. stands (C.choices side.now.choices.now) side.now.query.now side.now.sets.now
        places ≡ true)
        in_order (V.Keeps visitor.now side.now.sets.now front) MoreOn before state.new) }
{
    let stages = side.stages_in(alloc, order, false)?;
    let mut slots = open_slots(alloc, side.sets.len())?;
    let mut rows = side.rows(alloc, &slots)?;
    let walk = Walk {
        side,
        alloc,
        in_order,
        visitor,
    };
    let _onward = walk.walk(&stages, &mut slots, &mut rows, state)?;
    Ok(())
}
