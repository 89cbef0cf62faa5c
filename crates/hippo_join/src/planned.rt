//! Visits the combinations that a planned join finds, in the order of the product.
ghost use Rattle.std.specs.Prelude.{◌≡◌, ◌<◌, ◌++◌, true, List, length, map, slice_get, IfOk, IsTrue};
ghost use Rattle.std.specs.List.{All, Contains};
ghost use Rattle.hippo_model.specs.Terms.{Combination, Place};
ghost use Rattle.hippo_model.specs.Answers.{product};
ghost use Rattle.hippo_eval.specs.Walks.{rows_of, KeptAfter};
ghost use Rattle.hippo_join_lookups.specs.Places.{chosen_rows, stands};
ghost use Rattle.hippo_join_stages.specs.Finding.{AreFound};
ghost use Rattle.hippo_join_stages.specs.Visiting.{counting};
ghost use Rattle.hippo_join.specs.Plans.{IsPlanOf, KeptWithin};

use crate::finding::PlaceFinder;
use crate::joins::{blank_row, side_of};
use crate::orders::{is_in_order, plan};
use crate::visiting::walk_joined;
use crate::walking::walk_all;
use hippo_eval::{ANSWER_LIMIT, EvalFault, Onward, Visitor};
use hippo_join_stages::{Side, chosen_row};
use hippo_model::{ChoiceView, Combo, Masked, Places, Plan};
use hippo_tables_rows::Sets;
use hippo_values::Memory;
use std::alloc::Global;
use std::collections::BTreeSet;

fn place_at(places: &[usize], table: usize) -> Option<usize>
    ensures { result ≡ slice_get places.now table }
{
    places.get(table).copied()
}

// Replaces the rows by those at these places.
fn choose<'a, C: ChoiceView>(side: &Side<'a, C>, places: &[usize], rows: &mut Combo<'a>)
    requires { length rows.old ≡ length side.now.sets.now }
    ensures { rows.new ≡ chosen_rows side.now.sets.now places.now }
{
    for table in 0..side.sets.len() {
        let place = place_at(places, table);
        let row = chosen_row(side.sets.get(table), place, side.blank);
        rows.set(table, &row.row, row.born);
    }
}

// Visits the combinations at these places, one after the other, until the visitor has enough.
fn visit_each<C: ChoiceView, V: Visitor>(
    found: &BTreeSet<Places>,
    side: &Side<'_, C>,
    alloc: Global,
    visitor: &V,
    state: &mut V::State,
) -> Result<Onward, Memory>
    ensures { (before : List Combination) → V.Keeps visitor.now before state.old
        → KeptAfter (V.Keeps visitor.now) result before
        (map (chosen_rows side.now.sets.now) found.now.keys) state.new }
{
    let mut rows = side.rows(alloc, &[])?;
    for places in found {
        choose(side, places.as_slice(), &mut rows);
        let onward = visitor.visit(alloc, state, &rows)?;
        if let Onward::Enough = onward {
            return Ok(Onward::Enough);
        }
    }
    Ok(Onward::More)
}

// Visits the qualifying combinations, given all of them or more than the limit.
fn visit_found<C: ChoiceView, V: Visitor>(
    side: &Side<'_, C>,
    alloc: Global,
    found: &BTreeSet<Places>,
    visitor: &V,
    state: &mut V::State,
) -> Result<(), EvalFault>
    requires { AreFound (λ places. stands (C.choices side.now.choices.now) side.now.query.now
        side.now.sets.now
        places ≡ true) ANSWER_LIMIT found.now.keys }
    ensures { (before : List Combination) → V.Keeps visitor.now before state.old
        → KeptWithin ANSWER_LIMIT (V.Keeps visitor.now) result before
        (counting (C.choices side.now.choices.now) side.now.query.now
        (product (rows_of side.now.sets.now))) state.new }
{
    // Asking for the length lets the proof know the order of the set's members.
    if found.len() > ANSWER_LIMIT {
        return Err(EvalFault::TooManyRows);
    }
    let _onward = visit_each(found, side, alloc, visitor, state)?;
    Ok(())
}

// Visits the qualifying combinations, by joining the tables in an order.
fn visit_ordered<C: ChoiceView, V: Visitor>(
    order: &[usize],
    side: &Side<'_, C>,
    alloc: Global,
    visitor: &V,
    state: &mut V::State,
) -> Result<(), EvalFault>
    requires whole { (table : Place) → table < length side.now.sets.now
        → Contains order.now table }
    requires below { All (λ table. table < length side.now.sets.now) order.now }
    ensures { (before : List Combination) → V.Keeps visitor.now before state.old
        → KeptWithin ANSWER_LIMIT (V.Keeps visitor.now) result before
        (counting (C.choices side.now.choices.now) side.now.query.now
        (product (rows_of side.now.sets.now))) state.new }
{
    let finder = PlaceFinder {
        limit: ANSWER_LIMIT,
    };
    let mut found = BTreeSet::new(alloc);
    match walk_all(side, alloc, order, false, &finder, &mut found) {
        Ok(()) => visit_found(side, alloc, &found, visitor, state),
        Err(Memory) => Err(EvalFault::Memory),
    }
}

/// Visits each qualifying combination of a query, with the policy written into it, until the
/// visitor has enough. The combinations have one row of each table and come in the order of the
/// product, where the first table varies slowest. The result is the same as that of `walk_joined`,
/// whatever the plan. Requires a plan of the query, and the rows of each of its tables. The tables
/// are joined in the plan's order, as `run` does.
///
/// If the plan's order is not that of FROM, the places of all qualifying combinations are found
/// before the first visit, in memory proportional to their number. Returns TooManyRows, without any
/// visit, only when more than 100,000 combinations qualify.
pub fn visit_planned<C: ChoiceView, V: Visitor>(
    alloc: Global,
    plan: &Plan,
    query: &Masked,
    sets: &Sets<'_>,
    choices: &C,
    visitor: &V,
    state: &mut V::State,
) -> Result<(), EvalFault>
    requires sets { length sets.now ≡ length query.now.tables }
    requires plan { IsPlanOf query.now plan.now }
    ensures { (before : List Combination) → V.Keeps visitor.now before state.old
        → KeptWithin ANSWER_LIMIT (V.Keeps visitor.now) result before
        (counting (C.choices choices.now) query.now (product (rows_of sets.now))) state.new }
{
    if is_in_order(plan) {
        walk_joined(alloc, query, sets, choices, visitor, state)?;
        return Ok(());
    }
    let blank = blank_row(alloc)?;
    let side = side_of(query, sets, choices, &blank);
    visit_ordered(plan.order.as_slice(), &side, alloc, visitor, state)
}

/// Visits each qualifying combination of a query, as `walk_joined` does, with the tables joined in
/// an order that `plan` chooses. Returns whether it did. It did not if more than 100,000
/// combinations qualify and the order is not that of FROM, or if there are no rows for some table;
/// then nothing is said of the state.
pub fn visit_by_plan<C: ChoiceView, V: Visitor>(
    alloc: Global,
    query: &Masked,
    sets: &Sets<'_>,
    choices: &C,
    visitor: &V,
    state: &mut V::State,
) -> Result<bool, Memory>
    ensures { (before : List Combination) → V.Keeps visitor.now before state.old
        → IfOk result (λ visited. IsTrue visited → V.Keeps visitor.now (before
        ++ counting (C.choices choices.now) query.now (product (rows_of sets.now))) state.new) }
{
    if sets.len() < 2 {
        walk_joined(alloc, query, sets, choices, visitor, state)?;
        return Ok(true);
    }
    if sets.len() != query.tables.len() {
        return Ok(false);
    }
    let plan = plan(alloc, query, sets, choices)?;
    match visit_planned(alloc, &plan, query, sets, choices, visitor, state) {
        Ok(()) => Ok(true),
        Err(EvalFault::TooManyRows) => Ok(false),
        Err(EvalFault::Memory) => Err(Memory),
    }
}
