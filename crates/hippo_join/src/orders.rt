//! Join planning: the order in which the tables of a query are joined.
ghost use Rattle.std.specs.Prelude.{◌≡◌, ◌<◌, ◌++◌, IfOk, IfSome, IsTrue, length, take};
ghost use Rattle.std.specs.List.{range_with_len};
ghost use Rattle.std.specs.List.Sorted.{IsPermutation};
ghost use Rattle.hippo_join.specs.Plans.{IsPlanOf};

use crate::joins::{blank_row, side_of};
use hippo_join_stages::{Side, open_slots};
use hippo_model::{ChoiceView, Masked, Plan};
use hippo_tables_rows::Sets;
use hippo_values::{Memory, Sequence};
use std::alloc::Global;

pub(crate) fn tables_below(alloc: Global, count: usize) -> Result<Vec<usize>, Memory>
    ensures { IfOk result (λ tables. tables.items ≡ range_with_len 0 count) }
{
    let mut tables = Vec::with_capacity(alloc, count)?;
    for table in 0..count {
        tables.push(table)?;
    }
    Ok(tables)
}

// The place, in `left`, of a table of which at most one row can follow the chosen rows, because
// they and literals fix its whole key.
fn place_of_one<C: ChoiceView>(
    side: &Side<'_, C>,
    left: &[usize],
    slots: &[Option<usize>],
) -> Option<usize>
    ensures { IfSome result (λ place. place < length left.now) }
{
    for place in 0..left.len() {
        if side.finds_one(left[place], slots) {
            return Some(place);
        }
    }
    None
}

// The place, in `left`, of the table that adds the fewest rows to each combination of the chosen
// rows. An earlier table gives way only to one that adds less than half as many, since combinations
// that are found in the order of FROM need not be sorted.
fn place_of_fewest<C: ChoiceView>(
    alloc: Global,
    side: &Side<'_, C>,
    left: &[usize],
    slots: &[Option<usize>],
) -> Result<usize, Memory>
    requires { 0 < length left.now }
    ensures { IfOk result (λ place. place < length left.now) }
{
    let mut best = 0;
    let mut least = side.count_after(alloc, left[0], slots)?;
    for place in 1..left.len() {
        let count = side.count_after(alloc, left[place], slots)?;
        if count < least / 2 {
            best = place;
            least = count;
        }
    }
    Ok(best)
}

// The place, in `left`, of the table to join next.
fn next_place<C: ChoiceView>(
    alloc: Global,
    side: &Side<'_, C>,
    left: &[usize],
    slots: &[Option<usize>],
) -> Result<usize, Memory>
    requires { 0 < length left.now }
    ensures { IfOk result (λ place. place < length left.now) }
{
    if left.len() == 1 {
        return Ok(0);
    }
    match place_of_one(side, left, slots) {
        Some(place) => Ok(place),
        None => place_of_fewest(alloc, side, left, slots),
    }
}

fn mark(slots: &mut [Option<usize>], table: usize) {
    if table < slots.len() {
        slots[table] = Some(0);
    }
}

/// Orders the tables of a query for a join: first those in `first`, then those in `others`. The
/// next table is one of which at most one row can follow the rows chosen before, if there is one,
/// otherwise the one that adds the fewest rows to each combination of them, by the counts of
/// `Side::count_after`.
pub fn order_after<C: ChoiceView>(
    alloc: Global,
    side: &Side<'_, C>,
    first: &[usize],
    others: &[usize],
) -> Result<Vec<usize>, Memory>
    ensures permutation { IfOk result (λ order. IsPermutation (first.now ++ others.now)
        order.items) }
    ensures front { IfOk result (λ order. take (length first.now) order.items ≡ first.now) }
{
    let mut slots = open_slots(alloc, side.sets.len())?;
    for table in first {
        mark(&mut slots, *table);
    }
    let mut order = Vec::from_slice(alloc, first)?;
    let mut left = Vec::from_slice(alloc, others)?;
    while !left.is_empty() {
        let place = next_place(alloc, side, &left, &slots)?;
        let table = left.remove(place);
        mark(&mut slots, table);
        order.push(table)?;
    }
    Ok(order)
}

/// A join order for the tables of a query, each once, over their rows. The next table is one of
/// which at most one row can follow the rows chosen before, if there is one, otherwise the one that
/// adds the fewest rows. `run` gives the same answer for every order; this one is chosen to be
/// fast.
pub fn plan<C: ChoiceView>(
    alloc: Global,
    query: &Masked,
    sets: &Sets<'_>,
    choices: &C,
) -> Result<Plan, Memory>
    ensures { IfOk result (λ plan. IsPlanOf query.now plan) }
{
    let blank = blank_row(alloc)?;
    let side = side_of(query, sets, choices, &blank);
    let tables = tables_below(alloc, query.tables.len())?;
    let order = order_after(alloc, &side, &[], &tables)?;
    Ok(Plan {
        order: Sequence::from_vec(order),
    })
}

/// Whether a plan joins the tables in the order of FROM.
pub(crate) fn is_in_order(plan: &Plan) -> bool
    ensures { IsTrue result → plan.now.order ≡ range_with_len 0 (length plan.now.order) }
{
    let tables = plan.order.as_slice();
    for place in 0..tables.len() {
        if tables[place] != place {
            return false;
        }
    }
    true
}
