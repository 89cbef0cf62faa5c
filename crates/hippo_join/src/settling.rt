//! Rows that every qualifying combination must have, because lookups find no other; and joins that
//! start from chosen rows.
ghost use Rattle.std.specs.Prelude.{◌≡◌, ◌<◌, ◌≤◌, true, List, IfOk, IfSome, OnOk, Some, filter, get_or, length, slice_set};
ghost use Rattle.std.specs.List.{All, Contains};
ghost use Rattle.hippo_model.specs.Terms.{Place};
ghost use Rattle.hippo_join_lookups.specs.Known.{is_open};
ghost use Rattle.hippo_join_lookups.specs.Places.{Fits, stands};
ghost use Rattle.hippo_join.specs.Existence.{HasOne, Decides};
ghost use Rattle.hippo_join.specs.Settling.{Settles};
ghost use Rattle.hippo_join_stages.specs.Stages.{Reaches};
ghost use Rattle.hippo_join_stages.specs.Walking.{candidate_places};

use crate::existence::Seeker;
use hippo_join_lookups::is_open;
use hippo_join_stages::{Following, Side, listed, open_slots, push_if};
use hippo_model::{ChoiceView, Expr};
use hippo_values::Memory;
use std::alloc::Global;

// At or below this many places are few.
const FEW: usize = 16;

// The limit for few places in a table with this many rows.
fn few_of(rows: usize) -> usize {
    let part = rows / FEW;
    if part < FEW { part } else { FEW }
}

// The only place; 0 if there is no place. None if there are several.
fn only_of(following: &Following<'_>) -> Option<usize>
    ensures { IfSome result (λ first. (length (candidate_places following.now) ≤ 1)
        × (first ≡ get_or (candidate_places following.now) 0 0)) }
{
    match following.len() {
        0 => Some(0),
        1 => Some(following.place(0)),
        _ => None,
    }
}

// The tables of an order whose rows are not yet chosen.
fn still_open(alloc: Global, order: &[usize], slots: &[Option<usize>]) -> Result<Vec<usize>, Memory>
    ensures { IfOk result (λ left. left.items ≡ filter (is_open slots.now) order.now) }
{
    let mut left = Vec::new(alloc);
    for table in order {
        push_if(is_open(slots, *table), &mut left, *table)?;
    }
    Ok(left)
}

// The place of a table's row, if none is chosen yet and at most one row is a candidate.
fn only_place<C: ChoiceView>(
    side: &Side<'_, C>,
    alloc: Global,
    table: usize,
    slots: &[Option<usize>],
) -> Result<Option<usize>, Memory>
    requires { table < length side.now.sets.now }
    ensures { IfOk result (λ found. IfSome found
        (λ first. Settles (C.choices side.now.choices.now)
        side.now.query.now side.now.sets.now slots.now
        (slice_set slots.now table (Some first)))) }
{
    if !is_open(slots, table) {
        return Ok(None);
    }
    let following = side.candidates(alloc, table, slots, 1)?;
    Ok(only_of(&following))
}

// Chooses a table's row, if none is chosen yet and at most one row is a candidate.
#[tactic(auto, using(crate::proofs::SettlingLemmas::Settles_refl))]
fn settle_table<C: ChoiceView>(
    side: &Side<'_, C>,
    alloc: Global,
    table: usize,
    slots: &mut [Option<usize>],
) -> Result<(), Memory>
    requires sets { table < length side.now.sets.now }
    requires slots { table < length slots.old }
    ensures { OnOk result (Settles
        (C.choices side.now.choices.now) side.now.query.now side.now.sets.now slots.old
        slots.new) }
{
    let Some(first) = only_place(side, alloc, table, slots)? else {
        return Ok(());
    };
    slots[table] = Some(first);
    Ok(())
}

// Chooses the row of each table for which at most one row is a candidate, one table after the
// other.
fn settle_each<C: ChoiceView>(
    side: &Side<'_, C>,
    alloc: Global,
    slots: &mut [Option<usize>],
) -> Result<(), Memory>
    requires { length slots.old ≡ length side.now.sets.now }
    ensures { OnOk result (Settles
        (C.choices side.now.choices.now) side.now.query.now side.now.sets.now slots.old
        slots.new) }
{
    for table in 0..side.sets.len() {
        settle_table(side, alloc, table, slots)?;
    }
    Ok(())
}

/// Slots of all tables, where each chosen row is in every qualifying combination. A table's row is
/// chosen when a lookup, by literals or by rows chosen in this way, finds at most one row. Rows are
/// not tested. If a lookup finds none, no combination qualifies, and any row may be chosen.
pub fn settled<C: ChoiceView>(
    side: &Side<'_, C>,
    alloc: Global,
) -> Result<Vec<Option<usize>>, Memory>
    ensures { IfOk result (λ slots. (places : List Place)
        → stands (C.choices side.now.choices.now)
        side.now.query.now side.now.sets.now places ≡ true → Fits slots.items places) }
{
    let mut slots = open_slots(alloc, side.sets.len())?;
    for _pass in 0..side.sets.len() {
        settle_each(side, alloc, &mut slots)?;
    }
    Ok(slots)
}

/// The places of a table's rows that can be in a qualifying combination, if lookups find few: at
/// most sixteen, and at most one in sixteen of the table's rows. Rows are not tested.
pub fn few_places<C: ChoiceView>(
    side: &Side<'_, C>,
    alloc: Global,
    table: usize,
) -> Result<Option<Vec<usize>>, Memory>
    requires { table < length side.now.sets.now }
    ensures { IfOk result (λ found. IfSome found (λ places. Reaches
        (C.choices side.now.choices.now) side.now.query.now side.now.sets.now table
        places.items)) }
{
    let slots = settled(side, alloc)?;
    let following = side.candidates(alloc, table, &slots, 1)?;
    if following.len() > few_of(side.sets.get(table).len()) {
        return Ok(None);
    }
    let places = listed(alloc, &following)?;
    Ok(Some(places))
}

/// Whether some qualifying combination has the chosen rows and shows each cell of `seen`. The
/// tables whose rows are not chosen are joined after the others, in the given order of all tables.
/// A row is looked up when the rows before it fix its key, or the value of a column that its table
/// is ordered by. Leaves the slots unchanged, unless out of memory.
pub fn has_joined<C: ChoiceView>(
    side: &Side<'_, C>,
    alloc: Global,
    order: &[usize],
    seen: &[Expr],
    slots: &mut [Option<usize>],
) -> Result<bool, Memory>
    requires long { length slots.old ≡ length side.now.sets.now }
    requires below { All (λ table. table < length side.now.sets.now) order.now }
    requires whole { (table : Place) → table < length side.now.sets.now
        → Contains order.now table }
    ensures slots { OnOk result (slots.new ≡ slots.old) }
    ensures one { Decides (HasOne (C.choices side.now.choices.now) side.now.query.now seen.now
        side.now.sets.now
        slots.old) result }
{
    let left = still_open(alloc, order, slots)?;
    let chosen = Vec::from_slice(alloc, slots)?;
    let stages = side.stages_after(alloc, chosen, &left, false)?;
    let seeker = Seeker { side, seen };
    seeker.has_along(alloc, &stages, slots)
}
