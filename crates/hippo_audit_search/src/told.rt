//! The first places of rows in the common tables, using lookups that leave only few possible rows.
ghost use Rattle.std.specs.Prelude.{◌≡◌, ◌<◌, [], ◌∷◌, None, Some, IfOk, IfSome, if◌then◌else◌, get_or, length, map, option_copied, option_map, replicate};
ghost use Rattle.std.specs.List.{All};
ghost use Rattle.hippo_join.specs.Existence.{Decides};
ghost use Rattle.hippo_audit_search.specs.FirstPlaces.{AreChosen, IsFirst, IsFirstAmong, with_rows};
ghost use Rattle.hippo_join_lookups.specs.Places.{slot_at};
ghost use Rattle.hippo_audit_search.specs.Searching.{AreFewOf, AreFewShared, AreDetermined, HasOneOf, HaveCommon, IsOnlyShared, SharedBy};
ghost use Rattle.hippo_audit_search.specs.ToldPlaces.{AreToldOf, AreToldShared};

use crate::searching::{first_staged, first_walked, in_order, slots_with};
use crate::sides::Sides;
use hippo_audit_common::order_from;
use hippo_join::{has_joined, settled};
use hippo_join_stages::Side;
use hippo_model::{ChoiceView, Expr, Places};
use hippo_values::{Memory, Sequence};
use std::alloc::Global;

// At or below this many candidates, look up each one instead of making the stages of all tables.
const FEW: usize = 16;

// What lookups find for the common tables: the only possible place in each, or few places in the
// only table.
#[derive(Clone, Copy)]
enum HowMany {
    Only,
    Few,
}

fn place_in_slot(slots: &[Option<usize>], table: usize) -> Option<usize>
    ensures { result ≡ slot_at slots.now table }
{
    match slots.get(table) {
        Some(slot) => *slot,
        None => None,
    }
}

// The places chosen in some tables, if each of them has one.
fn chosen_in(
    alloc: Global,
    tables: &[usize],
    slots: &[Option<usize>],
) -> Result<Option<Vec<usize>>, Memory>
    ensures { IfOk result (λ found. IfSome found
        (λ places. AreChosen slots.now tables.now places.items)) }
{
    let mut places = Vec::with_capacity(alloc, tables.len())?;
    for table in tables {
        let Some(place) = place_in_slot(slots, *table) else {
            return Ok(None);
        };
        places.push(place)?;
    }
    Ok(Some(places))
}

// The places in some tables that every counting combination of a side has, if lookups find one in
// each table.
fn determined_places<C: ChoiceView>(
    alloc: Global,
    side: &Side<'_, C>,
    tables: &[usize],
) -> Result<Option<Vec<usize>>, Memory>
    ensures { IfOk result (λ found. IfSome found
        (λ places. AreDetermined C.choices side.now tables.now places.items)) }
{
    let slots = settled(side, alloc)?;
    let found = chosen_in(alloc, tables, &slots)?;
    Ok(found)
}

// Whether a side has a combination with these places in some tables. The other tables are joined
// after them.
fn has_at<C: ChoiceView>(
    alloc: Global,
    side: &Side<'_, C>,
    tables: &[usize],
    seen: &[Expr],
    places: &[usize],
) -> Result<bool, Memory>
    requires below { All (λ table. table < length side.now.sets.now) tables.now }
    requires long { length places.now ≡ length tables.now }
    ensures { Decides (HasOneOf C.choices side.now seen.now
        (with_rows tables.now places.now (replicate (length side.now.sets.now) None))) result }
{
    let order = order_from(alloc, side, tables)?;
    let mut slots = slots_with(alloc, side.sets.len(), tables, places)?;
    has_joined(side, alloc, &order, seen, &mut slots)
}

// Whether both sides have a combination with these places in the common tables.
fn share_at<C: ChoiceView>(
    alloc: Global,
    sides: &Sides<'_, C>,
    places: &[usize],
) -> Result<bool, Memory>
    requires { HaveCommon sides.now }
    ensures { Decides (SharedBy C.choices sides.now places.now) result }
{
    if places.len() != sides.common.query.len() {
        // No tuple has this many places.
        return Ok(false);
    }
    if has_at(alloc, &sides.audit, &sides.common.audit, &[], places)? {
        return has_at(alloc, &sides.query, &sides.common.query, sides.seen, places);
    }
    Ok(false)
}

fn kept_if(test: bool, places: Vec<usize>) -> Option<Vec<usize>>
    ensures { result ≡ if test then Some places else None }
{
    if test { Some(places) } else { None }
}

// `told` if both sides have a combination with it. No other places can be shared.
fn first_told<C: ChoiceView>(
    alloc: Global,
    sides: &Sides<'_, C>,
    told: Vec<usize>,
) -> Result<Option<Vec<usize>>, Memory>
    requires common { HaveCommon sides.now }
    requires told { IsOnlyShared C.choices sides.now told.items }
    ensures { IfOk result (λ found. IsFirst (SharedBy C.choices sides.now)
        (option_map (λ places. places.items) found)) }
{
    let shares = share_at(alloc, sides, &told)?;
    Ok(kept_if(shares, told))
}

// The table, if there is exactly one.
fn only_table(tables: &[usize]) -> Option<usize>
    ensures { IfSome result (λ table. (length tables.now ≡ 1) × (table ≡ get_or tables.now 0 0)) }
{
    if tables.len() == 1 {
        Some(tables[0])
    } else {
        None
    }
}

// Places of a table's rows, in ascending order, so that every counting combination of a side has
// one of them. `None` unless it is the only table and lookups find few places.
fn few_places<C: ChoiceView>(
    alloc: Global,
    side: &Side<'_, C>,
    tables: &[usize],
) -> Result<Option<Vec<usize>>, Memory>
    requires { All (λ table. table < length side.now.sets.now) tables.now }
    ensures { IfOk result (λ found. IfSome found
        (λ places. AreFewOf C.choices side.now tables.now places.items)) }
{
    let Some(table) = only_table(tables) else {
        return Ok(None);
    };
    let found = hippo_join::few_places(side, alloc, table)?;
    let Some(places) = found else {
        return Ok(None);
    };
    let sorted = in_order(alloc, &places)?;
    Ok(Some(sorted))
}

// The places that lookups on a side find in some tables, if they do.
fn places_told<C: ChoiceView>(
    alloc: Global,
    side: &Side<'_, C>,
    tables: &[usize],
    how_many: HowMany,
) -> Result<Option<Vec<usize>>, Memory>
    requires { All (λ table. table < length side.now.sets.now) tables.now }
    ensures { IfOk result (λ found. IfSome found
        (λ places. AreToldOf how_many C.choices side.now tables.now places.items)) }
{
    match how_many {
        HowMany::Only => determined_places(alloc, side, tables),
        HowMany::Few => few_places(alloc, side, tables),
    }
}

// The places in the common tables that lookups on one side or the other find.
fn told_by_either<C: ChoiceView>(
    alloc: Global,
    sides: &Sides<'_, C>,
    how_many: HowMany,
) -> Result<Option<Vec<usize>>, Memory>
    requires { HaveCommon sides.now }
    ensures { IfOk result (λ found. IfSome found
        (λ told. AreToldShared how_many C.choices sides.now told.items)) }
{
    if let Some(places) = places_told(alloc, &sides.query, &sides.common.query, how_many)? {
        return Ok(Some(places));
    }
    let found = places_told(alloc, &sides.audit, &sides.common.audit, how_many)?;
    Ok(found)
}

fn single(alloc: Global, place: usize) -> Result<Places, Memory>
    ensures { IfOk result (λ single. single ≡ place ∷ []) }
{
    let mut single = Sequence::with_capacity(alloc, 1)?;
    single.push(place)?;
    Ok(single)
}

// Each place as a list of its own.
fn singles(alloc: Global, places: &[usize]) -> Result<Vec<Places>, Memory>
    ensures { IfOk result (λ singles. singles.items ≡ map (λ place. place ∷ []) places.now) }
{
    let mut singles = Vec::with_capacity(alloc, places.len())?;
    for place in places {
        let one = single(alloc, *place)?;
        singles.push(one)?;
    }
    Ok(singles)
}

fn copied(alloc: Global, places: Option<&Places>) -> Result<Option<Vec<usize>>, Memory>
    ensures { IfOk result (λ made. option_map (λ copy. copy.items) made
        ≡ option_copied places.entry) }
{
    match places {
        Some(places) => {
            let made = Vec::from_slice(alloc, places.as_slice())?;
            Ok(Some(made))
        }
        None => Ok(None),
    }
}

// The first of few places in the only common table for which both sides have a combination.
fn first_of_few<C: ChoiceView>(
    alloc: Global,
    sides: &Sides<'_, C>,
    few: &[usize],
) -> Result<Option<Vec<usize>>, Memory>
    requires common { HaveCommon sides.now }
    requires few { AreFewShared C.choices sides.now few.now }
    ensures { IfOk result (λ found. IsFirst (SharedBy C.choices sides.now)
        (option_map (λ places. places.items) found)) }
{
    let candidates = singles(alloc, few)?;
    first_candidate(alloc, sides, &candidates)
}

// The first places of rows in the common tables for which both sides have a combination. Uses
// lookups if they leave few places.
pub(crate) fn first_places<C: ChoiceView>(
    alloc: Global,
    sides: &Sides<'_, C>,
) -> Result<Option<Vec<usize>>, Memory>
    requires { HaveCommon sides.now }
    ensures { IfOk result (λ found. IsFirst (SharedBy C.choices sides.now)
        (option_map (λ places. places.items) found)) }
{
    if let Some(told) = told_by_either(alloc, sides, HowMany::Only)? {
        return first_told(alloc, sides, told);
    }
    if let Some(few) = told_by_either(alloc, sides, HowMany::Few)? {
        return first_of_few(alloc, sides, &few);
    }
    first_walked(alloc, sides)
}

// The first of the candidates for which both sides have a combination. Looks up each candidate.
fn first_looked_up<'p, C: ChoiceView>(
    alloc: Global,
    sides: &Sides<'_, C>,
    candidates: &'p [Places],
) -> Result<Option<&'p Places>, Memory>
    requires { HaveCommon sides.now }
    ensures { IfOk result (λ found. IsFirstAmong (SharedBy C.choices sides.now) candidates.now
        (option_copied found)) }
{
    for places in candidates {
        if share_at(alloc, sides, places.as_slice())? {
            return Ok(Some(places));
        }
    }
    Ok(None)
}

// The first of the candidates for which both sides have a combination.
pub(crate) fn first_candidate<C: ChoiceView>(
    alloc: Global,
    sides: &Sides<'_, C>,
    candidates: &[Places],
) -> Result<Option<Vec<usize>>, Memory>
    requires { HaveCommon sides.now }
    ensures { IfOk result (λ found. IsFirstAmong (SharedBy C.choices sides.now) candidates.now
        (option_map (λ places. places.items) found)) }
{
    if candidates.len() <= FEW {
        let found = first_looked_up(alloc, sides, candidates)?;
        return copied(alloc, found);
    }
    let found = first_staged(alloc, sides, candidates)?;
    copied(alloc, found)
}
