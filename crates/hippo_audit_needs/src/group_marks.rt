//! The marks of a group, from which follows without which virtual tuples the group changes. They
//! are updated member by member.
ghost use Rattle.std.specs.Prelude.{◌≡◌, ◌+◌, ◌<◌, [], ◌∷◌, ◌++◌, ◌||◌, List, length, map, IfOk, OnOk};
ghost use Rattle.std.specs.List.{list_any};
ghost use Rattle.hippo_model.specs.Terms.{Place};
ghost use Rattle.hippo_model.specs.Forms.{least_value, greatest_value};
ghost use Rattle.hippo_join_stages.specs.Finding.{has_places};
ghost use Rattle.hippo_audit_search.specs.Marks.{mark_of};
ghost use Rattle.hippo_audit_needs.specs.declared.group_marks.GroupMarks as marks;
ghost use Rattle.hippo_audit_needs.specs.GroupMarks.{PlacedRow, best_of, best_after, TakesMember, marks_of, is_best_changed, changes_without, AreJoinedBests};

use hippo_audit_search::Mark;
use hippo_groups::{is_greater, is_lesser, value_at};
use hippo_model::{CellRow, Out, Outs, Places};
use hippo_values::{Duplicate, Memory, Sequence, Value};
use std::alloc::Global;
use std::collections::BTreeSet;
use std::mem;

// The best value of a group's members, and the mark of the members that have it.
#[derive(Drop)]
pub(crate) struct Best {
    pub value: Value,
    pub mark: Mark,
}

// The mark of a group's members, and the best of their values for each output.
#[derive(Drop)]
pub(crate) struct GroupMarks {
    pub mark: Mark,
    pub bests: Sequence<Best>,
}

fn copied(alloc: Global, places: &Places) -> Result<Places, Memory>
    ensures { IfOk result (λ copy. copy ≡ places.now) }
{
    Sequence::from_slice(alloc, places.as_slice())
}

// Adds the places of one more tuple to a mark.
fn mark_with(alloc: Global, mark: &mut Mark, places: &Places) -> Result<(), Memory>
    ensures { (tuples : List (List Place)) → mark.old ≡ mark_of tuples
        → OnOk result (mark.new ≡ mark_of (tuples ++ places.now ∷ [])) }
{
    *mark = mark.with(copied(alloc, places)?);
    Ok(())
}

// The best value if only one member has it.
fn best_alone(alloc: Global, value: &Value, places: &Places) -> Result<Best, Memory>
    ensures { IfOk result (λ best. best ≡ record
        { value = value.now; mark = mark_of (places.now ∷ []) }) }
{
    let places = copied(alloc, places)?;
    Ok(Best {
        value: value.copy(alloc)?,
        mark: Mark::One(places),
    })
}

// Adds one more value to a best value. An equal value adds to the mark; a better one replaces the
// value and the mark.
fn take(
    alloc: Global,
    best: &mut Best,
    value: &Value,
    is_better: bool,
    places: &Places,
) -> Result<(), Memory>
    ensures { (who : List (List Place)) → best.old.mark ≡ mark_of who
        → OnOk result (best.new ≡ best_after best.old.value who value.now is_better places.now) }
{
    if *value == best.value {
        return mark_with(alloc, &mut best.mark, places);
    }
    if is_better {
        *best = best_alone(alloc, value, places)?;
    }
    Ok(())
}

// Adds the value of one more member to the least value.
fn lower(alloc: Global, best: &mut Best, value: &Value, places: &Places) -> Result<(), Memory>
    ensures { TakesMember least_value value.now places.now result best.old best.new }
{
    let is_better = is_lesser(value, &best.value);
    take(alloc, best, value, is_better, places)
}

// Adds the value of one more member to the greatest value.
fn raise(alloc: Global, best: &mut Best, value: &Value, places: &Places) -> Result<(), Memory>
    ensures { TakesMember greatest_value value.now places.now result best.old best.new }
{
    let is_better = is_greater(value, &best.value);
    take(alloc, best, value, is_better, places)
}

// Adds one more member to the best value of an output.
fn join_best(
    alloc: Global,
    out: Out,
    best: &mut Best,
    row: &CellRow,
    places: &Places,
) -> Result<(), Memory>
    ensures { (members : List PlacedRow) → best.old ≡ best_of members out
        → OnOk result (best.new ≡ best_of
        (members ++ record { row = row.now; places = places.now } ∷ []) out) }
{
    match out {
        Out::Column(_) => Ok(()),
        Out::Min(place) => lower(
            alloc,
            best,
            value_at(row, place).unwrap_or(&Value::Null),
            places,
        ),
        Out::Max(place) => raise(
            alloc,
            best,
            value_at(row, place).unwrap_or(&Value::Null),
            places,
        ),
    }
}

// Adds one more member to the best value at `place`. The best values before it already have this
// member.
fn join_place(
    alloc: Global,
    outs: &Outs,
    bests: &mut [Best],
    place: usize,
    row: &CellRow,
    places: &Places,
) -> Result<(), Memory>
    requires { place < length outs.now }
    ensures { (members : List PlacedRow)
        → AreJoinedBests members (members
        ++ record { row = row.now; places = places.now } ∷ []) outs.now place bests.old
        → OnOk result (AreJoinedBests members
        (members ++ record { row = row.now; places = places.now } ∷ []) outs.now
        (place + 1) bests.new) }
{
    if place >= bests.len() {
        return Ok(());
    }
    join_best(alloc, *outs.get(place), &mut bests[place], row, places)
}

// Adds one more member to the best values of its group.
fn join(
    alloc: Global,
    outs: &Outs,
    bests: &mut [Best],
    row: &CellRow,
    places: &Places,
) -> Result<(), Memory>
    ensures { (members : List PlacedRow) → bests.old ≡ map (best_of members) outs.now
        → OnOk result (bests.new
        ≡ map (best_of (members ++ record { row = row.now; places = places.now } ∷ [])) outs.now) }
{
    for place in 0..outs.len() {
        join_place(alloc, outs, bests, place, row, places)?;
    }
    Ok(())
}

// The marks of a group with one more member.
fn joined(
    alloc: Global,
    outs: &Outs,
    group: GroupMarks,
    row: &CellRow,
    places: &Places,
) -> Result<GroupMarks, Memory>
    ensures { (members : List PlacedRow) → group ≡ marks_of outs.now members
        → IfOk result (λ new. new ≡ marks_of outs.now
        (members ++ record { row = row.now; places = places.now } ∷ [])) }
{
    let GroupMarks { mut mark, bests } = group;
    let mut bests = bests.into_vec();
    join(alloc, outs, &mut bests, row, places)?;
    mark_with(alloc, &mut mark, places)?;
    Ok(GroupMarks {
        mark,
        bests: Sequence::from_vec(bests),
    })
}

// The marks of a group without members.
fn no_marks(alloc: Global, outs: &Outs) -> Result<GroupMarks, Memory>
    ensures { IfOk result (λ group. group ≡ marks_of outs.now []) }
{
    let mut bests = Vec::with_capacity(alloc, outs.len())?;
    for _ in outs.as_slice() {
        bests.push(Best {
            value: Value::Null,
            mark: Mark::Unmarked,
        })?;
    }
    Ok(GroupMarks {
        mark: Mark::Unmarked,
        bests: Sequence::from_vec(bests),
    })
}

// The marks of a group with one member.
pub(crate) fn marks_of_first(
    alloc: Global,
    outs: &Outs,
    row: &CellRow,
    places: &Places,
) -> Result<GroupMarks, Memory>
    ensures { IfOk result (λ group.
        group ≡ marks_of outs.now (record { row = row.now; places = places.now } ∷ [])) }
{
    let none = no_marks(alloc, outs)?;
    joined(alloc, outs, none, row, places)
}

// Adds one more member to the marks of the group at a place.
pub(crate) fn join_at(
    alloc: Global,
    outs: &Outs,
    groups: &mut [GroupMarks],
    place: usize,
    row: &CellRow,
    places: &Places,
) -> Result<(), Memory>
    ensures { (front back : List marks.GroupMarks) (members : List PlacedRow)
        → groups.old ≡ front ++ marks_of outs.now members ∷ back → place ≡ length front
        → OnOk result (groups.new
        ≡ front ++ marks_of outs.now (members ++ record { row = row.now; places = places.now } ∷ [])
        ∷ back) }
{
    if place >= groups.len() {
        return Ok(());
    }
    let meanwhile = GroupMarks {
        mark: Mark::Unmarked,
        bests: Sequence::new(alloc),
    };
    let group = mem::replace(&mut groups[place], meanwhile);
    groups[place] = joined(alloc, outs, group, row, places)?;
    Ok(())
}

// Adds the tuple without which a best value changes, if there is one.
fn add_of_best(best: Best, candidates: &mut BTreeSet<Places>) -> Result<(), Memory>
    ensures { OnOk result ((places : List Place) → has_places places candidates.new.keys
        ≡ (is_best_changed places best || has_places places candidates.old.keys)) }
{
    match best.value {
        Value::Null => Ok(()),
        _ => best.mark.add_to(candidates),
    }
}

// Adds the tuples without which some best value changes.
fn add_of_bests(bests: Vec<Best>, candidates: &mut BTreeSet<Places>) -> Result<(), Memory>
    ensures { OnOk result ((places : List Place) → has_places places candidates.new.keys
        ≡ (list_any (is_best_changed places) bests.items
        || has_places places candidates.old.keys)) }
{
    for best in bests {
        add_of_best(best, candidates)?;
    }
    Ok(())
}

// Adds the tuples without which a group is gone or one of its best values changes.
fn add_of_group(group: GroupMarks, candidates: &mut BTreeSet<Places>) -> Result<(), Memory>
    ensures { OnOk result ((places : List Place) → has_places places candidates.new.keys
        ≡ (changes_without places group || has_places places candidates.old.keys)) }
{
    let GroupMarks { mark, bests } = group;
    add_of_bests(bests.into_vec(), candidates)?;
    mark.add_to(candidates)
}

// The places of the tuples without which some group changes.
pub(crate) fn candidates(alloc: Global, groups: Vec<GroupMarks>) -> Result<BTreeSet<Places>, Memory>
    ensures { IfOk result (λ candidates. (places : List Place)
        → has_places places candidates.keys ≡ list_any (changes_without places) groups.items) }
{
    let mut candidates = BTreeSet::new(alloc);
    for group in groups {
        add_of_group(group, &mut candidates)?;
    }
    Ok(candidates)
}
