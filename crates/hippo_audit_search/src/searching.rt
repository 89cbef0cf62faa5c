//! The search for the first places of rows in the common tables for which both sides have a
//! combination.
ghost use Rattle.std.specs.Prelude.{◌≡◌, ◌<◌, [], ◌∷◌, None, Some, IfOk, length, option_copied, option_map, replicate, slice_set, true, ◌⊎◌};
ghost use Rattle.std.specs.List.{All};
ghost use Rattle.std.specs.List.Sorted.{IsNonDecreasing, IsPermutation};
ghost use Rattle.hippo_join.specs.Existence.{Decides};
ghost use Rattle.hippo_audit_search.specs.FirstPlaces.{AreCommon, IsFirst, IsFirstAmong, with_rows};
ghost use Rattle.hippo_audit_search.specs.Searching.{AreWholeOf, BeginWith, FindsFirst, FindsFirstOf, HasOneOf, HaveCommon, IsSearchReady, IsStageOf, ReachesOf, Shared, SharedBy, SharedPlaces};

use crate::sides::Sides;
use hippo_audit_common::{CommonPlaces, CommonStages, common_stages, order_from};
use hippo_join::has;
use hippo_join_stages::{Side, Stage, open_slots};
use hippo_model::{ChoiceView, Expr, Places};
use hippo_values::Memory;
use std::alloc::Global;

// A query and an audit, the stages of each, and the expressions that must be shown to the query.
#[derive(Drop)]
struct Search<'a, C> {
    query: &'a Side<'a, C>,
    audit: &'a Side<'a, C>,
    query_stages: &'a [Stage],
    audit_stages: &'a [Stage],
    seen: &'a [Expr],
}

fn shorter<'s>(some: &'s [usize], others: &'s [usize]) -> &'s [usize]
    ensures { (result.now ≡ some.now) ⊎ (result.now ≡ others.now) }
{
    if others.len() < some.len() {
        others
    } else {
        some
    }
}

pub(crate) fn in_order(alloc: Global, places: &[usize]) -> Result<Vec<usize>, Memory>
    ensures permutation { IfOk result (λ sorted. IsPermutation places.now sorted.items) }
    ensures order { IfOk result (λ sorted. IsNonDecreasing sorted.items) }
{
    let mut sorted = Vec::from_slice(alloc, places)?;
    sorted.sort_unstable();
    Ok(sorted)
}

fn with_first(place: usize, mut others: Vec<usize>) -> Result<Vec<usize>, Memory>
    ensures { IfOk result (λ places. places.items ≡ place ∷ others.items) }
{
    others.insert(0, place)?;
    Ok(others)
}

// The slots of `count` tables, with the rows of `tables` chosen at `places`.
pub(crate) fn slots_with(
    alloc: Global,
    count: usize,
    tables: &[usize],
    places: &[usize],
) -> Result<Vec<Option<usize>>, Memory>
    requires below { All (λ table. table < count) tables.now }
    requires long { length places.now ≡ length tables.now }
    ensures { IfOk result (λ slots. slots.items
        ≡ with_rows tables.now places.now (replicate count None)) }
{
    let mut slots = open_slots(alloc, count)?;
    for (index, table) in tables.iter().enumerate() {
        slots[*table] = Some(places[index]);
    }
    Ok(slots)
}

impl<'a, C: ChoiceView> Search<'a, C> {
    // The places that a common table's row may have, in ascending order. They are those of the side
    // with fewer.
    fn places_of(
        &self,
        alloc: Global,
        stages: &CommonStages<'_>,
        query: &[Option<usize>],
        audit: &[Option<usize>],
    ) -> Result<Vec<usize>, Memory>
        requires query { IsStageOf C.choices self.now.query.now stages.now.query.now }
        requires audit { IsStageOf C.choices self.now.audit.now stages.now.audit.now }
        ensures order { IfOk result (λ places. IsNonDecreasing places.items) }
        ensures reach { IfOk result (λ places.
            ReachesOf C.choices self.now.query.now stages.now.query.now query.now places.items
            ⊎ ReachesOf C.choices self.now.audit.now stages.now.audit.now audit.now places.items) }
    {
        let places = self.query.places_of(stages.query, query);
        let others = self.audit.places_of(stages.audit, audit);
        in_order(alloc, shorter(places, others))
    }

    // Whether both sides may have a combination with the chosen rows, by the tests of their two
    // stages.
    fn may_share(
        &self,
        alloc: Global,
        stages: &CommonStages<'_>,
        query: &[Option<usize>],
        audit: &[Option<usize>],
    ) -> Result<bool, Memory>
        ensures { IfOk result (λ may. HasOneOf C.choices self.now.query.now self.now.seen.now
            query.now
            → HasOneOf C.choices self.now.audit.now [] audit.now → may ≡ true) }
    {
        Ok(
            self.query.may_count(alloc, &stages.query.tests, query)?
                && self.audit.may_count(alloc, &stages.audit.tests, audit)?,
        )
    }

    // The search when no table is left: an empty list of places, if both sides have a combination
    // with the chosen rows.
    fn first_of_none(
        &self,
        alloc: Global,
        query: &mut [Option<usize>],
        audit: &mut [Option<usize>],
    ) -> Result<Option<Vec<usize>>, Memory>
        requires { IsSearchReady C.choices self.now [] query.old audit.old }
        ensures { FindsFirst C.choices self.now [] query.old audit.old query.new audit.new result }
    {
        let shares = has(self.query, alloc, self.query_stages, self.seen, query)?
            && has(self.audit, alloc, self.audit_stages, &[], audit)?;
        Ok(if shares { Some(Vec::new(alloc)) } else { None })
    }

    // The first places in the tables of `rest`, with the row at `place` chosen in this stage's
    // table. `None` without a search if the tests of the two stages allow no combination.
    #[cycle(first)]
    fn first_onward(
        &self,
        alloc: Global,
        stages: &CommonStages<'_>,
        rest: &[CommonStages<'_>],
        place: usize,
        query: &mut [Option<usize>],
        audit: &mut [Option<usize>],
    ) -> Result<Option<Vec<usize>>, Memory>
        requires { IsSearchReady C.choices self.now (stages.now ∷ rest.now) query.old audit.old }
        ensures { FindsFirstOf (Shared C.choices self.now rest.now
            (slice_set query.old stages.now.query.now.table (Some place))
            (slice_set audit.old stages.now.audit.now.table (Some place)))
            query.old audit.old query.new audit.new result }
    {
        query[stages.query.table] = Some(place);
        audit[stages.audit.table] = Some(place);
        let found = if self.may_share(alloc, stages, query, audit)? {
            self.first(alloc, rest, query, audit)?
        } else {
            None
        };
        query[stages.query.table] = None;
        audit[stages.audit.table] = None;
        Ok(found)
    }

    // The first places in the common tables that are left, in the order of the tables, given the
    // rows that are chosen.
    #[cycle(first)]
    fn first(
        &self,
        alloc: Global,
        common: &[CommonStages<'_>],
        query: &mut [Option<usize>],
        audit: &mut [Option<usize>],
    ) -> Result<Option<Vec<usize>>, Memory>
        requires { IsSearchReady C.choices self.now common.now query.old audit.old }
        ensures { FindsFirst C.choices self.now common.now query.old audit.old query.new audit.new
            result }
    {
        let Some((stages, rest)) = common.split_first() else {
            return self.first_of_none(alloc, query, audit);
        };
        let places = self.places_of(alloc, stages, query, audit)?;
        for place in &places {
            if let Some(others) = self.first_onward(alloc, stages, rest, *place, query, audit)? {
                return Ok(Some(with_first(*place, others)?));
            }
        }
        Ok(None)
    }
}

impl<'a, C: ChoiceView> Search<'a, C> {
    // Whether both sides have a combination with these places in the common tables.
    fn shares(&self, alloc: Global, common: &CommonPlaces, places: &[usize]) -> Result<bool, Memory>
        requires common { AreCommon (length self.now.query.now.sets.now)
            (length self.now.audit.now.sets.now)
            common.now.query.items common.now.audit.items }
        requires query { AreWholeOf C.choices self.now.query.now self.now.query_stages.now }
        requires audit { AreWholeOf C.choices self.now.audit.now self.now.audit_stages.now }
        ensures { Decides (SharedPlaces C.choices self.now.query.now self.now.audit.now
            self.now.seen.now
            common.now.query.items common.now.audit.items places.now) result }
    {
        if places.len() != common.query.len() {
            // No tuple has this many places.
            return Ok(false);
        }
        let mut query = slots_with(alloc, self.query.sets.len(), &common.query, places)?;
        let mut audit = slots_with(alloc, self.audit.sets.len(), &common.audit, places)?;
        if has(self.audit, alloc, self.audit_stages, &[], &mut audit)? {
            return has(self.query, alloc, self.query_stages, self.seen, &mut query);
        }
        Ok(false)
    }

    // The first of the candidates for which both sides have a combination.
    fn first_of<'p>(
        &self,
        alloc: Global,
        common: &CommonPlaces,
        candidates: &'p [Places],
    ) -> Result<Option<&'p Places>, Memory>
        requires common { AreCommon (length self.now.query.now.sets.now)
            (length self.now.audit.now.sets.now)
            common.now.query.items common.now.audit.items }
        requires query { AreWholeOf C.choices self.now.query.now self.now.query_stages.now }
        requires audit { AreWholeOf C.choices self.now.audit.now self.now.audit_stages.now }
        ensures { IfOk result (λ found. IsFirstAmong
            (SharedPlaces C.choices self.now.query.now self.now.audit.now
            self.now.seen.now common.now.query.items common.now.audit.items) candidates.now
            (option_copied found)) }
    {
        for places in candidates {
            if self.shares(alloc, common, places.as_slice())? {
                return Ok(Some(places));
            }
        }
        Ok(None)
    }
}

// The stages of a side's tables, with those of `first` at the front.
fn stages_from<C: ChoiceView>(
    alloc: Global,
    side: &Side<'_, C>,
    first: &[usize],
) -> Result<Vec<Stage>, Memory>
    requires { All (λ table. table < length side.now.sets.now) first.now }
    ensures whole { IfOk result (λ stages. AreWholeOf C.choices side.now stages.items) }
    ensures front { IfOk result (λ stages.
        BeginWith stages.items first.now) }
{
    let order = order_from(alloc, side, first)?;
    side.stages(alloc, &order)
}

// The first of the candidates for which both sides have a combination. Makes the stages of all
// tables first.
pub(crate) fn first_staged<'p, C: ChoiceView>(
    alloc: Global,
    sides: &Sides<'_, C>,
    candidates: &'p [Places],
) -> Result<Option<&'p Places>, Memory>
    requires { HaveCommon sides.now }
    ensures { IfOk result (λ found.
        IsFirstAmong (SharedBy C.choices sides.now) candidates.now (option_copied found)) }
{
    let query_stages = stages_from(alloc, &sides.query, &sides.common.query)?;
    let audit_stages = stages_from(alloc, &sides.audit, &sides.common.audit)?;
    let search = Search {
        query: &sides.query,
        audit: &sides.audit,
        query_stages: &query_stages,
        audit_stages: &audit_stages,
        seen: sides.seen,
    };
    search.first_of(alloc, sides.common, candidates)
}

// The result of `first_walked`, given the stages of both sides with the common tables first.
fn first_along<C: ChoiceView>(
    alloc: Global,
    sides: &Sides<'_, C>,
    query_stages: &[Stage],
    audit_stages: &[Stage],
) -> Result<Option<Vec<usize>>, Memory>
    requires common { HaveCommon sides.now }
    requires query { AreWholeOf C.choices sides.now.query query_stages.now }
    requires audit { AreWholeOf C.choices sides.now.audit audit_stages.now }
    requires query_front { BeginWith query_stages.now sides.now.common.now.query.items }
    requires audit_front { BeginWith audit_stages.now sides.now.common.now.audit.items }
    ensures { IfOk result (λ found.
        IsFirst (SharedBy C.choices sides.now) (option_map (λ places. places.items) found)) }
{
    let stages = common_stages(alloc, sides.common.query.len(), query_stages, audit_stages)?;
    let mut query_slots = open_slots(alloc, sides.query.sets.len())?;
    let mut audit_slots = open_slots(alloc, sides.audit.sets.len())?;
    let search = Search {
        query: &sides.query,
        audit: &sides.audit,
        query_stages,
        audit_stages,
        seen: sides.seen,
    };
    search.first(alloc, &stages, &mut query_slots, &mut audit_slots)
}

// The first places of rows in the common tables for which both sides have a combination. Tries the
// rows in order.
pub(crate) fn first_walked<C: ChoiceView>(
    alloc: Global,
    sides: &Sides<'_, C>,
) -> Result<Option<Vec<usize>>, Memory>
    requires { HaveCommon sides.now }
    ensures { IfOk result (λ found.
        IsFirst (SharedBy C.choices sides.now) (option_map (λ places. places.items) found)) }
{
    let query_stages = stages_from(alloc, &sides.query, &sides.common.query)?;
    let audit_stages = stages_from(alloc, &sides.audit, &sides.common.audit)?;
    first_along(alloc, sides, &query_stages, &audit_stages)
}
