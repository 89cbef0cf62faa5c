//! The candidate rows of a stage, given the rows chosen before it.
ghost use Rattle.std.specs.Prelude.{◌≡◌, ◌<◌, ◌+◌, ◌-◌, true, IfOk, length, get_or, slice_get, unwrap_or};
ghost use Rattle.std.specs.List.{range_with_len};
ghost use Rattle.std.specs.List.Sorted.{IsStrictlyIncreasing};
ghost use Rattle.hippo_join_lookups.specs.Places.{rows_at};
ghost use Rattle.hippo_join_lookups.specs.Known.{is_open};
ghost use Rattle.hippo_join_stages.specs.Stages.{AllQualify, ReachesFrom, suffices};
ghost use Rattle.hippo_join_stages.specs.Walking.{candidate_places, IsWalkable};

use crate::keys::Span;
use crate::seeking::WALKED;
use crate::sides::Side;
use crate::stages::Stage;
use hippo_model::{ChoiceView, Combo};
use hippo_values::Memory;
use std::alloc::Global;

/// Candidate places of a stage: a part of its materialised places, a range found by a key lookup,
/// or places found through an order of another column.
#[derive(Drop)]
pub enum Following<'s> {
    Listed(&'s [usize]),
    Searched(Span),
    Found(Vec<usize>),
}

// The place at an index of a list; 0 past its end.
fn place_at(places: &[usize], index: usize) -> usize
    ensures { result ≡ unwrap_or (slice_get places.now index) 0 }
{
    match places.get(index) {
        Some(place) => *place,
        None => 0,
    }
}

fn place_in(start: usize, end: usize, index: usize) -> usize
    requires { index < end - start }
    ensures { result ≡ start + index }
{
    start + index
}

/// Whether places strictly ascend.
pub fn ascends(places: &[usize]) -> bool
    ensures { result ≡ true → IsStrictlyIncreasing places.now }
{
    for index in 1..places.len() {
        if places[index - 1] >= places[index] {
            return false;
        }
    }
    true
}

impl<'s> Following<'s> {
    /// Whether the places strictly ascend.
    pub fn rises(&self) -> bool
        ensures { result ≡ true → IsStrictlyIncreasing (candidate_places self.now) }
    {
        match self {
            Following::Listed(places) => ascends(places),
            Following::Searched(_) => true,
            Following::Found(places) => ascends(places),
        }
    }

    /// The number of places.
    pub fn len(&self) -> usize
        ensures { result ≡ length (candidate_places self.now) }
    {
        match self {
            Following::Listed(places) => places.len(),
            Following::Searched(span) => span.len(),
            Following::Found(places) => places.len(),
        }
    }

    /// The place at an index, counted from 0.
    pub fn place(&self, index: usize) -> usize
        requires { index < length (candidate_places self.now) }
        ensures { result ≡ get_or (candidate_places self.now) index 0 }
    {
        match self {
            Following::Listed(places) => place_at(places, index),
            Following::Searched(span) => place_in(span.start, span.end, index),
            Following::Found(places) => place_at(places, index),
        }
    }
}

// The places of a span, in order, as a list.
fn listed_span(alloc: Global, span: Span) -> Result<Vec<usize>, Memory>
    ensures { IfOk result (λ places. places.items
        ≡ range_with_len span.start (span.end - span.start)) }
{
    let mut places = Vec::with_capacity(alloc, span.len())?;
    for place in span.start..span.end {
        places.push(place)?;
    }
    Ok(places)
}

/// The places as a list.
pub fn listed(alloc: Global, following: &Following<'_>) -> Result<Vec<usize>, Memory>
    ensures { IfOk result (λ places. places.items ≡ candidate_places following.now) }
{
    match following {
        Following::Listed(places) => Ok(Vec::from_slice(alloc, places)?),
        Following::Searched(span) => listed_span(alloc, *span),
        Following::Found(places) => Ok(Vec::from_slice(alloc, places.as_slice())?),
    }
}

impl<'a, C: ChoiceView> Side<'a, C> {
    /// The candidate places of a stage, given the chosen rows, which are passed in too. A lookup
    /// takes time that grows with the logarithm of the table's size and with the number of rows
    /// found. A lookup by key allocates memory for the key only.
    #[inline(always)]
    pub fn following<'s>(
        &self,
        alloc: Global,
        stage: &'s Stage,
        slots: &[Option<usize>],
        rows: &Combo<'_>,
    ) -> Result<Following<'s>, Memory>
        requires table { stage.now.table < length self.now.sets.now }
        requires stage { IsWalkable (C.choices self.now.choices.now) self.now.query.now
            self.now.sets.now stage.now }
        requires rows { rows.now ≡ rows_at self.now.sets.now slots.now }
        ensures reaches { IfOk result (λ following. ReachesFrom
            (C.choices self.now.choices.now) self.now.query.now self.now.sets.now
            slots.now stage.now.table (candidate_places following)) }
        ensures count { IfOk result (λ following. is_open slots.now stage.now.table ≡ true
            → suffices stage.now slots.now ≡ true
            → AllQualify (C.choices self.now.choices.now) self.now.query.now self.now.sets.now
            slots.now stage.now.table (candidate_places following)) }
    {
        if stage.is_searched {
            // The only table of a query is scanned once; any other table is scanned repeatedly.
            let walked = if self.sets.len() == 1 { WALKED } else { 1 };
            self.candidates(alloc, stage.table, slots, walked)
        } else {
            Ok(Following::Listed(self.places_after(stage, slots, rows)))
        }
    }
}
