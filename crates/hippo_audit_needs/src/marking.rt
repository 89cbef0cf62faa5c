//! The marks of a query's groups, found by a walk over the combinations that count.
ghost use Rattle.std.specs.Prelude.{◌≡◌, [], ◌∷◌, ◌++◌, List, IfOk, OnOk};
ghost use Rattle.std.specs.List.{list_any};
ghost use Rattle.hippo_model.specs.declared.query.Shape as shapes;
ghost use Rattle.hippo_model.specs.Answers.{product};
ghost use Rattle.hippo_model.specs.Terms.{Place};
ghost use Rattle.hippo_eval.specs.Walks.{rows_of};
ghost use Rattle.hippo_join_stages.specs.Finding.{has_places};
ghost use Rattle.hippo_audit_needs.specs.GroupMarks.{PlacedRow, placed_rows, changes_without};
ghost use Rattle.hippo_audit_needs.specs.GroupMarks.{AreMarkedGroups};

use crate::group_marks::{GroupMarks, candidates, join_at, marks_of_first};
use hippo_audit_search::row_places;
use hippo_eval::{Onward, Visitor, passes, project};
use hippo_groups::{front, into_front};
use hippo_join::{visit_by_plan, walk_joined};
use hippo_model::{Cell, CellRow, ChoiceView, Combo, Masked, Places, Shape};
use hippo_tables_rows::Sets;
use hippo_values::Memory;
use indexmap::IndexSet;
use std::alloc::Global;
use std::collections::BTreeSet;

// The keys of the groups, in the order of their first members, with their marks at the same places.
#[derive(Drop)]
pub(crate) struct MarkedGroups {
    pub keys: IndexSet<Vec<Cell>>,
    pub marks: Vec<GroupMarks>,
}

impl MarkedGroups {
    fn new(alloc: Global) -> MarkedGroups
        ensures { (shape : shapes.Shape) → AreMarkedGroups shape [] result }
    {
        MarkedGroups {
            keys: IndexSet::new(alloc),
            marks: Vec::new(alloc),
        }
    }

    // Adds a row and the places of its combination to the row's group, or as the first member of a
    // new group.
    fn add(
        &mut self,
        alloc: Global,
        shape: &Shape,
        row: CellRow,
        places: &Places,
    ) -> Result<(), Memory>
        ensures { (found : List PlacedRow) → AreMarkedGroups shape.now found self.old
            → OnOk result (AreMarkedGroups shape.now
            (found ++ record { row = row; places = places.now } ∷ []) self.new) }
    {
        let key = front(&row, shape.keys);
        if let Some(place) = self.keys.get_index_of(key) {
            return join_at(alloc, &shape.outs, &mut self.marks, place, &row, places);
        }
        let first = marks_of_first(alloc, &shape.outs, &row, places)?;
        self.keys.insert(into_front(row, shape.keys))?;
        self.marks.push(first)?;
        Ok(())
    }

    // The places of the tuples without which some group changes.
    pub(crate) fn candidates(self, alloc: Global) -> Result<BTreeSet<Places>, Memory>
        ensures { IfOk result (λ candidates. (places : List Place)
            → has_places places candidates.keys
            ≡ list_any (changes_without places) self.marks.items) }
    {
        let MarkedGroups { marks, .. } = self;
        candidates(alloc, marks)
    }
}

// Marks the groups of a query of this shape, by the places of the rows in some tables.
#[derive(Drop)]
struct Marker<'a, C> {
    query: &'a Masked,
    shape: &'a Shape,
    sets: &'a Sets<'a>,
    tables: &'a [usize],
    choices: &'a C,
}

impl<'a, C: ChoiceView> Visitor for Marker<'a, C> {
    ghost use Rattle.hippo_audit_needs.specs.GroupMarks.{placed_rows};
    ghost use Rattle.hippo_audit_needs.specs.GroupMarks.{AreMarkedGroups};

    type State = MarkedGroups;

    ghost Keeps = { λ marker combinations groups. AreMarkedGroups marker.shape.now
        (placed_rows (C.choices marker.choices.now) marker.query.now marker.sets.now
        marker.tables.now combinations)
        groups };

    fn visit(
        &self,
        alloc: Global,
        groups: &mut MarkedGroups,
        combo: &Combo<'_>,
    ) -> Result<Onward, Memory> {
        if passes(self.query, combo, self.choices) {
            let row = project(alloc, self.query, combo, self.choices)?;
            let places = row_places(alloc, self.sets, self.tables, combo)?;
            groups.add(alloc, self.shape, row, &places)?;
        }
        Ok(Onward::More)
    }
}

// The marks of a query's groups, by the places of the rows in some of its tables.
pub(crate) fn marked_groups<C: ChoiceView>(
    alloc: Global,
    query: &Masked,
    shape: &Shape,
    sets: &Sets<'_>,
    tables: &[usize],
    choices: &C,
) -> Result<MarkedGroups, Memory>
    ensures { IfOk result (λ groups. AreMarkedGroups shape.now
        (placed_rows (C.choices choices.now) query.now sets.now tables.now
        (product (rows_of sets.now))) groups) }
{
    let marker = Marker {
        query,
        shape,
        sets,
        tables,
        choices,
    };
    let mut groups = MarkedGroups::new(alloc);
    if visit_by_plan(alloc, query, sets, choices, &marker, &mut groups)? {
        return Ok(groups);
    }
    let mut groups = MarkedGroups::new(alloc);
    walk_joined(alloc, query, sets, choices, &marker, &mut groups)?;
    Ok(groups)
}
