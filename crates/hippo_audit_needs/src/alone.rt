//! The first virtual tuple that a DISTINCT query needs and an audit has. One walk over the query's
//! combinations marks the rows of its answer.
ghost use Rattle.std.specs.Prelude.{◌≡◌, [], ◌∷◌, ◌++◌, List, IfOk, OnOk, cond};
ghost use Rattle.std.specs.BTreeMap.{IsOrdered};
ghost use Rattle.std.specs.List.{list_any};
ghost use Rattle.std.specs.Ordering.{is_eq};
ghost use Rattle.hippo_model.specs.declared.query.Form.TheVariants.{Distinct};
ghost use Rattle.hippo_model.specs.Answers.{product};
ghost use Rattle.hippo_model.specs.Terms.{Place, ShownRow};
ghost use Rattle.hippo_eval.specs.Walks.{rows_of};
ghost use Rattle.hippo_join_stages.specs.Finding.{has_places};
ghost use Rattle.hippo_audit_search.specs.Comparing.{HaveRows, needed_between};
ghost use Rattle.hippo_audit_search.specs.Marks.{mark_of, is_one};
ghost use Rattle.hippo_audit_needs.specs.AloneRows.{AreMarked, mark_at};

use hippo_audit_common::common_places;
use hippo_audit_search::{Compared, Mark, audit_has_any, first_of, know_order, row_places};
use hippo_eval::{Onward, Visitor, passes, project};
use hippo_join::{visit_by_plan, walk_joined};
use hippo_model::{Cell, CellRow, ChoiceView, Combo, Masked, Places, SharedTuple};
use hippo_tables_rows::Sets;
use hippo_values::{Memory, Sequence};
use std::alloc::Global;
use std::collections::{BTreeMap, BTreeSet};

// Adds a combination to the marks. It makes this row and has the tuple of these places.
fn mark(marks: &mut BTreeMap<CellRow, Mark>, row: CellRow, places: Places) -> Result<(), Memory>
    ensures { (tuples : List (List Place))
        → mark_at ⟦<Sequence<Cell> as Ord>⟧.cmp marks.old row ≡ mark_of tuples
        → OnOk result ((other : ShownRow)
        → mark_at ⟦<Sequence<Cell> as Ord>⟧.cmp marks.new other
        ≡ cond (is_eq (⟦<Sequence<Cell> as Ord>⟧.cmp row other))
        (mark_of (tuples ++ places ∷ []))
        (mark_at ⟦<Sequence<Cell> as Ord>⟧.cmp marks.old other)) }
{
    let mark = marks.get(&row).unwrap_or(&Mark::Unmarked).with(places);
    marks.insert(row, mark)?;
    Ok(())
}

// Marks the rows of a query's answer, by the places of each combination's rows in some tables.
#[derive(Drop)]
struct Marker<'a, C> {
    query: &'a Masked,
    sets: &'a Sets<'a>,
    tables: &'a [usize],
    choices: &'a C,
}

impl<'a, C: ChoiceView> Visitor for Marker<'a, C> {
    ghost use Rattle.hippo_audit_needs.specs.AloneRows.{AreMarked};

    type State = BTreeMap<CellRow, Mark>;

    ghost Keeps = { λ marker combinations marks. AreMarked ⟦<Sequence<Cell> as Ord>⟧.cmp
        (C.choices marker.choices.now) marker.query.now marker.sets.now marker.tables.now
        combinations marks };

    fn visit(
        &self,
        alloc: Global,
        state: &mut BTreeMap<CellRow, Mark>,
        combo: &Combo<'_>,
    ) -> Result<Onward, Memory> {
        if passes(self.query, combo, self.choices) {
            let row = project(alloc, self.query, combo, self.choices)?;
            let places = row_places(alloc, self.sets, self.tables, combo)?;
            mark(state, row, places)?;
        }
        Ok(Onward::More)
    }
}

fn row_marks<C: ChoiceView>(
    alloc: Global,
    query: &Masked,
    sets: &Sets<'_>,
    tables: &[usize],
    choices: &C,
) -> Result<BTreeMap<CellRow, Mark>, Memory>
    ensures { IfOk result (λ marks. AreMarked ⟦<Sequence<Cell> as Ord>⟧.cmp
        (C.choices choices.now) query.now
        sets.now tables.now (product (rows_of sets.now)) marks) }
{
    let marker = Marker {
        query: &*query,
        sets: &*sets,
        tables: &*tables,
        choices: &*choices,
    };
    let mut marks = BTreeMap::new(alloc);
    if visit_by_plan(alloc, query, sets, choices, &marker, &mut marks)? {
        return Ok(marks);
    }
    let mut marks = BTreeMap::new(alloc);
    walk_joined(alloc, query, sets, choices, &marker, &mut marks)?;
    Ok(marks)
}

// The places of the tuples that some row of the answer comes from alone.
fn alone(alloc: Global, marks: BTreeMap<CellRow, Mark>) -> Result<BTreeSet<Places>, Memory>
    ensures order { IsOrdered ⟦<Sequence<Cell> as Ord>⟧.cmp marks }
    ensures places { IfOk result (λ candidates. (places : List Place)
        → has_places places candidates.keys
        ≡ list_any (λ entry. is_one places entry.1) marks.entries) }
{
    let mut candidates = BTreeSet::new(alloc);
    for (_, mark) in marks {
        mark.add_to(&mut candidates)?;
    }
    Ok(candidates)
}

/// Returns the first virtual tuple that a DISTINCT query needs and an audit has, or `None` if there
/// is none. A virtual tuple is a row of each table in both FROM lists, by its key, in the audit's
/// order. The query needs a tuple if some row of its answer comes only from combinations with the
/// tuple. The tuple must be in a combination that makes a row of the answer and in which every
/// expression of `seen` is a shown cell. It must also be in a combination of the audit's rows of
/// which the audit's condition is true. The requirements are those of `first_shared`.
///
/// The time is that of the query's own answer, unless no combination of the audit's rows counts.
/// The memory is proportional to the number of different rows, apart from what `visit_by_plan`
/// holds.
pub(crate) fn first_alone<C: ChoiceView>(
    alloc: Global,
    compared: &Compared<'_, C>,
) -> Result<Option<SharedTuple>, Memory>
    requires { HaveRows compared.now }
    ensures { IfOk result (λ shared. shared ≡ needed_between C.choices Distinct compared.now) }
{
    if !audit_has_any(alloc, compared.audited)? {
        return Ok(None);
    }
    know_order(compared.audited.audit_sets);
    let tables = compared.audited.audit.tables.as_slice();
    let common = common_places(alloc, compared.query.tables.as_slice(), tables)?;
    let marks = row_marks(
        alloc,
        compared.query,
        compared.audited.query_sets,
        &common.query,
        compared.audited.choices,
    )?;
    let candidates = alone(alloc, marks)?;
    first_of(alloc, candidates, compared)
}
