//! Walks the qualifying combinations in the order of the product.
ghost use Rattle.std.specs.Prelude.{◌++◌, List, OnOk};
ghost use Rattle.hippo_model.specs.Terms.{Combination};
ghost use Rattle.hippo_model.specs.Answers.{product};
ghost use Rattle.hippo_eval.specs.Walks.{rows_of};
ghost use Rattle.hippo_join_stages.specs.Visiting.{counting};

use crate::joins::{blank_row, side_of};
use crate::orders::tables_below;
use crate::walking::{PlaceVisitor, walk_all};
use hippo_eval::{Onward, Visitor};
use hippo_join_stages::Side;
use hippo_model::{ChoiceView, Combo, Masked};
use hippo_tables_rows::Sets;
use hippo_values::Memory;
use std::alloc::Global;

// Passes the rows on to a visitor.
#[derive(Drop)]
struct RowTeller<'a, V> {
    visitor: &'a V,
}

impl<'a, V: Visitor> PlaceVisitor for RowTeller<'a, V> {
    ghost use Rattle.std.specs.Prelude.{◌++◌, map};
    ghost use Rattle.hippo_join_lookups.specs.Places.{chosen_rows};

    type State = V::State;

    ghost Keeps = { λ teller sets front visited state.
        V.Keeps teller.visitor.now (front ++ map (chosen_rows sets) visited) state };

    #[inline(always)]
    fn visit(
        &self,
        alloc: Global,
        state: &mut V::State,
        _slots: &[Option<usize>],
        rows: &Combo<'_>,
    ) -> Result<Onward, Memory> {
        self.visitor.visit(alloc, state, rows)
    }
}

// Visits the qualifying ones of all combinations.
fn visit_all<C: ChoiceView, V: Visitor>(
    side: &Side<'_, C>,
    alloc: Global,
    visitor: &V,
    state: &mut V::State,
) -> Result<(), Memory>
    ensures { (before : List Combination) → V.Keeps visitor.now before state.old
        → OnOk result (V.Keeps visitor.now
        (before ++ counting (C.choices side.now.choices.now) side.now.query.now
        (product (rows_of side.now.sets.now))) state.new) }
{
    let order = tables_below(alloc, side.sets.len())?;
    let teller = RowTeller { visitor };
    walk_all(side, alloc, &order, true, &teller, state)
}

/// Visits each qualifying combination of a query, with the policy written into it, until the
/// visitor has enough. The combinations have one row of each table and come in the order of the
/// product, where the first table varies slowest.
///
/// The tables are joined in the order of FROM. The query's outermost AND decides how the rows of a
/// table are found. They are looked up when literals, or columns of tables before it, fix the
/// table's key, or the value of a column that the table is ordered by. When the AND contains
/// another equality of columns of two tables, only rows with equal values are read. The memory is
/// proportional to the tables whose rows are not looked up, apart from what the visitor allocates.
/// It does not depend on the number of qualifying combinations.
pub fn walk_joined<C: ChoiceView, V: Visitor>(
    alloc: Global,
    query: &Masked,
    sets: &Sets<'_>,
    choices: &C,
    visitor: &V,
    state: &mut V::State,
) -> Result<(), Memory>
    ensures { (before : List Combination) → V.Keeps visitor.now before state.old
        → OnOk result (V.Keeps visitor.now (before ++ counting (C.choices choices.now) query.now
        (product (rows_of sets.now))) state.new) }
{
    let blank = blank_row(alloc)?;
    let side = side_of(query, sets, choices, &blank);
    visit_all(&side, alloc, visitor, state)
}
