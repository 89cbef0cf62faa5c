//! A visit of the combinations from which a query makes its rows.
ghost use Rattle.std.specs.Prelude.{◌≡◌, ◌++◌, List, length};
ghost use Rattle.hippo_model.specs.Terms.{Combination};
ghost use Rattle.hippo_model.specs.Answers.{product};
ghost use Rattle.hippo_eval.specs.Walks.{rows_of};
ghost use Rattle.hippo_join_stages.specs.Visiting.{counting};
ghost use Rattle.hippo_join.specs.Plans.{KeptWithin};

use hippo_eval::{ANSWER_LIMIT, EvalFault, Visitor};
use hippo_join::{plan, visit_planned, walk_joined};
use hippo_model::{ChoiceView, Masked};
use hippo_tables_rows::Sets;
use std::alloc::Global;

/// Visits the combinations that count, in the order of the product, by joins in a planned order. A
/// query over one table needs no plan.
pub(crate) fn visit_rows<C: ChoiceView, V: Visitor>(
    alloc: Global,
    visitor: &V,
    state: &mut V::State,
    query: &Masked,
    sets: &Sets<'_>,
    choices: &C,
) -> Result<(), EvalFault>
    requires { length sets.now ≡ length query.now.tables }
    ensures { (before : List Combination) → V.Keeps visitor.now before state.old
        → KeptWithin ANSWER_LIMIT (V.Keeps visitor.now) result before
        (counting (C.choices choices.now) query.now (product (rows_of sets.now))) state.new }
{
    if sets.len() < 2 {
        walk_joined(alloc, query, sets, choices, visitor, state)?;
        return Ok(());
    }
    let plan = plan(alloc, query, sets, choices)?;
    visit_planned(alloc, &plan, query, sets, choices, visitor, state)
}
