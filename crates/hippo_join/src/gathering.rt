//! Gathers the rows of an answer while the qualifying combinations are visited.
ghost use Rattle.hippo_model.specs.Masking.{masked_answer};
ghost use Rattle.hippo_eval.specs.Answering.{IsAnswered};
ghost use Rattle.hippo_eval.specs.Walks.{rows_of};

use crate::planned::visit_by_plan;
use crate::visiting::walk_joined;
use hippo_eval::{EvalFault, Gatherer, RowFinder};
use hippo_model::{Answer, ChoiceView, Masked};
use hippo_tables_rows::Sets;
use std::alloc::Global;

// The answer that a gatherer makes, with the tables joined in the order of FROM.
fn gather_in_order<C: ChoiceView, G: Gatherer>(
    alloc: Global,
    query: &Masked,
    sets: &Sets<'_>,
    choices: &C,
    gatherer: &G,
    limit: usize,
) -> Result<Answer, EvalFault>
    ensures { let found = masked_answer (C.choices choices.now) query.now (rows_of sets.now) in
        IsAnswered limit (G.answer gatherer.now found) result }
{
    let finder = RowFinder {
        query,
        choices,
        limit,
        gatherer,
    };
    let mut rows = gatherer.start(alloc);
    walk_joined(alloc, query, sets, choices, &finder, &mut rows)?;
    finder.answered(alloc, rows)
}

/// The answer that a gatherer makes of the rows of a query, with the policy written into it, over
/// unmasked rows and patients' choices. Returns TooManyRows exactly when the answer exceeds the
/// limit.
///
/// The tables are joined in an order that `plan` chooses. The rows are gathered in the order of the
/// product, so the places of the qualifying combinations are held at once, unless the plan's order
/// is that of FROM. If more than 100,000 combinations qualify, the tables are joined in the order
/// of FROM instead, and no places are held.
pub fn gather_joined<C: ChoiceView, G: Gatherer>(
    alloc: Global,
    query: &Masked,
    sets: &Sets<'_>,
    choices: &C,
    gatherer: &G,
    limit: usize,
) -> Result<Answer, EvalFault>
    ensures { let found = masked_answer (C.choices choices.now) query.now (rows_of sets.now) in
        IsAnswered limit (G.answer gatherer.now found) result }
{
    let finder = RowFinder {
        query,
        choices,
        limit,
        gatherer,
    };
    let mut rows = gatherer.start(alloc);
    if visit_by_plan(alloc, query, sets, choices, &finder, &mut rows)? {
        return finder.answered(alloc, rows);
    }
    gather_in_order(alloc, query, sets, choices, gatherer, limit)
}
