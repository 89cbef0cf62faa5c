//! Evaluates a query by a planned join.
ghost use Rattle.std.specs.Prelude.{◌≡◌, IfOk, length};
ghost use Rattle.hippo_model.specs.Masking.{masked_answer};
ghost use Rattle.hippo_eval.specs.Answering.{IsAnswered};
ghost use Rattle.hippo_eval.specs.Walks.{rows_of};
ghost use Rattle.hippo_join_lookups.specs.Places.{blank};
ghost use Rattle.hippo_join.specs.Plans.{IsPlanOf};

use crate::planned::visit_planned;
use hippo_eval::{ANSWER_LIMIT, EvalFault, Every, Gatherer, RowFinder};
use hippo_join_stages::Side;
use hippo_model::{Answer, BornRow, ChoiceView, Masked, Plan};
use hippo_tables_rows::Sets;
use hippo_values::{Memory, Moment, Sequence};
use std::alloc::Global;

/// A row that stands in for one not chosen yet.
pub fn blank_row(alloc: Global) -> Result<BornRow, Memory>
    ensures { IfOk result (λ row. row ≡ blank) }
{
    match Moment::new(Moment::FIRST) {
        Some(born) => Ok(BornRow {
            row: Sequence::new(alloc),
            born,
        }),
        None => Err(Memory),
    }
}

// A query over tables, with a stand-in for rows that are not chosen.
pub(crate) fn side_of<'s, C: ChoiceView>(
    query: &'s Masked,
    sets: &'s Sets<'_>,
    choices: &'s C,
    unchosen: &'s BornRow,
) -> Side<'s, C>
    requires { unchosen.now ≡ blank }
    ensures query { result.query.now ≡ query.now }
    ensures sets { result.sets.now ≡ sets.now }
    ensures choices { result.choices.now ≡ choices.now }
{
    Side {
        query: &*query,
        sets: &*sets,
        choices: &*choices,
        blank: &*unchosen,
    }
}

/// The answer of a query, with the policy written into it, by a nested-loop join of its tables in a
/// plan's order. It is the same as that of `evaluate`, whatever the plan. Requires a plan of the
/// query, and the rows of each of its tables. Returns TooManyRows exactly when the answer has more
/// than 100,000 rows.
///
/// The query's outermost AND decides how the rows of a table are found. They are looked up when
/// literals, or columns of tables before it in the plan, fix the table's key, or the value of a
/// column that the table is ordered by. When the AND contains another equality of columns of two
/// tables, only rows with equal values are read.
///
/// The time is proportional to the size of the tables whose rows are not looked up, and to the
/// number of matches. The memory is proportional to these tables and the answer.
pub fn run<C: ChoiceView>(
    alloc: Global,
    plan: &Plan,
    query: &Masked,
    sets: &Sets<'_>,
    choices: &C,
) -> Result<Answer, EvalFault>
    requires sets { length sets.now ≡ length query.now.tables }
    requires plan { IsPlanOf query.now plan.now }
    ensures { IsAnswered ANSWER_LIMIT (masked_answer (C.choices choices.now) query.now
        (rows_of sets.now)) result }
{
    let finder = RowFinder {
        limit: ANSWER_LIMIT,
        gatherer: &Every,
        query,
        choices,
    };
    let mut rows = Every.start(alloc);
    match visit_planned(alloc, plan, query, sets, choices, &finder, &mut rows) {
        Ok(()) => finder.answered(alloc, rows),
        Err(fault) => Err(fault),
    }
}
