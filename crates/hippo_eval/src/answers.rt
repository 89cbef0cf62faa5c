//! Evaluates a query by a walk over all combinations of rows.
ghost use Rattle.std.specs.Prelude.{◌≡◌};
ghost use Rattle.hippo_model.specs.Masking.{masked_answer};
ghost use Rattle.hippo_eval.specs.declared.answers.EvalFault.TheVariants as evaluating;
ghost use Rattle.hippo_eval.specs.Walks.{rows_of};
ghost use Rattle.hippo_eval.specs.Answering.{IsAnswered};

use crate::gathering::{Gatherer, RowFinder};
use crate::queries::{passes, project};
use crate::walks::{Onward, Visitor, walk};
use hippo_model::{Answer, ChoiceView, Combo, Masked};
use hippo_tables_rows::Sets;
use hippo_values::{Memory, Sequence};
use std::alloc::Global;

/// The most rows that an answer may have.
pub const ANSWER_LIMIT: usize = 100_000;

/// Why a query is not answered.
#[derive(Clone, Copy, Debug, PartialEq, Eq)]
pub enum EvalFault {
    /// The answer has more than 100,000 rows.
    TooManyRows,
    Memory,
}

impl From<Memory> for EvalFault {
    ghost from_gives = { λ _ fault. fault ≡ evaluating.Memory };

    fn from(_memory: Memory) -> EvalFault {
        EvalFault::Memory
    }
}

/// Gathers each row, duplicates included.
#[derive(Drop)]
pub struct Every;

impl Gatherer for Every {
    ghost use Rattle.std.specs.Prelude.{◌≡◌};

    type Rows = Answer;

    ghost Holds = { λ every found rows. rows ≡ found };

    ghost answer = { λ every found. found };

    fn start(&self, alloc: Global) -> Answer {
        Sequence::new(alloc)
    }

    fn len(&self, rows: &Answer) -> usize {
        rows.len()
    }

    fn add<C: ChoiceView>(
        &self,
        alloc: Global,
        rows: &mut Answer,
        query: &Masked,
        combo: &Combo<'_>,
        choices: &C,
    ) -> Result<(), Memory> {
        rows.push(project(alloc, query, combo, choices)?)
    }

    fn finish(&self, _alloc: Global, rows: Answer) -> Result<Answer, Memory> {
        Ok(rows)
    }
}

// Tests each combination and passes those that qualify to a visitor.
#[derive(Drop)]
struct Tester<'a, C, V> {
    query: &'a Masked,
    choices: &'a C,
    visitor: &'a V,
}

impl<'a, C: ChoiceView, V: Visitor> Visitor for Tester<'a, C, V> {
    ghost use Rattle.hippo_eval.specs.Answering.{making_rows};

    type State = V::State;

    ghost Keeps = { λ tester combinations state. V.Keeps tester.visitor.now
        (making_rows (C.choices tester.choices.now) tester.query.now combinations) state };

    fn visit(
        &self,
        alloc: Global,
        state: &mut V::State,
        combo: &Combo<'_>,
    ) -> Result<Onward, Memory> {
        if passes(self.query, combo, self.choices) {
            self.visitor.visit(alloc, state, combo)
        } else {
            Ok(Onward::More)
        }
    }
}

/// Evaluates a query, with the policy written into it, over unmasked rows and the patients'
/// choices. The answer has the items of each combination whose guards are shown and whose condition
/// is true. The rows are in the order of the product, where the first table varies slowest. Equal
/// rows are kept. Returns TooManyRows exactly when the answer has more than 100,000 rows.
pub fn evaluate<C: ChoiceView>(
    alloc: Global,
    query: &Masked,
    sets: &Sets<'_>,
    choices: &C,
) -> Result<Answer, EvalFault>
    ensures { IsAnswered ANSWER_LIMIT (masked_answer (C.choices choices.now) query.now
        (rows_of sets.now)) result }
{
    let finder = RowFinder {
        query,
        choices,
        limit: ANSWER_LIMIT,
        gatherer: &Every,
    };
    let tester = Tester {
        query: &*query,
        choices: &*choices,
        visitor: &finder,
    };
    let mut rows = Every.start(alloc);
    walk(alloc, sets, &tester, &mut rows)?;
    finder.answered(alloc, rows)
}
