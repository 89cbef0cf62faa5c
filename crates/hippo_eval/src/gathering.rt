//! Gathers the rows of an answer while the qualifying combinations are visited. It gathers at most
//! one row more than a limit.
ghost use Rattle.std.specs.Prelude.{◌≡◌, ◌<◌, ◌≤◌, List, length};
ghost use Rattle.hippo_model.specs.Terms.{ShownRow};
ghost use Rattle.hippo_eval.specs.Answering.{IsAnswered};

use crate::answers::EvalFault;
use crate::walks::{Onward, Visitor};
use hippo_model::{Answer, ChoiceView, Combo, Masked};
use hippo_values::Memory;
use std::alloc::Global;

/// Gathers the rows of an answer, one qualifying combination after the other. A gatherer makes each
/// row itself, so it can reuse the memory of another row.
pub trait Gatherer {
    ghost use Rattle.std.specs.Prelude.{◌≡◌, [], ◌∷◌, ◌++◌, List, IfOk, OnOk, length};
    ghost use Rattle.hippo_model.specs.Terms.{ShownRow};
    ghost use Rattle.hippo_model.specs.Masking.{masked_items};
    ghost use Rattle.hippo_eval.specs.Gathering.{IsFinished};

    /// What is gathered.
    type Rows: Drop;

    /// Whether this is the result of gathering these rows, in this order.
    ghost Holds: { Self → List ShownRow → Self.Rows → Type 0 };

    /// The answer when these rows are found.
    ghost answer: { Self → List ShownRow → List ShownRow };

    fn start(&self, alloc: Global) -> Self::Rows
        ensures { Holds self.now [] result };

    /// The number of rows in the answer so far.
    fn len(&self, rows: &Self::Rows) -> usize
        ensures { (found : List ShownRow) → Holds self.now found rows.now
            → result ≡ length (answer self.now found) };

    /// Adds one row: the one that a combination of rows makes.
    fn add<C: ChoiceView>(
        &self,
        alloc: Global,
        rows: &mut Self::Rows,
        query: &Masked,
        combo: &Combo<'_>,
        choices: &C,
    ) -> Result<(), Memory>
        ensures { (found : List ShownRow) → Holds self.now found rows.old
            → OnOk result (Holds self.now
            (found ++ masked_items (C.choices choices.now) query.now combo.now ∷ [])
            rows.new) };

    /// The rows of the answer. Finding more rows never makes the answer shorter.
    fn finish(&self, alloc: Global, rows: Self::Rows) -> Result<Answer, Memory>
        ensures { (found : List ShownRow) → Holds self.now found rows
            → IfOk result (IsFinished (answer self.now) found) };
}

/// Gathers the rows of qualifying combinations, at most one row more than the limit.
#[derive(Drop)]
pub struct RowFinder<'a, C, G> {
    pub query: &'a Masked,
    pub choices: &'a C,
    pub limit: usize,
    pub gatherer: &'a G,
}

impl<'a, C: ChoiceView, G: Gatherer> Visitor for RowFinder<'a, C, G> {
    ghost use Rattle.std.specs.Prelude.{map};
    ghost use Rattle.hippo_model.specs.Masking.{masked_items};
    ghost use Rattle.hippo_eval.specs.Gathering.{IsGathered};

    type State = G::Rows;

    ghost Keeps = { λ finder combinations rows. IsGathered (G.Holds finder.gatherer.now)
        (G.answer finder.gatherer.now)
        finder.limit (map (masked_items (C.choices finder.choices.now) finder.query.now)
        combinations) rows };

    fn visit(
        &self,
        alloc: Global,
        state: &mut G::Rows,
        combo: &Combo<'_>,
    ) -> Result<Onward, Memory> {
        if self.gatherer.len(state) > self.limit {
            return Ok(Onward::Enough);
        }
        self.gatherer
            .add(alloc, state, self.query, combo, self.choices)?;
        Ok(Onward::More)
    }
}

// These rows as an answer, or TooManyRows if they exceed the limit.
fn limited(rows: Answer, limit: usize) -> Result<Answer, EvalFault>
    ensures { (whole : List ShownRow) → (length rows ≤ limit → rows ≡ whole)
        → (limit < length rows → limit < length whole)
        → IsAnswered limit whole result }
{
    if rows.len() > limit {
        Err(EvalFault::TooManyRows)
    } else {
        Ok(rows)
    }
}

impl<'a, C, G: Gatherer> RowFinder<'a, C, G> {
    ghost use Rattle.std.specs.Prelude.{List};
    ghost use Rattle.hippo_model.specs.Terms.{ShownRow};
    ghost use Rattle.hippo_eval.specs.Answering.{IsAnswered};
    ghost use Rattle.hippo_eval.specs.Gathering.{IsGathered};

    /// The answer of the gathered rows. Returns TooManyRows exactly when the answer exceeds the
    /// limit.
    pub fn answered(&self, alloc: Global, rows: G::Rows) -> Result<Answer, EvalFault>
        ensures { (found : List ShownRow) → IsGathered (G.Holds self.now.gatherer.now)
            (G.answer self.now.gatherer.now)
            self.now.limit found rows
            → IsAnswered self.now.limit (G.answer self.now.gatherer.now found) result }
    {
        limited(self.gatherer.finish(alloc, rows)?, self.limit)
    }
}
