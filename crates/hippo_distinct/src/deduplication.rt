//! DISTINCT: the different rows of a query's answer, found by a walk over the qualifying
//! combinations.
ghost use Rattle.std.specs.Prelude.{◌≡◌, [], ◌∷◌, ◌++◌, List, map, IsTrue, IfOk, OnOk};
ghost use Rattle.hippo_model.specs.Terms.{ShownRow};
ghost use Rattle.hippo_model.specs.Forms.{distinct_rows};
ghost use Rattle.hippo_model.specs.Masking.{masked_answer, masked_cell};
ghost use Rattle.hippo_eval.specs.Answering.{IsAnswered};
ghost use Rattle.hippo_eval.specs.Walks.{rows_of};

use crate::comparing::is_row;
use crate::guesses::{Guesses, mark_of, mark_of_row};
use hippo_eval::{ANSWER_LIMIT, EvalFault, Gatherer, refill};
use hippo_join::gather_joined;
use hippo_model::{Answer, CellRow, ChoiceView, Combo, Expr, Masked};
use hippo_tables_rows::Sets;
use hippo_values::{Memory, Sequence};
use indexmap::IndexSet;
use std::alloc::Global;
use std::mem;

// The different rows found so far, in `rows`. The other fields are for speed alone. If the last row
// inserted was new, the next one is inserted without a lookup before, so it is hashed once.
// Otherwise, a row that is at its guessed place is not built. A row found before at another place
// is built in the memory of `at_hand` and allocates none.
#[derive(Drop)]
struct DifferentRows {
    rows: IndexSet<CellRow>,
    at_hand: CellRow,
    expects_new: bool,
    guesses: Guesses,
}

impl DifferentRows {
    // Whether the row that a combination makes is at its guessed place.
    #[inline(always)]
    fn is_guessed<C: ChoiceView>(&self, items: &[Expr], combo: &Combo<'_>, choices: &C) -> bool
        ensures { (found : List ShownRow) → self.now.rows.keys ≡ distinct_rows found
            → IsTrue result → self.now.rows.keys ≡ distinct_rows
            (found ++ map (masked_cell (C.choices choices.now) combo.now) items.now ∷ []) }
    {
        let Some(mark) = mark_of(items, combo, choices) else {
            return false;
        };
        match self.rows.get_index(self.guesses.place(mark)) {
            Some(row) => is_row(row, items, combo, choices),
            None => false,
        }
    }

    // Guesses that the row at hand will be appended.
    #[inline(always)]
    fn expect_last(&mut self, alloc: Global) -> Result<(), Memory>
        ensures { OnOk result ((self.new.rows.keys ≡ self.old.rows.keys)
            × (self.new.at_hand ≡ self.old.at_hand)) }
    {
        self.guesses.grow(alloc, self.rows.as_slice())?;
        self.guesses
            .keep(mark_of_row(&self.at_hand), self.rows.len());
        Ok(())
    }

    // Inserts the row at hand without a lookup before. A new row is moved into the set, not copied.
    fn put(&mut self, alloc: Global) -> Result<(), Memory>
        ensures { (found : List ShownRow) → self.old.rows.keys ≡ distinct_rows found
            → OnOk result (self.new.rows.keys ≡ distinct_rows (found ++ self.old.at_hand ∷ [])) }
    {
        self.expect_last(alloc)?;
        let next = Sequence::with_capacity(alloc, self.at_hand.len())?;
        self.expects_new = self.rows.insert(mem::replace(&mut self.at_hand, next))?;
        Ok(())
    }

    // Inserts the row at hand if it is new. It is then moved into the set, not copied.
    fn add(&mut self, alloc: Global) -> Result<(), Memory>
        ensures { (found : List ShownRow) → self.old.rows.keys ≡ distinct_rows found
            → OnOk result (self.new.rows.keys ≡ distinct_rows (found ++ self.old.at_hand ∷ [])) }
    {
        if self.expects_new {
            return self.put(alloc);
        }
        let Some(place) = self.rows.get_index_of(&self.at_hand) else {
            return self.put(alloc);
        };
        self.guesses.keep(mark_of_row(&self.at_hand), place);
        Ok(())
    }
}

// The rows of a set, in its order.
fn listed(alloc: Global, rows: IndexSet<CellRow>) -> Result<Vec<CellRow>, Memory>
    ensures { IfOk result (λ listed. listed.items ≡ rows.keys) }
{
    Ok(rows.into_iter().collect(alloc)?)
}

// Gathers the different rows, in the order in which they are found.
#[derive(Drop)]
struct Different;

impl Gatherer for Different {
    ghost use Rattle.std.specs.Prelude.{◌≡◌};
    ghost use Rattle.hippo_model.specs.Forms.{distinct_rows};

    type Rows = DifferentRows;

    ghost Holds = { λ gatherer found kept. kept.rows.keys ≡ distinct_rows found };

    ghost answer = { λ gatherer found. distinct_rows found };

    fn start(&self, alloc: Global) -> DifferentRows {
        DifferentRows {
            rows: IndexSet::new(alloc),
            at_hand: Sequence::new(alloc),
            expects_new: true,
            guesses: Guesses::new(alloc),
        }
    }

    fn len(&self, found: &DifferentRows) -> usize {
        found.rows.len()
    }

    fn add<C: ChoiceView>(
        &self,
        alloc: Global,
        found: &mut DifferentRows,
        query: &Masked,
        combo: &Combo<'_>,
        choices: &C,
    ) -> Result<(), Memory> {
        let items = query.items.as_slice();
        if !found.expects_new && found.is_guessed(items, combo, choices) {
            return Ok(());
        }
        refill(alloc, items, combo, choices, &mut found.at_hand)?;
        found.add(alloc)
    }

    fn finish(&self, alloc: Global, found: DifferentRows) -> Result<Answer, Memory> {
        let DifferentRows { rows, .. } = found;
        Ok(Sequence::from_vec(listed(alloc, rows)?))
    }
}

/// The different rows of a query's answer (SQL's DISTINCT), each at the place of its first
/// occurrence, over unmasked rows and patients' choices. Two cells are equal if they show the same
/// value, or if the same rule denies both. Returns TooManyRows exactly when there are more than
/// 100,000 different rows.
pub fn distinct<C: ChoiceView>(
    alloc: Global,
    query: &Masked,
    sets: &Sets<'_>,
    choices: &C,
) -> Result<Answer, EvalFault>
    ensures { let rows = masked_answer (C.choices choices.now) query.now (rows_of sets.now) in
        IsAnswered ANSWER_LIMIT (distinct_rows rows) result }
{
    gather_joined(alloc, query, sets, choices, &Different, ANSWER_LIMIT)
}
