//! A logged query as its own time knew it.
ghost use Rattle.std.specs.Prelude.{◌≡◌};
ghost use Rattle.hippo_model.specs.Verdicts.{verdict};
ghost use Rattle.hippo_history_uses.specs.Accesses.{asker_context};
ghost use Rattle.hippo_history_uses.specs.Asking.{asker_of, Then};

use hippo_model::{BornRow, Query, Schema, Verdict};
use hippo_policy::PolicyBook;
use hippo_values::{Moment, Name};

/// A logged query, and which patient's rows are searched.
#[derive(Clone, Copy)]
pub(crate) struct AskedThen<'a> {
    pub book: &'a PolicyBook,
    /// The number of entries before the query.
    pub number: u64,
    pub entry: u64,
    pub moment: Moment,
    pub user: &'a Name,
    pub purpose: &'a Name,
    pub recipient: &'a Name,
    pub query: &'a Query,
    pub patient: i64,
}

impl<'a> AskedThen<'a> {
    /// The verdict on a cell, for this query.
    pub(crate) fn verdict(&self, schema: &Schema, kept: &BornRow, column: usize) -> Verdict
        ensures { Then self.now (λ front. result
            ≡ verdict front (asker_context (asker_of self.now)) schema.now kept.now column) }
    {
        self.book.verdict(
            self.number,
            self.moment,
            self.purpose,
            self.recipient,
            schema,
            &kept.row,
            kept.born,
            column,
        )
    }
}
