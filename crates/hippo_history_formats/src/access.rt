//! What a question saw of a patient's row.
use hippo_model::Cells;
use hippo_values::{Moment, Name, Sequence, Value};

/// A value that a question saw, and its column's name.
#[derive(Drop)]
pub struct SeenCell {
    pub column: Name,
    pub value: Value,
}

/// A column whose value was denied to a question, and the number of the rule that denied it, 0 if
/// no rule names the column.
#[derive(Drop)]
pub struct DeniedCell {
    pub column: Name,
    pub rule: u64,
}

/// That a question used a patient's row: the question's entry and moment, who asked, the row by its
/// table and the values of its key, and what was shown, tested and denied of it.
#[derive(Drop)]
pub struct Access {
    pub entry: u64,
    pub moment: Moment,
    pub user: Name,
    pub purpose: Name,
    pub recipient: Name,
    pub table: Name,
    pub key: Cells,
    /// The values in the answer.
    pub shown: Sequence<SeenCell>,
    /// The values that only conditions read.
    pub tested: Sequence<SeenCell>,
    pub denied: Sequence<DeniedCell>,
}
