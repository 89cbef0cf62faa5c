use crate::cells::Cells;
use hippo_values::Moment;

/// A row of a table, and the moment of the last INSERT of its key.
#[derive(Drop)]
pub struct BornRow {
    pub row: Cells,
    pub born: Moment,
}
