//! The stages of a join plan, one table each.
ghost use Rattle.std.specs.Prelude.{◌≡◌, true, None};

use hippo_join_lookups::Tie;
use hippo_values::Value;
use std::alloc::Global;
use std::cell::Cell;

/// A stage: a table, by its place in FROM; its tie to a row chosen before; and its rows that can
/// qualify.
#[derive(Drop)]
pub struct Stage {
    pub table: usize,
    pub tie: Option<Tie>,
    /// Whether the rows are looked up or scanned for each combination of the rows chosen before,
    /// and not materialised. They are looked up when the chosen rows fix the first value of the key
    /// or the value of a column that the table is ordered by, or when the whole key is fixed. The
    /// only table of a query is looked up too. A first table is scanned if none of its rows can be
    /// tested before.
    pub is_searched: bool,
    /// The estimated number of rows for each combination of the rows chosen before.
    pub rows: usize,
    /// Places in the table, sorted by the tie's column.
    pub places: Vec<usize>,
    /// The values of the tie's column at these places; empty if there is no tie.
    pub values: Vec<Value>,
    /// Whether every combination in which the tie holds qualifies. Without a tie: whether every
    /// combination qualifies.
    pub suffices: bool,
    /// Where the last search in `values` ended; the next one starts there.
    pub near: Cell<usize>,
    /// The parts of the condition to test at this stage.
    pub tests: Vec<usize>,
}

impl Stage {
    // The stage of a table whose rows are looked up, without a tie; `rows` is an estimate.
    pub(crate) fn searched(
        alloc: Global,
        table: usize,
        rows: usize,
        suffices: bool,
        tests: Vec<usize>,
    ) -> Stage
        ensures searched { result.is_searched ≡ true }
        ensures table { result.table ≡ table }
        ensures tie { result.tie ≡ None }
        ensures suffices { result.suffices ≡ suffices }
    {
        Stage {
            table,
            tie: None,
            is_searched: true,
            rows,
            places: Vec::new(alloc),
            values: Vec::new(alloc),
            suffices,
            near: Cell::new(0),
            tests,
        }
    }
}
