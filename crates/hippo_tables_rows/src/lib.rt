//! A table's rows, with lookup by key and by secondary orders.
#![tactic(auto)]

mod column_order;
mod ranges;
mod row_set;

pub use ranges::Bound;
pub use row_set::{RowSet, Sets};
