//! Grouped queries, whose answers have one row for each group.
#![tactic(auto)]

mod best_values;
mod group_rows;
mod grouping;
mod members;

pub use best_values::{is_greater, is_lesser, value_at};
pub use grouping::{front, grouped, into_front};
