//! An examiner that holds the rows of each table that it has needed so far, and moves them forward
//! between logged queries.
#![tactic(auto)]

mod asked;
mod bringing;
mod combine;
mod held;
mod ordering;
mod sharing;

pub use asked::{as_read, rules_asked};
pub use combine::{Combine, number_before};
