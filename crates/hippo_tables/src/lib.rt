//! The current rows of each table, and the effect of a change on them.
#![tactic(auto)]

mod finish;
mod named;
mod narrow;
mod ordering;
mod rows;
mod table;
mod tables;

pub use named::{schemas_of, sets_of};
pub use rows::{key_fits, row_fits};
pub use tables::Tables;
