//! The table of the history in a SQLite store: the statements that create it, add to it and read
//! it, what each statement does, and the entries that the rows hold.
#![tactic(auto)]

mod entries;
mod statements;

pub use entries::{RowFault, entries_of};
pub use statements::{create_history, insert, select};
