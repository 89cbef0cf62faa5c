//! The history in a SQLite store: a keeper over a file or over memory, and the openers that connect
//! it to its store.
#![tactic(auto)]

mod faults;
mod keeper;
mod link;
mod opener;

pub use keeper::SqliteKeeper;
pub use opener::{DisksOpener, FileOpener, Opener};
