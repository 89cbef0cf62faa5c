//! The keeper that the programs use: it stores the history in files.
#![tactic(auto)]

mod file_keeper;

pub use file_keeper::FileKeeper;
