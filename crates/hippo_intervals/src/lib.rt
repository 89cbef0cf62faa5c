//! The former rows of a table, advanced over the history while each version is read once.
#![tactic(auto)]

mod lives;

pub use lives::LiveRows;
