//! DISTINCT queries: equal rows are answered once.
#![tactic(auto)]

mod comparing;
mod deduplication;
mod guesses;
pub mod laws;

pub use deduplication::distinct;
