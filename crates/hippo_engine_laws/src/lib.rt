//! Laws of runs. Each is the contract of a function that does nothing.
#![tactic(auto)]

pub mod jobs;
pub mod watches;
