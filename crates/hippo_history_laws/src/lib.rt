//! Laws on the statements that show a history's entries, and on the scripts of whole histories: run
//! again, they make what they show. Each law is the contract of a function that does nothing.
#![tactic(auto)]

pub mod reading;
pub mod scripts;
