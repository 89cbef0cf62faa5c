//! What the program does once its words are parsed. It replies to each line of the input before it
//! reads the next, or it checks the stored entries, or it runs a drill over a keeper in memory.
#![tactic(auto)]

mod drilling;
mod loads;
mod printing;
mod running;
mod serving;

pub use drilling::drill;
pub use printing::refuse;
pub use running::{check, run};
