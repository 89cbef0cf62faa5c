//! The database as a service that answers lines: the top function, which does what the command's
//! words ask for, and the program that calls it.
#![tactic(auto)]

mod laws;
mod program;
mod top;

pub use laws::{leave, next_run, next_run_in_memory, start_next};
pub use program::Hippo;
pub use top::hippo_top;
