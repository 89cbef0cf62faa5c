//! The command line: what the words of a call of the program ask for.
#![tactic(auto)]

mod arguments;
mod calls;
mod reading;

pub use calls::{Call, Job, Setting};
pub use reading::call_of;
