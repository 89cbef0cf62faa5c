//! What each line of the input does: effects and runs as definitions in `specs/`, with worked
//! examples, and laws of them; and replies, with reserved memory for the short ones.
#![tactic(auto)]

mod faults;
pub mod laws;
mod replies;

pub use faults::EngineFault;
pub use replies::{REPLY_ROOM, Reply, refuse, refuse_out_of_memory, say_done, say_number};
