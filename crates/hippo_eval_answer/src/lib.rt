//! The answer to a query over the state of a history, as rows or as printed lines.
#![tactic(auto)]

mod answers;
mod inquiry;
mod lines;
mod standpoint;
mod visits;

pub use answers::{answer, answer_as_lines};
pub use lines::{LINES_ROOM, Lines};
pub use standpoint::Standpoint;
