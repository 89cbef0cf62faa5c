//! The script of a drill, one line at a time, and the counts of its replies.
#![tactic(auto)]

mod counts;
mod drill;
mod places;
mod script_line;

pub use counts::Counts;
pub use drill::Drill;
