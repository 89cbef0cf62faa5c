//! Replies with what was found: the flags of an audit and of an audit job's step, the cells that
//! EXPLAIN lists, the next rows of a cursor, and the watches' alarms for a question.
#![tactic(auto)]

mod alarms;
mod auditing;
mod explaining;
mod fetching;
mod stepping;

pub use alarms::alarms_of;
pub use auditing::tell_flags;
pub use explaining::tell_cells;
pub use fetching::print_next;
pub use stepping::tell_step;
