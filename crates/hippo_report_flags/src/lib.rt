//! A flagged query as a line, in three formats: as words, as a JSON object, and as a CSV record;
//! and the line by which a watch reports a flag at once.
#![tactic(auto)]

mod alarms;
mod csv_flags;
mod flags;
mod json_flags;

pub use alarms::alarm_line;
pub use flags::flag_line;
