//! Standing audits: the number of rows that their own conditions find, and the tuple that one
//! shares with a question that is asked now.
#![tactic(auto)]

mod alarms;
mod present;
mod watches;

pub use alarms::AskedNow;
pub use watches::Watch;
