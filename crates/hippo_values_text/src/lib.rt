//! Converts values, days and moments to text and back.
#![tactic(auto)]

mod dates;
mod printing;

pub use dates::{day_text, moment_text, read_day, read_moment};
pub use printing::{append_value, print_value};
