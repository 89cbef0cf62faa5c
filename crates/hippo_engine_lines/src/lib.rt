//! Carrying out lines: judges each line of the input; then the engine does what the line asks for
//! and writes the reply, or refuses the line with the reason.
#![tactic(auto)]

mod auditing;
mod cursors;
mod explaining;
mod jobs;
mod lines;
mod questions;
mod refusing;

pub use lines::{answer_line, carry_out_line};
