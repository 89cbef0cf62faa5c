//! Reads a line of the input: its form, and what it commands, whatever the history.
#![tactic(auto)]

mod command;
mod commands;
mod forms;
pub mod laws;
mod lines;
mod numbers;
mod requests;
mod short_words;
mod statements;
mod words;
mod written_name;

pub use command::Command;
pub use commands::command_of;
pub use forms::{LineForm, RequestForm};
pub use lines::line_form;
pub use written_name::WrittenName;
