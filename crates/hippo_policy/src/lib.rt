//! The rules, choices, authorizations and items of a history, as of every entry number.
#![tactic(auto)]

mod book;
mod choices;
mod gates;
mod keys;
mod last_words;
pub mod laws;
mod lookups;
mod ruled_columns;
mod ruled_tables;
mod ruling;
mod sayings;
mod verdicts;

pub use book::PolicyBook;
pub use choices::ChoicesAt;
