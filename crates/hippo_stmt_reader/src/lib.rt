//! Reads statements from the tokens of a text.
#![tactic(auto)]

mod changes;
mod parts;
mod policies;
mod schemas;
mod statements;

pub use statements::read_statement;
