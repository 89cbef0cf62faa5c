//! What the programs have in common: the arguments of a command line, the lines that a program
//! writes besides its replies, and how it ends.
#![tactic(auto)]

mod arguments;
mod endings;
mod found;
mod lines;
mod stopping;

pub use arguments::Argument;
pub use endings::Ending;
pub use found::{format_of, matches_in, number_or, text_of, texts_of};
pub use lines::write_numbered;
pub use stopping::{say, say_damaged, say_numbered, stop};
