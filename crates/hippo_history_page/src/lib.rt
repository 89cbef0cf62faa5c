//! What was disclosed of a patient, as an HTML page without scripts or outside parts.
#![tactic(auto)]

mod counting;
mod escaping;
mod laws;
mod pages;
mod rows;
mod words;

pub use laws::reads_back;
pub use pages::{Asked, append_entry_words, append_page};
