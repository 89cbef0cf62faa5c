//! What is left of a history in a new store: the entries that still decide something.
#![tactic(auto)]

mod decided;
mod keys;
pub mod laws;
mod leaving;

pub use leaving::{is_carriable, left_backwards};
