//! What the equalities of columns in a condition imply: what the condition asks of one column, it
//! asks of an equal one too.
#![tactic(auto)]

mod equalities;
mod implied;
pub mod laws;
mod literals;
mod moved;

pub use implied::add_implied;
