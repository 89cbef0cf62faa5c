//! Laws on how texts are read, on what may follow a history, and on what the types of moments and
//! names guarantee. Each law is the contract of a function that does nothing.
#![tactic(auto)]

pub mod follow;
pub mod questions;
mod typed;

pub use typed::{moment_fits, name_fits};
