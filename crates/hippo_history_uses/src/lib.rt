//! Which rows about a patient the logged queries of a history used, and what they saw of them.
#![tactic(auto)]

mod asked;
mod cells;
mod conditions;
mod disclosing;
pub mod laws;
mod lending;
mod ordering;
mod searching;
mod uses;

pub use disclosing::Disclosures;
