//! The number of rows of its tables that an audit's own conditions find, and how a change of a row
//! changes it.
#![tactic(auto)]

mod conditions;
mod counts;
mod own;
mod versions;

pub use counts::{AuditHits, Counts};
