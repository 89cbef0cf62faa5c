//! Reads audit expressions from the tokens of a statement.
#![tactic(auto)]

mod audits;

pub use audits::{audit, read_audit};
