//! Query rewriting: writes the policy's rules into a query.
#![tactic(auto)]

mod conditions;
mod expressions;
mod guards;
pub mod laws;
mod rewriting;

pub use expressions::mask_columns;
pub use rewriting::rewrite;
