//! The statement that made an entry of a history, spelled as a user would type it.
#![tactic(auto)]

mod acts;
mod columns;
mod entries;
mod joining;
mod literals;
mod rows;
mod rules;
mod tables;

pub use acts::{append_act_statement, append_set_statement, table_named};
pub use entries::entry_line;
pub use rules::{Rule, append_allow, append_rule};
