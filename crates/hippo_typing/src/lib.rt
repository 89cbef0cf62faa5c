//! Resolves selects and audit expressions: what they mean in a history, or their first refusal.
#![tactic(auto)]

mod audits;
mod columns;
mod conditions;
mod found;
mod groups;
mod items;
pub mod laws;
mod pairs;
mod parts;
mod selects;
mod tables;
mod texts;
mod written;

pub use audits::resolve_audit;
pub use hippo_typing_catalog::Catalog;
pub use selects::resolve_select;
pub use texts::{at_most_one_meaning, meaning_is_that_of_texts, read_meaning};
