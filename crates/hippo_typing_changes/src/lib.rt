//! Turns changing statements into what they ask for, or finds their first refusal.
#![tactic(auto)]

mod changes;
mod columns;
mod keys;
mod names;
mod rules;
mod tables;
mod values;

pub use changes::check_change;
