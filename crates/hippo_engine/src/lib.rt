//! The engine: the state of a run, and the calls that change it: the clock, sessions and cursors,
//! changes of the history, audit jobs and watches.
#![tactic(auto)]

mod changes;
mod engine;
mod jobs;
mod reply_writing;
mod sessions;
mod watches;

pub use engine::Engine;
pub use hippo_engine_rules::{EngineFault, Reply};
