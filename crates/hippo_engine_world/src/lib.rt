//! The state of a run beside the history: sessions, audit jobs, watches and the clock.
#![tactic(auto)]

mod audit_jobs;
mod watches;
mod worlds;

pub use audit_jobs::AuditJob;
pub use worlds::World;
