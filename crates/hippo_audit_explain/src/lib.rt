//! Which cells were denied to a logged query at its own time, and by which rules.
#![tactic(auto)]

mod columns;
mod denials;
mod faults;
mod rows;

pub use denials::denied_cells;
pub use faults::DenialsFault;
pub use rows::Denied;
