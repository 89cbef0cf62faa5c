//! Finds the first virtual tuple that serves, for a query of any form.
#![tactic(auto)]

mod alone;
mod changing;
mod group_marks;
pub mod laws;
mod marking;
mod sharing;

pub use sharing::{required_shown, shared_of};
