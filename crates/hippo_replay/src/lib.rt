//! The state of a history: loading it from its keeper, or finding the place where the stored
//! entries are damaged; and recording entries after the others.
#![tactic(auto)]

mod acceptance;
mod faults;
mod loading;
mod recording;
mod schemas;
mod state;
mod taking_in;

pub use faults::LoadFault;
pub use loading::load;
pub use state::State;
