//! How each of the programs begins and ends: the words after its name, its standard streams, its
//! keeper, a count of steps, and its exit status.
#![tactic(auto)]

mod ended;
mod host;
mod program;
mod starting;

pub use ended::Ended;
pub use host::Host;
pub use program::Program;
pub use starting::{NO_MEMORY, start};
