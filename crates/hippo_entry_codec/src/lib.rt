//! Writes and reads the bytes in which entries of the history are stored.
#![tactic(auto)]

mod acts;
mod encoding;
mod fault;
mod keeping;
mod names;
mod parts;
mod reading;

pub use acts::read_entry;
pub use encoding::encode;
pub use fault::Fault;
pub use keeping::Keepable;
