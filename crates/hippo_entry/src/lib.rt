//! The stored form of an entry of the history, and how to decode it.
#![tactic(auto)]

mod decoding;

pub use decoding::decode;
pub use hippo_entry_codec::encode;
