//! Questions: storing each one before it is answered, and writing its reply.
#![tactic(auto)]

mod answered;
mod questions;

pub use answered::Answered;
pub use questions::{keep_and_answer, reply_to};
