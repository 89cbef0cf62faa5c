//! The text of replies: rows, denied cells, confirmations and refusals; and the pieces from which
//! other lines are made.
#![tactic(auto)]

mod format;
mod notices;
mod pieces;
mod printed;
mod refusal;
mod refusal_lines;
mod rows;
mod speaker;

pub use format::Format;
pub use notices::{done_line, number_line};
pub use pieces::{append_pieces, ascii_text};
pub use printed::{Printed, append_joined, append_later, append_whole};
pub use refusal::Refusal;
pub use refusal_lines::refusal_line;
pub use rows::{answer_line, answer_lines, denied_line};
pub use speaker::Speaker;
