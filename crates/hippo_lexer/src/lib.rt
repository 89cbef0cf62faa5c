//! The tokens of a statement's text.
#![tactic(auto)]

mod faults;
mod kinds;
pub mod lexer;
mod parts;
mod signs;
mod words;

pub use faults::{LexFault, SyntaxFault};
pub use hippo_values::Keyword;
pub use kinds::{Symbol, Token, TokenKind, Tokens};
pub use words::check_words;
