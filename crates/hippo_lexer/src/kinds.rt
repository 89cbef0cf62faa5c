//! Tokens, and their places in the text.
use hippo_values::{CellText, DayNumber, Keyword, Name, Sequence, Txt};

/// A sign of one or two bytes.
#[derive(Clone, Copy, Debug, PartialEq, Eq)]
pub enum Symbol {
    LeftParen,
    RightParen,
    Comma,
    Dot,
    Star,
    Equal,
    /// `<>` or `!=`.
    NotEqual,
    Less,
    LessEqual,
    Greater,
    GreaterEqual,
    Semicolon,
}

/// The kind and value of a token.
#[derive(Debug, Drop, PartialEq, Eq)]
pub enum TokenKind {
    /// A word that is not reserved.
    Word(Name),
    Keyword(Keyword),
    /// A word of SQL that hippo refuses everywhere, in lower case.
    Unsupported(Txt),
    Number(i64),
    /// The text between two `'`, with each `''` replaced by one `'`.
    Quoted(CellText),
    Day(DayNumber),
    Symbol(Symbol),
}

/// A token and its place in the text: it begins at the byte `start` and ends before the byte `end`,
/// both from 0.
#[derive(Debug, Drop, PartialEq, Eq)]
pub struct Token {
    pub kind: TokenKind,
    pub start: usize,
    pub end: usize,
}

/// The tokens of a text, in order.
pub type Tokens = Sequence<Token>;
