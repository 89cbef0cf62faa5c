//! Why a text cannot be split into tokens, and why tokens are not a statement.
ghost use Rattle.std.specs.Prelude.{◌≡◌};
ghost use Rattle.hippo_lexer.specs.declared.faults.LexFault.TheVariants as lexing;
ghost use Rattle.hippo_lexer.specs.declared.faults.SyntaxFault.TheVariants as syntax;

use hippo_values::Memory;

/// Why a text cannot be split into tokens. A place is the index of a byte, from 0.
#[derive(Clone, Copy, Debug, PartialEq, Eq)]
pub enum LexFault {
    /// No token begins at this byte.
    BadToken(usize),
    /// The number that begins at this byte does not fit in a signed 64-bit integer.
    NumberTooLarge(usize),
    /// The word `DATE` at this byte is followed by a quoted text that is not a day.
    BadDate(usize),
    /// Out of memory.
    Memory,
}

impl From<Memory> for LexFault {
    ghost from_gives = { λ _ fault. fault ≡ lexing.Memory };

    fn from(_refused: Memory) -> LexFault {
        LexFault::Memory
    }
}

/// Why tokens are not a statement.
#[derive(Clone, Copy, Debug, PartialEq, Eq)]
pub enum SyntaxFault {
    /// More than 64 `(` are open at some token, or more than 64 tokens are NOT.
    TooDeep,
    /// The token at this index, from 0, is a word of SQL that hippo refuses.
    Unsupported(usize),
    /// The tokens do not match the grammar.
    BadSyntax,
    /// Out of memory.
    Memory,
}

impl From<Memory> for SyntaxFault {
    ghost from_gives = { λ _ fault. fault ≡ syntax.Memory };

    fn from(_refused: Memory) -> SyntaxFault {
        SyntaxFault::Memory
    }
}
