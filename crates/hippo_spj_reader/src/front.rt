//! Reads single tokens, names and literals at the front of the tokens.

ghost use Rattle.std.specs.Prelude.{◌≡◌, ◌∷◌, ◌<◌, [], length, MatchOption, IfSome};
ghost use Rattle.hippo_spj_reader.specs.Promises.{Reads, Passes, Expects};
ghost use Rattle.hippo_spj_reader.specs.Front.{kinds, after_keyword, after_symbol, after_word, leading_name, leading_literal};

use hippo_lexer::{Keyword, Symbol, SyntaxFault, Token, TokenKind};
use hippo_values::{Duplicate, Name, Value};
use std::alloc::Global;

/// The first token's kind, and the tokens after it, or none if there are no tokens.
pub fn split(tokens: &[Token]) -> Option<(&TokenKind, &[Token])>
    ensures parts { MatchOption result (kinds tokens.now ≡ [])
        (λ parts. kinds tokens.now ≡ parts.0.now ∷ kinds parts.1.now) }
    ensures shorter { IfSome result (λ parts. length parts.1.now < length tokens.now) }
{
    if tokens.is_empty() {
        return None;
    }
    Some((&tokens[0].kind, &tokens[1..]))
}

/// The tokens after a keyword, or none if the keyword does not come first.
pub fn after_keyword(tokens: &[Token], keyword: Keyword) -> Option<&[Token]>
    ensures { Passes (after_keyword keyword) tokens.now result }
{
    match split(tokens)? {
        (TokenKind::Keyword(first), rest) if *first == keyword => Some(rest),
        _ => None,
    }
}

/// The tokens after a symbol, or none if the symbol does not come first.
pub fn after_symbol(tokens: &[Token], symbol: Symbol) -> Option<&[Token]>
    ensures { Passes (after_symbol symbol) tokens.now result }
{
    match split(tokens)? {
        (TokenKind::Symbol(first), rest) if *first == symbol => Some(rest),
        _ => None,
    }
}

/// The tokens after a word that is not a keyword, or none if the word does not come first.
pub fn after_word<'a>(tokens: &'a [Token], word: &str) -> Option<&'a [Token]>
    ensures { Passes (after_word word.now) tokens.now result }
{
    match split(tokens)? {
        (TokenKind::Word(first), rest) if first.as_str() == word => Some(rest),
        _ => None,
    }
}

/// The tokens after a keyword. BadSyntax if the keyword does not come first.
pub fn expect_keyword(tokens: &[Token], keyword: Keyword) -> Result<&[Token], SyntaxFault>
    ensures { Expects (after_keyword keyword) tokens.now result }
{
    after_keyword(tokens, keyword).ok_or(SyntaxFault::BadSyntax)
}

/// The tokens after a symbol. BadSyntax if the symbol does not come first.
pub fn expect_symbol(tokens: &[Token], symbol: Symbol) -> Result<&[Token], SyntaxFault>
    ensures { Expects (after_symbol symbol) tokens.now result }
{
    after_symbol(tokens, symbol).ok_or(SyntaxFault::BadSyntax)
}

/// The tokens after a word that is not a keyword. BadSyntax if the word does not come first.
pub fn expect_word<'a>(tokens: &'a [Token], word: &str) -> Result<&'a [Token], SyntaxFault>
    ensures { Expects (after_word word.now) tokens.now result }
{
    after_word(tokens, word).ok_or(SyntaxFault::BadSyntax)
}

/// The name at the front of the tokens, and the tokens after it. BadSyntax if there is none.
pub fn name(alloc: Global, tokens: &[Token]) -> Result<(Name, &[Token]), SyntaxFault>
    ensures { Reads leading_name tokens.now result }
{
    match split(tokens) {
        Some((TokenKind::Word(name), rest)) => Ok((name.copy(alloc)?, rest)),
        _ => Err(SyntaxFault::BadSyntax),
    }
}

/// The literal at the front of the tokens, and the tokens after it. BadSyntax if there is none.
pub fn literal(alloc: Global, tokens: &[Token]) -> Result<(Value, &[Token]), SyntaxFault>
    ensures { Reads leading_literal tokens.now result }
{
    match split(tokens) {
        Some((TokenKind::Number(number), rest)) => Ok((Value::Int(*number), rest)),
        Some((TokenKind::Quoted(text), rest)) => Ok((Value::Text(text.copy(alloc)?), rest)),
        Some((TokenKind::Day(day), rest)) => Ok((Value::Day(*day), rest)),
        Some((TokenKind::Keyword(Keyword::KNull), rest)) => Ok((Value::Null, rest)),
        _ => Err(SyntaxFault::BadSyntax),
    }
}
