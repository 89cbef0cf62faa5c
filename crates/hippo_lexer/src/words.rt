//! Checks the words of a statement before it is parsed.
ghost use Rattle.std.specs.Prelude.{◌≡◌, ◌+◌, length, take, nat_lt, position};
ghost use Rattle.std.specs.List.{list_any, range_with_len};
ghost use Rattle.hippo_values.specs.Limits.{depth_limit};
ghost use Rattle.hippo_lexer.specs.Words.{is_left_paren, is_right_paren, negates, is_unsupported, token_count, is_steep, is_too_deep, words_check};

use crate::faults::SyntaxFault;
use crate::kinds::{Symbol, Token, TokenKind, Tokens};
use hippo_values::{DEPTH_LIMIT, Keyword};

fn opens(kind: &TokenKind) -> bool
    ensures { result ≡ is_left_paren kind.now }
{
    matches!(kind, TokenKind::Symbol(Symbol::LeftParen))
}

fn closes(kind: &TokenKind) -> bool
    ensures { result ≡ is_right_paren kind.now }
{
    matches!(kind, TokenKind::Symbol(Symbol::RightParen))
}

fn negates(kind: &TokenKind) -> bool
    ensures { result ≡ negates kind.now }
{
    matches!(kind, TokenKind::Keyword(Keyword::KNot))
}

fn is_unsupported(kind: &TokenKind) -> bool
    ensures { result ≡ is_unsupported kind.now }
{
    matches!(kind, TokenKind::Unsupported(_))
}

fn nests_too_deep(tokens: &[Token]) -> bool
    ensures { result ≡ list_any (λ n. is_steep (take n tokens.now))
        (range_with_len 0 (length tokens.now + 1)) }
{
    let mut open: usize = 0;
    let mut closed: usize = 0;
    for token in tokens {
        open += usize::from(opens(&token.kind));
        closed += usize::from(closes(&token.kind));
        if open > closed + DEPTH_LIMIT {
            return true;
        }
    }
    false
}

fn negates_too_often(tokens: &[Token]) -> bool
    ensures { result ≡ nat_lt depth_limit (token_count negates tokens.now) }
{
    tokens.iter().filter(|token| negates(&token.kind)).count() > DEPTH_LIMIT
}

fn first_unsupported(tokens: &[Token]) -> Option<usize>
    ensures { result ≡ position (λ token. is_unsupported token.kind) tokens.now }
{
    tokens.iter().position(|token| is_unsupported(&token.kind))
}

fn goes_too_deep(tokens: &[Token]) -> bool
    ensures { result ≡ is_too_deep tokens.now }
{
    nests_too_deep(tokens) || negates_too_often(tokens)
}

// A statement with few tokens needs no count.
fn is_too_deep(tokens: &[Token]) -> bool
    ensures { result ≡ is_too_deep tokens.now }
{
    tokens.len() > DEPTH_LIMIT && goes_too_deep(tokens)
}

/// Checks the words of a statement before it is parsed. Returns `TooDeep` if in some prefix of the
/// tokens `(` outnumbers `)` by more than 64, or if more than 64 tokens are NOT. Else returns
/// `Unsupported` with the index of the first word of SQL that hippo refuses. Allocates nothing.
#[tactic(auto, unfolding(crate::specs::Words::words_check))]
pub fn check_words(tokens: &Tokens) -> Result<(), SyntaxFault>
    ensures { result ≡ words_check tokens.now }
{
    let tokens = tokens.as_slice();
    if is_too_deep(tokens) {
        return Err(SyntaxFault::TooDeep);
    }
    match first_unsupported(tokens) {
        Some(place) => Err(SyntaxFault::Unsupported(place)),
        None => Ok(()),
    }
}
