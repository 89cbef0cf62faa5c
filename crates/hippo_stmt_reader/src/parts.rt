//! Reads the parts that several statements share.
ghost use Rattle.std.specs.Prelude.{◌<◌};
ghost use Rattle.hippo_spj_reader.specs.Promises.{Gives, Reads};
ghost use Rattle.hippo_spj_reader.specs.Front.{kinds};
ghost use Rattle.hippo_stmt_reader.specs.StatementFinder.{leading_name_after, leading_names, leading_number, nothing_left, end_left, with_end};

use hippo_lexer::{Keyword, Symbol, SyntaxFault, Token, TokenKind};
use hippo_model::Names;
use hippo_spj_reader::{
    Commas, NamePart, after_symbol, expect_keyword, expect_symbol, list, name, split,
};
use hippo_values::Name;
use std::alloc::Global;

/// The names in parentheses at the front of the tokens, and the tokens after them. BadSyntax if
/// there are none.
#[tactic(auto, unfolding(crate::specs::StatementFinder::leading_names))]
pub fn names(alloc: Global, tokens: &[Token]) -> Result<(Names, &[Token]), SyntaxFault>
    ensures { Reads leading_names tokens.now result }
{
    let inside = expect_symbol(tokens, Symbol::LeftParen)?;
    let (names, rest) = list::<NamePart, Commas>(alloc, inside)?;
    let rest = expect_symbol(rest, Symbol::RightParen)?;
    Ok((names, rest))
}

/// The name after a keyword, and the tokens after the name. BadSyntax if the keyword and a name do
/// not come first.
pub fn name_after(
    alloc: Global,
    keyword: Keyword,
    tokens: &[Token],
) -> Result<(Name, &[Token]), SyntaxFault>
    ensures { Reads (leading_name_after keyword) tokens.now result }
{
    let rest = expect_keyword(tokens, keyword)?;
    name(alloc, rest)
}

/// The number at the front of the tokens, and the tokens after it. BadSyntax if there is none.
pub fn number(tokens: &[Token]) -> Result<(i64, &[Token]), SyntaxFault>
    ensures { Reads leading_number tokens.now result }
{
    match split(tokens) {
        Some((TokenKind::Number(number), rest)) => Ok((*number, rest)),
        _ => Err(SyntaxFault::BadSyntax),
    }
}

fn nothing(tokens: &[Token]) -> Result<(), SyntaxFault>
    ensures { Gives (λ x. x) result (nothing_left (kinds tokens.now)) }
{
    if tokens.is_empty() {
        Ok(())
    } else {
        Err(SyntaxFault::BadSyntax)
    }
}

// Checks that nothing is left of a statement, or only a `;`.
fn end(tokens: &[Token]) -> Result<(), SyntaxFault>
    ensures { Gives (λ x. x) result (end_left (kinds tokens.now)) }
{
    match after_symbol(tokens, Symbol::Semicolon) {
        Some(rest) => nothing(rest),
        None => nothing(tokens),
    }
}

/// What was read, if the statement ends after it; otherwise BadSyntax.
// Inlined, since a statement is large and would otherwise be copied in and out.
#[inline(always)]
pub fn with_end<T: Drop>(read: T, tokens: &[Token]) -> Result<T, SyntaxFault>
    ensures { Gives (λ x. x) result (with_end read (kinds tokens.now)) }
{
    end(tokens)?;
    Ok(read)
}
