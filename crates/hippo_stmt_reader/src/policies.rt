//! Reads AUTHORIZE, DEAUTHORIZE, ALLOW, REVOKE and CHOICE.
ghost use Rattle.std.specs.Prelude.{◌≡◌, true, false, ◌<◌};
ghost use Rattle.hippo_values.specs.declared.keywords.Keyword.TheVariants.{KNo, KYes};
ghost use Rattle.hippo_spj_reader.specs.Promises.{Gives, Reads};
ghost use Rattle.hippo_spj_reader.specs.Front.{kinds};
ghost use Rattle.hippo_stmt_reader.specs.StatementFinder.{leading_grant, grant_statement, authorization_of, leading_disclosure, leading_with_item, days_of, leading_retention, allow_of, revoke_of, one_of, choice_of};

use crate::parts::{name_after, names, number, with_end};
use hippo_lexer::{Keyword, Symbol, SyntaxFault, Token};
use hippo_model::Names;
use hippo_spj_reader::{
    after_keyword, after_word, expect_keyword, expect_symbol, expect_word, name,
};
use hippo_stmt_ast::Stmt;
use hippo_values::{Name, RETENTION_LIMIT};
use std::alloc::Global;

// The user, purpose and recipient of AUTHORIZE and DEAUTHORIZE.
#[derive(Drop)]
struct Grantee {
    user: Name,
    purpose: Name,
    recipient: Name,
}

#[tactic(auto, unfolding(crate::specs::StatementFinder::leading_grant))]
fn authorization(alloc: Global, tokens: &[Token]) -> Result<(Grantee, &[Token]), SyntaxFault>
    ensures { Reads leading_grant tokens.now result }
{
    let (user, rest) = name(alloc, tokens)?;
    let (purpose, rest) = name_after(alloc, Keyword::KFor, rest)?;
    let rest = expect_symbol(rest, Symbol::Comma)?;
    let (recipient, rest) = name(alloc, rest)?;
    Ok((
        Grantee {
            user,
            purpose,
            recipient,
        },
        rest,
    ))
}

// AUTHORIZE if the grant is given, otherwise DEAUTHORIZE. Inlined for the same reason as
// `with_end`.
#[inline(always)]
fn grant_statement(is_given: bool, grant: Grantee) -> Stmt
    ensures { result ≡ grant_statement is_given grant }
{
    let Grantee {
        user,
        purpose,
        recipient,
    } = grant;
    if is_given {
        return Stmt::Authorize {
            user,
            purpose,
            recipient,
        };
    }
    Stmt::Deauthorize {
        user,
        purpose,
        recipient,
    }
}

/// The statement that the tokens after AUTHORIZE (`is_given`) or DEAUTHORIZE form. BadSyntax if
/// they form none.
#[tactic(auto, unfolding(crate::specs::StatementFinder::authorization_of))]
pub fn grant(alloc: Global, is_given: bool, tokens: &[Token]) -> Result<Stmt, SyntaxFault>
    ensures { Gives (λ s. s) result (authorization_of is_given (kinds tokens.now)) }
{
    let (grant, rest) = authorization(alloc, tokens)?;
    with_end(grant_statement(is_given, grant), rest)
}

// The parts that ALLOW and REVOKE share.
#[derive(Drop)]
struct Disclosure {
    purpose: Name,
    recipient: Name,
    table: Name,
    columns: Names,
}

#[tactic(auto, unfolding(crate::specs::StatementFinder::leading_disclosure), using(crate::proofs::AfterLemmas::fails_first))]
fn disclosed(alloc: Global, tokens: &[Token]) -> Result<(Disclosure, &[Token]), SyntaxFault>
    ensures { Reads leading_disclosure tokens.now result }
{
    let (purpose, rest) = name(alloc, tokens)?;
    let (recipient, rest) = name_after(alloc, Keyword::KTo, rest)?;
    let (table, rest) = name_after(alloc, Keyword::KOn, rest)?;
    let (columns, rest) = names(alloc, rest)?;
    Ok((
        Disclosure {
            purpose,
            recipient,
            table,
            columns,
        },
        rest,
    ))
}

#[tactic(auto, unfolding(crate::specs::StatementFinder::leading_with_item))]
fn with_item(alloc: Global, tokens: &[Token]) -> Result<(Option<Name>, &[Token]), SyntaxFault>
    ensures { Reads leading_with_item tokens.now result }
{
    let Some(remaining) = after_keyword(tokens, Keyword::KWith) else {
        return Ok((None, tokens));
    };
    let (item, rest) = name(alloc, remaining)?;
    Ok((Some(item), rest))
}

fn days_of(number: &i64) -> Option<u32>
    ensures { result ≡ days_of number.now }
{
    match u32::try_from(*number) {
        Ok(days) if 0 < days && days <= RETENTION_LIMIT => Some(days),
        _ => None,
    }
}

#[tactic(auto, unfolding(crate::specs::StatementFinder::leading_retention))]
fn retention(tokens: &[Token]) -> Result<(Option<u32>, &[Token]), SyntaxFault>
    ensures { Reads leading_retention tokens.now result }
{
    let Some(remaining) = after_word(tokens, "retain") else {
        return Ok((None, tokens));
    };
    let (number, rest) = number(remaining)?;
    let days = days_of(&number).ok_or(SyntaxFault::BadSyntax)?;
    let rest = expect_word(rest, "days")?;
    Ok((Some(days), rest))
}

/// The statement that the tokens after ALLOW form. BadSyntax if they form none.
#[tactic(auto, unfolding(crate::specs::StatementFinder::allow_of))]
pub fn allow(alloc: Global, tokens: &[Token]) -> Result<Stmt, SyntaxFault>
    ensures { Gives (λ s. s) result (allow_of (kinds tokens.now)) }
{
    let (disclosure, rest) = disclosed(alloc, tokens)?;
    let (item, rest) = with_item(alloc, rest)?;
    let (days, rest) = retention(rest)?;
    with_end(
        Stmt::Allow {
            purpose: disclosure.purpose,
            recipient: disclosure.recipient,
            table: disclosure.table,
            columns: disclosure.columns,
            item,
            days,
        },
        rest,
    )
}

/// The statement that the tokens after REVOKE form. BadSyntax if they form none.
#[tactic(auto, unfolding(crate::specs::StatementFinder::revoke_of))]
pub fn revoke(alloc: Global, tokens: &[Token]) -> Result<Stmt, SyntaxFault>
    ensures { Gives (λ s. s) result (revoke_of (kinds tokens.now)) }
{
    let (disclosure, rest) = disclosed(alloc, tokens)?;
    with_end(
        Stmt::Revoke {
            purpose: disclosure.purpose,
            recipient: disclosure.recipient,
            table: disclosure.table,
            columns: disclosure.columns,
        },
        rest,
    )
}

fn yes_or_no(tokens: &[Token]) -> Result<(bool, &[Token]), SyntaxFault>
    ensures { Reads (one_of KYes true KNo false) tokens.now result }
{
    if let Some(rest) = after_keyword(tokens, Keyword::KYes) {
        return Ok((true, rest));
    }
    let rest = expect_keyword(tokens, Keyword::KNo)?;
    Ok((false, rest))
}

/// The statement that the tokens after CHOICE form. BadSyntax if they form none.
#[tactic(auto, unfolding(crate::specs::StatementFinder::choice_of))]
pub fn choice(alloc: Global, tokens: &[Token]) -> Result<Stmt, SyntaxFault>
    ensures { Gives (λ s. s) result (choice_of (kinds tokens.now)) }
{
    let (subject, rest) = number(tokens)?;
    let rest = expect_keyword(rest, Keyword::KOn)?;
    let (item, rest) = name(alloc, rest)?;
    let rest = expect_keyword(rest, Keyword::KIs)?;
    let (yes, rest) = yes_or_no(rest)?;
    with_end(Stmt::Choice { subject, item, yes }, rest)
}
