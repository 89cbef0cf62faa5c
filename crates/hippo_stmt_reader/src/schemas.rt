//! Reads CREATE TABLE, PURPOSE, RECIPIENT and ITEM.
ghost use Rattle.std.specs.Prelude.{◌≡◌};
ghost use Rattle.hippo_values.specs.declared.keywords.Keyword.TheVariants.{KIn, KOut};
ghost use Rattle.hippo_model.specs.declared.entry.ItemKind.TheVariants.{OptIn, OptOut};
ghost use Rattle.hippo_spj_reader.specs.Promises.{Gives, Reads};
ghost use Rattle.hippo_spj_reader.specs.Front.{kinds};
ghost use Rattle.hippo_stmt_reader.specs.StatementFinder.{column_kind_of, leading_column_kind, leading_column_def, after_column, leading_subject, create_table_of, create_purpose_of, create_recipient_of, one_of, create_item_of, create_of};

use crate::parts::{names, with_end};
use hippo_lexer::{Keyword, Symbol, SyntaxFault, Token, TokenKind};
use hippo_model::{Column, ColumnKind, ItemKind};
use hippo_spj_reader::{
    Part, Separator, after_keyword, after_symbol, expect_keyword, expect_symbol, list, name, split,
};
use hippo_stmt_ast::Stmt;
use hippo_values::Name;
use std::alloc::Global;

fn column_kind_of(keyword: Keyword) -> Option<ColumnKind>
    ensures { result ≡ column_kind_of keyword }
{
    match keyword {
        Keyword::KInteger => Some(ColumnKind::Integer),
        Keyword::KText => Some(ColumnKind::Text),
        Keyword::KDate => Some(ColumnKind::Date),
        _ => None,
    }
}

fn column_kind(tokens: &[Token]) -> Result<(ColumnKind, &[Token]), SyntaxFault>
    ensures { Reads leading_column_kind tokens.now result }
{
    let Some((TokenKind::Keyword(keyword), rest)) = split(tokens) else {
        return Err(SyntaxFault::BadSyntax);
    };
    let kind = column_kind_of(*keyword).ok_or(SyntaxFault::BadSyntax)?;
    Ok((kind, rest))
}

#[tactic(auto, unfolding(crate::specs::StatementFinder::leading_column_def))]
fn column_def(alloc: Global, tokens: &[Token]) -> Result<(Column, &[Token]), SyntaxFault>
    ensures { Reads leading_column_def tokens.now result }
{
    let (name, rest) = name(alloc, tokens)?;
    let (kind, rest) = column_kind(rest)?;
    let (not_null, rest) = match after_keyword(rest, Keyword::KNot) {
        Some(remaining) => (true, expect_keyword(remaining, Keyword::KNull)?),
        None => (false, rest),
    };
    let column = Column {
        name,
        kind,
        not_null,
    };
    Ok((column, rest))
}

// The grammar rule of a column of CREATE TABLE.
struct ColumnDefPart;

impl Part for ColumnDefPart {
    ghost use Rattle.hippo_stmt_reader.specs.StatementFinder.{leading_column_def};

    type Reading = Column;

    ghost leading = { leading_column_def };

    fn read(alloc: Global, tokens: &[Token]) -> Result<(Column, &[Token]), SyntaxFault> {
        column_def(alloc, tokens)
    }
}

// The comma between columns. A comma before PRIMARY KEY is not one of these.
struct ColumnCommas;

impl Separator for ColumnCommas {
    ghost use Rattle.hippo_stmt_reader.specs.StatementFinder.{after_column};

    ghost after = { after_column };

    fn pass(tokens: &[Token]) -> Option<&[Token]> {
        let remaining = after_symbol(tokens, Symbol::Comma)?;
        match split(remaining) {
            Some((TokenKind::Word(_), _)) => Some(remaining),
            _ => None,
        }
    }
}

#[tactic(auto, unfolding(crate::specs::StatementFinder::leading_subject))]
fn subject(alloc: Global, tokens: &[Token]) -> Result<(Option<Name>, &[Token]), SyntaxFault>
    ensures { Reads leading_subject tokens.now result }
{
    let Some(remaining) = after_symbol(tokens, Symbol::Comma) else {
        return Ok((None, tokens));
    };
    let rest = expect_keyword(remaining, Keyword::KSubject)?;
    let (column, rest) = name(alloc, rest)?;
    Ok((Some(column), rest))
}

#[tactic(auto, unfolding(crate::specs::StatementFinder::create_table_of))]
fn create_table(alloc: Global, tokens: &[Token]) -> Result<Stmt, SyntaxFault>
    ensures { Gives (λ s. s) result (create_table_of (kinds tokens.now)) }
{
    let (table, rest) = name(alloc, tokens)?;
    let rest = expect_symbol(rest, Symbol::LeftParen)?;
    let (columns, rest) = list::<ColumnDefPart, ColumnCommas>(alloc, rest)?;
    let rest = expect_symbol(rest, Symbol::Comma)?;
    let rest = expect_keyword(rest, Keyword::KPrimary)?;
    let rest = expect_keyword(rest, Keyword::KKey)?;
    let (key, rest) = names(alloc, rest)?;
    let (subject, rest) = subject(alloc, rest)?;
    let rest = expect_symbol(rest, Symbol::RightParen)?;
    with_end(
        Stmt::CreateTable {
            table,
            columns,
            key,
            subject,
        },
        rest,
    )
}

#[tactic(auto, unfolding(crate::specs::StatementFinder::create_purpose_of))]
fn create_purpose(alloc: Global, tokens: &[Token]) -> Result<Stmt, SyntaxFault>
    ensures { Gives (λ s. s) result (create_purpose_of (kinds tokens.now)) }
{
    let (purpose, rest) = name(alloc, tokens)?;
    with_end(Stmt::CreatePurpose(purpose), rest)
}

#[tactic(auto, unfolding(crate::specs::StatementFinder::create_recipient_of))]
fn create_recipient(alloc: Global, tokens: &[Token]) -> Result<Stmt, SyntaxFault>
    ensures { Gives (λ s. s) result (create_recipient_of (kinds tokens.now)) }
{
    let (recipient, rest) = name(alloc, tokens)?;
    with_end(Stmt::CreateRecipient(recipient), rest)
}

fn item_kind(tokens: &[Token]) -> Result<(ItemKind, &[Token]), SyntaxFault>
    ensures { Reads (one_of KIn OptIn KOut OptOut) tokens.now result }
{
    if let Some(rest) = after_keyword(tokens, Keyword::KIn) {
        return Ok((ItemKind::OptIn, rest));
    }
    let rest = expect_keyword(tokens, Keyword::KOut)?;
    Ok((ItemKind::OptOut, rest))
}

#[tactic(auto, unfolding(crate::specs::StatementFinder::create_item_of))]
fn create_item(alloc: Global, tokens: &[Token]) -> Result<Stmt, SyntaxFault>
    ensures { Gives (λ s. s) result (create_item_of (kinds tokens.now)) }
{
    let (item, rest) = name(alloc, tokens)?;
    let rest = expect_keyword(rest, Keyword::KOpt)?;
    let (kind, rest) = item_kind(rest)?;
    with_end(Stmt::CreateItem { item, kind }, rest)
}

/// The statement that the tokens after CREATE form. BadSyntax if they form none.
#[tactic(auto, unfolding(crate::specs::StatementFinder::create_of))]
pub fn create(alloc: Global, tokens: &[Token]) -> Result<Stmt, SyntaxFault>
    ensures { Gives (λ s. s) result (create_of (kinds tokens.now)) }
{
    if let Some(remaining) = after_keyword(tokens, Keyword::KTable) {
        return create_table(alloc, remaining);
    }
    if let Some(remaining) = after_keyword(tokens, Keyword::KPurpose) {
        return create_purpose(alloc, remaining);
    }
    if let Some(remaining) = after_keyword(tokens, Keyword::KRecipient) {
        return create_recipient(alloc, remaining);
    }
    let remaining = expect_keyword(tokens, Keyword::KItem)?;
    create_item(alloc, remaining)
}
