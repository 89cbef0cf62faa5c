//! Reads a statement, whatever its kind.
ghost use Rattle.std.specs.Prelude.{◌≡◌, ◌<◌, length, is_some, IsTrue, IfOk, IfErr};
ghost use Rattle.hippo_stmt_ast.specs.declared.statement.Stmt.{Stmt};
ghost use Rattle.hippo_lexer.specs.Words.{words_check};
ghost use Rattle.hippo_spj_reader.specs.Promises.{Gives};
ghost use Rattle.hippo_spj_reader.specs.Front.{kinds, after_keyword, after_word};
ghost use Rattle.hippo_stmt_reader.specs.StatementGrammar.{IsStatement, IsRefusal};
ghost use Rattle.hippo_stmt_reader.specs.StatementFinder.{console_after, console_by_keyword, console_of, audit_statement_of, begin_audit_of, watch_of, explain_of, placed_select_of, open_of, extract_of, select_of, statement_of};

use crate::changes::{delete, insert, update};
use crate::parts::{number, with_end};
use crate::policies::{allow, choice, grant, revoke};
use crate::schemas::create;
use hippo_audit_reader::audit;
use hippo_lexer::{Keyword, SyntaxFault, Token, TokenKind, Tokens, check_words};
use hippo_spj_reader::{after_keyword, after_word, expect_keyword, select, split};
use hippo_stmt_ast::{RawSelect, Stmt};
use std::alloc::Global;

#[tactic(auto, unfolding(crate::specs::StatementFinder::audit_statement_of))]
fn audit_statement(alloc: Global, tokens: &[Token]) -> Result<Stmt, SyntaxFault>
    ensures { Gives (λ s. s) result (audit_statement_of (kinds tokens.now)) }
{
    let (audit, rest) = audit(alloc, tokens)?;
    with_end(Stmt::Audit(audit), rest)
}

#[tactic(auto, unfolding(crate::specs::StatementFinder::begin_audit_of))]
fn begin_audit(alloc: Global, tokens: &[Token]) -> Result<Stmt, SyntaxFault>
    ensures { Gives (λ s. s) result (begin_audit_of (kinds tokens.now)) }
{
    let rest = expect_keyword(tokens, Keyword::KAudit)?;
    let (audit, rest) = audit(alloc, rest)?;
    with_end(Stmt::BeginAudit(audit), rest)
}

#[tactic(auto, unfolding(crate::specs::StatementFinder::watch_of))]
fn watch(alloc: Global, tokens: &[Token]) -> Result<Stmt, SyntaxFault>
    ensures { Gives (λ s. s) result (watch_of (kinds tokens.now)) }
{
    let (audit, rest) = audit(alloc, tokens)?;
    with_end(Stmt::Watch(audit), rest)
}

#[tactic(auto, unfolding(crate::specs::StatementFinder::explain_of))]
fn explain(tokens: &[Token]) -> Result<Stmt, SyntaxFault>
    ensures { Gives (λ s. s) result (explain_of (kinds tokens.now)) }
{
    let (number, rest) = number(tokens)?;
    with_end(Stmt::Explain(number), rest)
}

// The statement of the console that begins with this keyword, read from the tokens after it.
#[inline(never)]
#[tactic(auto, unfolding(crate::specs::StatementFinder::console_after))]
fn console_after(alloc: Global, keyword: Keyword, tokens: &[Token]) -> Result<Stmt, SyntaxFault>
    ensures { Gives (λ s. s) result (console_after keyword (kinds tokens.now)) }
{
    match keyword {
        Keyword::KCreate => create(alloc, tokens),
        Keyword::KAuthorize => grant(alloc, true, tokens),
        Keyword::KDeauthorize => grant(alloc, false, tokens),
        Keyword::KAllow => allow(alloc, tokens),
        Keyword::KRevoke => revoke(alloc, tokens),
        Keyword::KChoice => choice(alloc, tokens),
        Keyword::KInsert => insert(alloc, tokens),
        Keyword::KUpdate => update(alloc, tokens),
        Keyword::KDelete => delete(alloc, tokens),
        Keyword::KExplain => explain(tokens),
        Keyword::KBegin => begin_audit(alloc, tokens),
        _ => Err(SyntaxFault::BadSyntax),
    }
}

#[inline(never)]
fn console_by_keyword(alloc: Global, tokens: &[Token]) -> Result<Stmt, SyntaxFault>
    ensures { Gives (λ s. s) result (console_by_keyword (kinds tokens.now)) }
{
    match split(tokens) {
        Some((TokenKind::Keyword(keyword), rest)) => console_after(alloc, *keyword, rest),
        _ => Err(SyntaxFault::BadSyntax),
    }
}

#[inline(never)]
#[tactic(auto, unfolding(crate::specs::StatementFinder::console_of))]
fn console(alloc: Global, tokens: &[Token]) -> Result<Stmt, SyntaxFault>
    ensures { Gives (λ s. s) result (console_of (kinds tokens.now)) }
{
    if begins_with(tokens, Keyword::KDuring) {
        return audit_statement(alloc, tokens);
    }
    if let Some(remaining) = after_word(tokens, "watch") {
        return watch(alloc, remaining);
    }
    console_by_keyword(alloc, tokens)
}

fn begins_with(tokens: &[Token], keyword: Keyword) -> bool
    ensures first { result ≡ is_some (after_keyword keyword (kinds tokens.now)) }
    ensures some { IsTrue result → 0 < length tokens.now }
{
    after_keyword(tokens, keyword).is_some()
}

fn begins_with_word(tokens: &[Token], word: &str) -> bool
    ensures first { result ≡ is_some (after_word word.now (kinds tokens.now)) }
    ensures some { IsTrue result → 0 < length tokens.now }
{
    after_word(tokens, word).is_some()
}

// A select, and where its text begins and ends.
#[derive(Drop)]
struct PlacedSelect {
    select: RawSelect,
    start: usize,
    end: usize,
}

#[tactic(auto, unfolding(crate::specs::StatementFinder::placed_select_of))]
fn placed_select(alloc: Global, tokens: &[Token]) -> Result<PlacedSelect, SyntaxFault>
    ensures { Gives (λ x. (x.select, x.start, x.end)) result (placed_select_of tokens.now) }
{
    let (select, rest) = select(alloc, tokens)?;
    let text = &tokens[..tokens.len() - rest.len()];
    let (Some(first), Some(last)) = (text.first(), text.last()) else {
        drop(select);
        return Err(SyntaxFault::BadSyntax);
    };
    with_end(
        PlacedSelect {
            select,
            start: first.start,
            end: last.end,
        },
        rest,
    )
}

#[tactic(auto, unfolding(crate::specs::StatementFinder::open_of))]
fn open_statement(alloc: Global, tokens: &[Token]) -> Result<Stmt, SyntaxFault>
    ensures { Gives (λ s. s) result (open_of tokens.now) }
{
    let PlacedSelect { select, start, end } = placed_select(alloc, tokens)?;
    Ok(Stmt::Ask { select, start, end })
}

#[tactic(auto, unfolding(crate::specs::StatementFinder::extract_of))]
fn extract_statement(alloc: Global, tokens: &[Token]) -> Result<Stmt, SyntaxFault>
    ensures { Gives (λ s. s) result (extract_of tokens.now) }
{
    let PlacedSelect { select, start, end } = placed_select(alloc, tokens)?;
    Ok(Stmt::Extract { select, start, end })
}

#[tactic(auto, unfolding(crate::specs::StatementFinder::select_of))]
fn select_statement(alloc: Global, tokens: &[Token]) -> Result<Stmt, SyntaxFault>
    ensures { Gives (λ s. s) result (select_of tokens.now) }
{
    let PlacedSelect { select, start, end } = placed_select(alloc, tokens)?;
    Ok(Stmt::Select { select, start, end })
}

#[inline(never)]
#[tactic(auto, unfolding(crate::specs::StatementFinder::statement_of))]
fn statement(alloc: Global, tokens: &[Token]) -> Result<Stmt, SyntaxFault>
    ensures { Gives (λ s. s) result (statement_of tokens.now) }
{
    if begins_with(tokens, Keyword::KOpen) {
        return open_statement(alloc, &tokens[1..]);
    }
    if begins_with(tokens, Keyword::KSelect) {
        return select_statement(alloc, tokens);
    }
    if begins_with_word(tokens, "extract") {
        return extract_statement(alloc, &tokens[1..]);
    }
    console(alloc, tokens)
}

/// The statement that the tokens form, with or without a `;` at the end. TooDeep and Unsupported
/// come as `check_words` returns them. BadSyntax comes exactly if the words pass and the tokens
/// form no statement. It may also fail when out of memory.
pub fn read_statement(alloc: Global, t: &Tokens) -> Result<Stmt, SyntaxFault>
    ensures found { IfOk result (IsStatement t.now) }
    ensures only { IfOk result (λ stmt. (other : Stmt) → IsStatement t.now other → other ≡ stmt) }
    ensures words { IfOk result (λ _. words_check t.now ≡ Ok tt) }
    ensures errors { IfErr result (IsRefusal t.now) }
{
    check_words(t)?;
    statement(alloc, t.as_slice())
}
