//! The reading of a text as a statement.
ghost use Rattle.std.specs.Prelude.{◌≡◌, ◌⊎◌, map, Ok as Good, IfOk};
ghost use Rattle.std.specs.Char.{to_ascii_uppercase};
ghost use Rattle.hippo_lexer.specs.Words.{words_check};
ghost use Rattle.hippo_report.specs.declared.refusal.Refusal.TheVariants.{Memory as NoMemory};
ghost use Rattle.hippo_stmt_lines.specs.Commands.{lexing_refusal, refused_word, word_at, syntax_refusal, statement_by, statement_in, OrMemory};

use hippo_lexer::lexer::tokens;
use hippo_lexer::{LexFault, SyntaxFault, TokenKind, Tokens};
use hippo_report::Refusal;
use hippo_stmt_ast::Stmt;
use hippo_stmt_reader::read_statement;
use hippo_values::{Boxed, Memory, Txt};
use std::alloc::Global;

fn lexing_refusal(fault: LexFault) -> Refusal
    ensures { result ≡ lexing_refusal fault }
{
    match fault {
        LexFault::BadToken(place) => Refusal::BadToken(place),
        LexFault::NumberTooLarge(place) => Refusal::NumberTooLarge(place),
        LexFault::BadDate(place) => Refusal::BadDate(place),
        LexFault::Memory => Refusal::Memory,
    }
}

fn in_upper_case(alloc: Global, word: &str) -> Result<Txt, Memory>
    ensures { IfOk result (λ upper. upper ≡ map to_ascii_uppercase word.now) }
{
    Ok(Txt::from_string(word.to_ascii_uppercase(alloc)?))
}

fn refused_word(alloc: Global, kind: &TokenKind) -> Result<Txt, Memory>
    ensures { IfOk result (λ word. word ≡ refused_word kind.now) }
{
    match kind {
        TokenKind::Unsupported(word) => in_upper_case(alloc, word.as_str()),
        _ => Ok(Txt::new(alloc)),
    }
}

fn word_at(alloc: Global, tokens: &Tokens, place: usize) -> Result<Txt, Memory>
    ensures { IfOk result (λ word. word ≡ word_at tokens.now place) }
{
    match tokens.as_slice().get(place) {
        Some(token) => refused_word(alloc, &token.kind),
        None => Ok(Txt::new(alloc)),
    }
}

fn unsupported(alloc: Global, tokens: &Tokens, place: usize) -> Refusal
    ensures { (result ≡ syntax_refusal tokens.now (SyntaxFault.Unsupported place))
        ⊎ (result ≡ NoMemory) }
{
    match word_at(alloc, tokens, place) {
        Ok(word) => Refusal::Unsupported(word),
        Err(Memory) => Refusal::Memory,
    }
}

fn syntax_refusal(alloc: Global, tokens: &Tokens, fault: SyntaxFault) -> Refusal
    ensures { (result ≡ syntax_refusal tokens.now fault) ⊎ (result ≡ NoMemory) }
{
    match fault {
        SyntaxFault::TooDeep => Refusal::TooDeep,
        SyntaxFault::Unsupported(place) => unsupported(alloc, tokens, place),
        SyntaxFault::BadSyntax => Refusal::BadSyntax,
        SyntaxFault::Memory => Refusal::Memory,
    }
}

// A statement in a box, or out of memory.
fn boxed(alloc: Global, statement: Stmt) -> Result<Boxed<Stmt>, Refusal>
    ensures { OrMemory (Good statement) result }
{
    match Boxed::new(alloc, statement) {
        Ok(boxed) => Ok(boxed),
        Err(Memory) => Err(Refusal::Memory),
    }
}

fn statement_by(alloc: Global, tokens: &Tokens) -> Result<Boxed<Stmt>, Refusal>
    ensures { OrMemory (statement_by tokens.now (words_check tokens.now)) result }
{
    match read_statement(alloc, tokens) {
        Ok(statement) => boxed(alloc, statement),
        Err(fault) => Err(syntax_refusal(alloc, tokens, fault)),
    }
}

/// The statement that a text is, or why it is none. The checks are, in this order: its tokens,
/// their words, the grammar.
pub fn statement_in(alloc: Global, text: &str) -> Result<Boxed<Stmt>, Refusal>
    ensures { OrMemory (statement_in text.now) result }
{
    match tokens(alloc, text) {
        Ok(tokens) => statement_by(alloc, &tokens),
        Err(fault) => Err(lexing_refusal(fault)),
    }
}
