//! Reads audit expressions.

ghost use Rattle.std.specs.Prelude.{◌≡◌, ◌≤◌, length, option_to_list, IfOk, Some};
ghost use Rattle.hippo_spj_reader.specs.Promises.{CanBeRead, Reads, ReadsAll};
ghost use Rattle.hippo_spj_reader.specs.Front.{kinds, kinds_between};
ghost use Rattle.hippo_spj_reader.specs.SelectGrammar.{whole_condition};
ghost use Rattle.hippo_audit_reader.specs.AuditGrammar.{IsAudit};
ghost use Rattle.hippo_audit_reader.specs.AuditFinder.{leading_quoted, leading_pair, leading_exempt, leading_period, leading_shown, leading_audit};

use hippo_lexer::{Keyword, Symbol, SyntaxFault, Token, TokenKind, Tokens};
use hippo_model::{Pair, Pairs};
use hippo_spj_reader::{
    ColumnPart, Commas, NamePart, Part, after_keyword, after_where, expect_keyword, expect_symbol,
    list, name, split, whole, whole_condition,
};
use hippo_stmt_ast::{RawAudit, RawCond};
use hippo_values::{Memory, Sequence, Txt};
use std::alloc::Global;

fn quoted(alloc: Global, tokens: &[Token]) -> Result<(Txt, &[Token]), SyntaxFault>
    ensures { Reads leading_quoted tokens.now result }
{
    match split(tokens) {
        Some((TokenKind::Quoted(text), rest)) => Ok((Txt::from_str(alloc, text.as_str())?, rest)),
        _ => Err(SyntaxFault::BadSyntax),
    }
}

#[tactic(auto, unfolding(crate::specs::AuditFinder::leading_pair))]
fn pair(alloc: Global, tokens: &[Token]) -> Result<(Pair, &[Token]), SyntaxFault>
    ensures { Reads leading_pair tokens.now result }
{
    let inside = expect_symbol(tokens, Symbol::LeftParen)?;
    let (purpose, rest) = name(alloc, inside)?;
    let rest = expect_symbol(rest, Symbol::Comma)?;
    let (recipient, rest) = name(alloc, rest)?;
    let rest = expect_symbol(rest, Symbol::RightParen)?;
    Ok((Pair { purpose, recipient }, rest))
}

// The grammar rule of a pair.
struct PairPart;

impl Part for PairPart {
    ghost use Rattle.hippo_audit_reader.specs.AuditFinder.{leading_pair};

    type Reading = Pair;

    ghost leading = { leading_pair };

    fn read(alloc: Global, tokens: &[Token]) -> Result<(Pair, &[Token]), SyntaxFault> {
        pair(alloc, tokens)
    }
}

#[tactic(auto, unfolding(crate::specs::AuditFinder::leading_exempt))]
fn exempt(alloc: Global, tokens: &[Token]) -> Result<(Pairs, &[Token]), SyntaxFault>
    ensures { Reads leading_exempt tokens.now result }
{
    let Some(remaining) = after_keyword(tokens, Keyword::KOtherthan) else {
        return Ok((Sequence::new(alloc), tokens));
    };
    list::<PairPart, Commas>(alloc, remaining)
}

// The texts that write the period's beginning and end.
#[derive(Drop)]
struct Period {
    from: Txt,
    to: Txt,
}

#[tactic(auto, unfolding(crate::specs::AuditFinder::leading_period))]
fn during(alloc: Global, tokens: &[Token]) -> Result<(Period, &[Token]), SyntaxFault>
    ensures { Reads leading_period tokens.now result }
{
    let rest = expect_keyword(tokens, Keyword::KDuring)?;
    let (from, rest) = quoted(alloc, rest)?;
    let rest = expect_keyword(rest, Keyword::KTo)?;
    let (to, rest) = quoted(alloc, rest)?;
    Ok((Period { from, to }, rest))
}

// Whether SHOWN comes first, and the tokens after it.
#[tactic(auto, unfolding(crate::specs::AuditFinder::leading_shown))]
fn shown(tokens: &[Token]) -> (bool, &[Token])
    ensures found { leading_shown (kinds tokens.now) ≡ Some (result.0, kinds result.1.now) }
    ensures no_longer { length result.1.now ≤ length tokens.now }
{
    match after_keyword(tokens, Keyword::KShown) {
        Some(rest) => (true, rest),
        None => (false, tokens),
    }
}

// The condition of a statement with this WHERE condition, if it has one.
fn condition_of(alloc: Global, condition: Option<RawCond>) -> Result<RawCond, Memory>
    ensures { IfOk result (λ whole. whole ≡ whole_condition (option_to_list condition)) }
{
    let mut conditions = Sequence::new(alloc);
    if let Some(condition) = condition {
        conditions.push(condition)?;
    }
    whole_condition(alloc, conditions)
}

/// The longest audit expression at the front of the tokens, and the tokens after it. BadSyntax if
/// there is none.
#[tactic(auto, unfolding(crate::specs::AuditFinder::leading_audit))]
pub fn audit(alloc: Global, tokens: &[Token]) -> Result<(RawAudit, &[Token]), SyntaxFault>
    ensures { Reads leading_audit tokens.now result }
{
    let (period, rest) = during(alloc, tokens)?;
    let (exempt, rest) = exempt(alloc, rest)?;
    let rest = expect_keyword(rest, Keyword::KAudit)?;
    let (shown, rest) = shown(rest);
    let (columns, rest) = list::<ColumnPart, Commas>(alloc, rest)?;
    let rest = expect_keyword(rest, Keyword::KFrom)?;
    let (tables, rest) = list::<NamePart, Commas>(alloc, rest)?;
    let (last, rest) = after_where(alloc, rest)?;
    let Period { from, to } = period;
    let cond = condition_of(alloc, last)?;
    Ok((
        RawAudit {
            from,
            to,
            exempt,
            shown,
            columns,
            tables,
            cond,
        },
        rest,
    ))
}

// The grammar rule of an audit expression.
struct AuditPart;

impl Part for AuditPart {
    ghost use Rattle.hippo_audit_reader.specs.AuditFinder.{leading_audit};

    type Reading = RawAudit;

    ghost leading = { leading_audit };

    fn read(alloc: Global, tokens: &[Token]) -> Result<(RawAudit, &[Token]), SyntaxFault> {
        audit(alloc, tokens)
    }
}

/// The audit expression that the tokens from place `first` up to, but not including, place `last`
/// form. BadSyntax exactly if they form no audit expression; it may also fail when out of memory.
/// The recursion is as deep as NOT and the parentheses.
pub fn read_audit(
    alloc: Global,
    t: &Tokens,
    first: usize,
    last: usize,
) -> Result<RawAudit, SyntaxFault>
    requires { CanBeRead t.now first last }
    ensures { ReadsAll IsAudit (kinds_between t.now first last) result }
{
    whole::<AuditPart>(alloc, &t.as_slice()[first..last])
}
