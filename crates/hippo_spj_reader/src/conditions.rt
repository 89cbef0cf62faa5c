//! Reads conditions, operands and columns.

ghost use Rattle.std.specs.Prelude.{◌≡◌, ◌≢◌, ℕ, ◌<◌, ◌≤◌, [], ◌∷◌, length, IfOk, IfSome, option_map, MatchResult};
ghost use Rattle.hippo_spj_reader.specs.Promises.{AddsPart, CanBeRead, Gives, GivesPart, LeavesNoMore, Reads, ReadsAll};
ghost use Rattle.hippo_spj_reader.specs.Front.{kinds, kinds_between};
ghost use Rattle.hippo_spj_reader.specs.ConditionGrammar.{RawCond, any_of, all_of, IsCondition};
ghost use Rattle.hippo_spj_reader.specs.ConditionFinder.{leading_column, begins_with_name, leading_operand, operator_of, leading_operator, leading_comparison, leading_between, leading_among, leading_range, leading_null, leading_test, conjunction_with, condition_with, primary_with, leading_negation, leading_condition};

use crate::front::{
    after_keyword, after_symbol, expect_keyword, expect_symbol, literal, name, split,
};
use crate::lists::{Commas, Part, list, only, whole};
use crate::pairs::beside;
use hippo_lexer::{Keyword, Symbol, SyntaxFault, Token, TokenKind, Tokens};
use hippo_model::CondOf;
use hippo_stmt_ast::{RawColumn, RawCond, RawOperand};
use hippo_values::{Boxed, CompareOp, Sequence};
use std::alloc::Global;

/// The column at the front of the tokens, with or without its table, and the tokens after it.
/// BadSyntax if there is none.
pub fn column(alloc: Global, tokens: &[Token]) -> Result<(RawColumn, &[Token]), SyntaxFault>
    ensures { Reads leading_column tokens.now result }
{
    let (first, rest) = name(alloc, tokens)?;
    let Some(remaining) = after_symbol(rest, Symbol::Dot) else {
        let table = None;
        return Ok((
            RawColumn {
                table,
                column: first,
            },
            rest,
        ));
    };
    let (column, rest) = name(alloc, remaining)?;
    let table = Some(first);
    Ok((RawColumn { table, column }, rest))
}

/// The grammar rule of a column.
pub struct ColumnPart;

impl Part for ColumnPart {
    ghost use Rattle.hippo_spj_reader.specs.ConditionFinder.{leading_column};

    type Reading = RawColumn;

    ghost leading = { leading_column };

    fn read(alloc: Global, tokens: &[Token]) -> Result<(RawColumn, &[Token]), SyntaxFault> {
        column(alloc, tokens)
    }
}

fn begins_with_name(tokens: &[Token]) -> bool
    ensures { result ≡ begins_with_name (kinds tokens.now) }
{
    matches!(split(tokens), Some((TokenKind::Word(_), _)))
}

fn column_operand(alloc: Global, column: RawColumn) -> Result<RawOperand, SyntaxFault>
    ensures { Gives (λ made. made) result (Some (RawOperand.Column column)) }
{
    Ok(RawOperand::Column(Boxed::new(alloc, column)?))
}

/// The operand at the front of the tokens, and the tokens after it. BadSyntax if there is none.
pub fn operand(alloc: Global, tokens: &[Token]) -> Result<(RawOperand, &[Token]), SyntaxFault>
    ensures { Reads leading_operand tokens.now result }
{
    if begins_with_name(tokens) {
        let (found, rest) = column(alloc, tokens)?;
        return Ok((column_operand(alloc, found)?, rest));
    }
    let (found, rest) = literal(alloc, tokens)?;
    Ok((RawOperand::Literal(found), rest))
}

fn operator_of(symbol: Symbol) -> Option<CompareOp>
    ensures { result ≡ operator_of symbol }
{
    match symbol {
        Symbol::Equal => Some(CompareOp::Eq),
        Symbol::NotEqual => Some(CompareOp::Ne),
        Symbol::Less => Some(CompareOp::Lt),
        Symbol::LessEqual => Some(CompareOp::Le),
        Symbol::Greater => Some(CompareOp::Gt),
        Symbol::GreaterEqual => Some(CompareOp::Ge),
        _ => None,
    }
}

fn operator(tokens: &[Token]) -> Option<(CompareOp, &[Token])>
    ensures found { option_map (λ x. (x.0, kinds x.1.now)) result
        ≡ leading_operator (kinds tokens.now) }
    ensures shorter { IfSome result (λ x. length x.1.now < length tokens.now) }
{
    match split(tokens)? {
        (TokenKind::Symbol(symbol), rest) => Some((operator_of(*symbol)?, rest)),
        _ => None,
    }
}

// The grammar rule of an operand.
struct OperandPart;

impl Part for OperandPart {
    ghost use Rattle.hippo_spj_reader.specs.ConditionFinder.{leading_operand};

    type Reading = RawOperand;

    ghost leading = { leading_operand };

    fn read(alloc: Global, tokens: &[Token]) -> Result<(RawOperand, &[Token]), SyntaxFault> {
        operand(alloc, tokens)
    }
}

fn negated(alloc: Global, part: RawCond) -> Result<RawCond, SyntaxFault>
    ensures { Gives (λ made. made) result (Some (CondOf.Not part)) }
{
    Ok(CondOf::Not(Boxed::new(alloc, part)?))
}

#[tactic(auto, unfolding(crate::specs::ConditionFinder::leading_comparison))]
fn comparison(
    alloc: Global,
    left: RawOperand,
    op: CompareOp,
    tokens: &[Token],
) -> Result<(RawCond, &[Token]), SyntaxFault>
    ensures { Reads (leading_comparison left op) tokens.now result }
{
    let (right, rest) = operand(alloc, tokens)?;
    Ok((CondOf::Compare { op, left, right }, rest))
}

#[tactic(auto, unfolding(crate::specs::ConditionFinder::leading_between))]
fn between(
    alloc: Global,
    value: RawOperand,
    tokens: &[Token],
) -> Result<(RawCond, &[Token]), SyntaxFault>
    ensures { Reads (leading_between value) tokens.now result }
{
    let (value, (low, rest)) = beside(value, operand(alloc, tokens))?;
    let (ends, rest) = beside((value, low), expect_keyword(rest, Keyword::KAnd))?;
    let ((value, low), (high, rest)) = beside(ends, operand(alloc, rest))?;
    Ok((CondOf::Between { value, low, high }, rest))
}

#[tactic(auto, unfolding(crate::specs::ConditionFinder::leading_among))]
fn among(
    alloc: Global,
    value: RawOperand,
    tokens: &[Token],
) -> Result<(RawCond, &[Token]), SyntaxFault>
    ensures { Reads (leading_among value) tokens.now result }
{
    let (value, inside) = beside(value, expect_symbol(tokens, Symbol::LeftParen))?;
    let (value, (list, rest)) = beside(value, list::<OperandPart, Commas>(alloc, inside))?;
    let ((value, list), rest) = beside((value, list), expect_symbol(rest, Symbol::RightParen))?;
    Ok((CondOf::Among { value, list }, rest))
}

#[tactic(auto, unfolding(crate::specs::ConditionFinder::leading_range))]
fn range(
    alloc: Global,
    value: RawOperand,
    tokens: &[Token],
) -> Result<(RawCond, &[Token]), SyntaxFault>
    ensures { Reads (leading_range value) tokens.now result }
{
    if let Some(remaining) = after_keyword(tokens, Keyword::KBetween) {
        return between(alloc, value, remaining);
    }
    let remaining = expect_keyword(tokens, Keyword::KIn)?;
    among(alloc, value, remaining)
}

#[tactic(auto, unfolding(crate::specs::ConditionFinder::leading_null))]
fn null_test(
    alloc: Global,
    value: RawOperand,
    tokens: &[Token],
) -> Result<(RawCond, &[Token]), SyntaxFault>
    ensures { Reads (leading_null value) tokens.now result }
{
    if let Some(remaining) = after_keyword(tokens, Keyword::KNot) {
        let (value, rest) = beside(value, expect_keyword(remaining, Keyword::KNull))?;
        return Ok((negated(alloc, CondOf::Missing { value })?, rest));
    }
    let (value, rest) = beside(value, expect_keyword(tokens, Keyword::KNull))?;
    Ok((CondOf::Missing { value }, rest))
}

#[tactic(auto, unfolding(crate::specs::ConditionFinder::leading_test))]
fn test(
    alloc: Global,
    value: RawOperand,
    tokens: &[Token],
) -> Result<(RawCond, &[Token]), SyntaxFault>
    ensures { Reads (leading_test value) tokens.now result }
{
    if let Some(remaining) = after_keyword(tokens, Keyword::KNot) {
        let (part, rest) = range(alloc, value, remaining)?;
        return Ok((negated(alloc, part)?, rest));
    }
    if let Some(remaining) = after_keyword(tokens, Keyword::KIs) {
        return null_test(alloc, value, remaining);
    }
    if let Some((op, remaining)) = operator(tokens) {
        return comparison(alloc, value, op, remaining);
    }
    range(alloc, value, tokens)
}

// The only part of a list, or the list back if it does not have exactly one part.
fn single(parts: Sequence<RawCond>) -> Result<RawCond, Sequence<RawCond>>
    ensures { MatchResult result (λ part. parts ≡ part ∷ [])
        (λ same. (same ≡ parts) × (length parts ≢ 1)) }
{
    let mut members = parts.into_vec();
    if members.len() == 1
        && let Some(part) = members.pop()
    {
        return Ok(part);
    }
    Err(Sequence::from_vec(members))
}

fn any_of(parts: Sequence<RawCond>) -> RawCond
    ensures { result ≡ any_of parts }
{
    match single(parts) {
        Ok(part) => part,
        Err(parts) => CondOf::Any(parts),
    }
}

fn all_of(parts: Sequence<RawCond>) -> RawCond
    ensures { result ≡ all_of parts }
{
    match single(parts) {
        Ok(part) => part,
        Err(parts) => CondOf::All(parts),
    }
}

#[cycle(condition)]
#[inline(always)]
fn primary(alloc: Global, tokens: &[Token]) -> Result<(RawCond, &[Token]), SyntaxFault>
    ensures found { (n : ℕ) → length tokens.now ≤ n →
        GivesPart result (primary_with (leading_negation n) (kinds tokens.now)) }
    ensures no_longer { LeavesNoMore tokens.now result }
{
    if let Some(inside) = after_symbol(tokens, Symbol::LeftParen) {
        let (found, rest) = disjunction(alloc, inside)?;
        return beside(found, expect_symbol(rest, Symbol::RightParen));
    }
    let (value, rest) = operand(alloc, tokens)?;
    test(alloc, value, rest)
}

#[cycle(condition)]
fn negation(alloc: Global, tokens: &[Token]) -> Result<(RawCond, &[Token]), SyntaxFault>
    ensures found { (n : ℕ) → length tokens.now < n →
        GivesPart result (leading_negation n (kinds tokens.now)) }
    ensures no_longer { LeavesNoMore tokens.now result }
{
    if let Some(remaining) = after_keyword(tokens, Keyword::KNot) {
        let (part, rest) = negation(alloc, remaining)?;
        return Ok((negated(alloc, part)?, rest));
    }
    primary(alloc, tokens)
}

#[cycle(condition)]
fn add_negation<'a>(
    alloc: Global,
    parts: &mut Sequence<RawCond>,
    tokens: &'a [Token],
) -> Result<&'a [Token], SyntaxFault>
    ensures found { (n : ℕ) → length tokens.now < n → AddsPart parts.old parts.new result
        (leading_negation n (kinds tokens.now)) }
    ensures no_longer { IfOk result (λ rest. length rest.now ≤ length tokens.now) }
{
    let (part, rest) = negation(alloc, tokens)?;
    parts.push(part)?;
    Ok(rest)
}

#[cycle(condition)]
#[inline(always)]
fn conjunction(alloc: Global, tokens: &[Token]) -> Result<(RawCond, &[Token]), SyntaxFault>
    ensures found { (n : ℕ) → length tokens.now < n →
        GivesPart result (conjunction_with (leading_negation n) (kinds tokens.now)) }
    ensures no_longer { LeavesNoMore tokens.now result }
{
    let (first, mut rest) = negation(alloc, tokens)?;
    if after_keyword(rest, Keyword::KAnd).is_none() {
        return Ok((first, rest));
    }
    let mut parts = only(alloc, first)?;
    while let Some(remaining) = after_keyword(rest, Keyword::KAnd) {
        rest = add_negation(alloc, &mut parts, remaining)?;
    }
    Ok((all_of(parts), rest))
}

#[cycle(condition)]
fn add_conjunction<'a>(
    alloc: Global,
    parts: &mut Sequence<RawCond>,
    tokens: &'a [Token],
) -> Result<&'a [Token], SyntaxFault>
    ensures found { (n : ℕ) → length tokens.now < n → AddsPart parts.old parts.new result
        (conjunction_with (leading_negation n) (kinds tokens.now)) }
    ensures no_longer { IfOk result (λ rest. length rest.now ≤ length tokens.now) }
{
    let (part, rest) = conjunction(alloc, tokens)?;
    parts.push(part)?;
    Ok(rest)
}

#[cycle(condition)]
fn disjunction(alloc: Global, tokens: &[Token]) -> Result<(RawCond, &[Token]), SyntaxFault>
    ensures found { (n : ℕ) → length tokens.now < n →
        GivesPart result (condition_with (leading_negation n) (kinds tokens.now)) }
    ensures no_longer { LeavesNoMore tokens.now result }
{
    let (first, mut rest) = conjunction(alloc, tokens)?;
    if after_keyword(rest, Keyword::KOr).is_none() {
        return Ok((first, rest));
    }
    let mut parts = only(alloc, first)?;
    while let Some(remaining) = after_keyword(rest, Keyword::KOr) {
        rest = add_conjunction(alloc, &mut parts, remaining)?;
    }
    Ok((any_of(parts), rest))
}

/// The longest condition at the front of the tokens, and the tokens after it. BadSyntax if there is
/// none.
pub fn condition(alloc: Global, tokens: &[Token]) -> Result<(RawCond, &[Token]), SyntaxFault>
    ensures { Reads leading_condition tokens.now result }
{
    disjunction(alloc, tokens)
}

// The grammar rule of a condition.
struct ConditionPart;

impl Part for ConditionPart {
    ghost use Rattle.hippo_spj_reader.specs.ConditionFinder.{leading_condition};

    type Reading = RawCond;

    ghost leading = { leading_condition };

    fn read(alloc: Global, tokens: &[Token]) -> Result<(RawCond, &[Token]), SyntaxFault> {
        condition(alloc, tokens)
    }
}

/// The condition that the tokens from place `first` up to, but not including, place `last` form.
/// BadSyntax exactly if they form no condition; it may also fail when out of memory. The recursion
/// is as deep as NOT and the parentheses.
pub fn read_condition(
    alloc: Global,
    t: &Tokens,
    first: usize,
    last: usize,
) -> Result<RawCond, SyntaxFault>
    requires { CanBeRead t.now first last }
    ensures { ReadsAll IsCondition (kinds_between t.now first last) result }
{
    whole::<ConditionPart>(alloc, &t.as_slice()[first..last])
}
