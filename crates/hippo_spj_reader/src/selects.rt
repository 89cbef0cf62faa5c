//! Reads selects: their items, their sources and their condition.

ghost use Rattle.std.specs.Prelude.{◌≡◌, [], ◌∷◌, ◌++◌, ◌<◌, ◌≤◌, length, IfOk, IfSome, OnOk, flat_map, option_map, option_to_list, true, false, Some, None, if◌then◌else◌};
ghost use Rattle.hippo_values.specs.declared.keywords.Keyword.TheVariants.{KDistinct};
ghost use Rattle.hippo_stmt_ast.specs.declared.statement.RawForm.TheVariants.{Plain, Distinct};
ghost use Rattle.hippo_stmt_ast.specs.declared.statement.RawSelect.{RawSelect};
ghost use Rattle.hippo_spj_reader.specs.Promises.{CanBeRead, either, Gives, GivesPart, LeavesNoMore, Reads, Passes, ReadsAll};
ghost use Rattle.hippo_spj_reader.specs.Front.{kinds, kinds_between, after_keyword};
ghost use Rattle.hippo_spj_reader.specs.SelectGrammar.{whole_condition, select_with, IsSelect};
ghost use Rattle.hippo_model.specs.Conditions.{outer_parts};
ghost use Rattle.hippo_spj_reader.specs.SelectFinder.{leading_whole_table, leading_item, leading_argument, leading_member, leading_members, out_of, each_of, select_by, after_join, leading_joined_by_comma, leading_joined_on, leading_joined, leading_sources, leading_where, whole_scope, leading_scope, leading_draft_of, leading_draft, ungrouped_select, leading_grouped, leading_select};

use crate::conditions::{ColumnPart, column, condition};
use crate::front::{
    after_keyword, after_symbol, expect_keyword, expect_symbol, expect_word, name, split,
};
use crate::lists::{Commas, Part, list, only, whole};
use crate::pairs::beside;
use hippo_lexer::{Keyword, Symbol, SyntaxFault, Token, TokenKind, Tokens};
use hippo_model::{CondOf, Names};
use hippo_stmt_ast::{
    RawColumn, RawColumns, RawCond, RawForm, RawItem, RawItems, RawOut, RawOuts, RawSelect,
};
use hippo_values::{Memory, Name, Sequence};
use std::alloc::Global;

type Conditions = Sequence<RawCond>;

// The tokens after `t.*`, or none if that does not come first.
fn after_whole_table(tokens: &[Token]) -> Option<&[Token]>
    ensures rest { option_map (λ rest. kinds rest.now) result
        ≡ option_map (λ x. x.1) (leading_whole_table (kinds tokens.now)) }
    ensures shorter { IfSome result (λ rest. length rest.now < length tokens.now) }
{
    match split(tokens)? {
        (TokenKind::Word(_), rest) => after_symbol(after_symbol(rest, Symbol::Dot)?, Symbol::Star),
        _ => None,
    }
}

#[tactic(auto, unfolding(crate::specs::SelectFinder::leading_item))]
fn item(alloc: Global, tokens: &[Token]) -> Result<(RawItem, &[Token]), SyntaxFault>
    ensures { Reads leading_item tokens.now result }
{
    if let Some(rest) = after_whole_table(tokens) {
        let (table, _) = name(alloc, tokens)?;
        return Ok((RawItem::AllOf(table), rest));
    }
    let (found, rest) = column(alloc, tokens)?;
    Ok((RawItem::One(found), rest))
}

// A member of a select list, before it is known whether the select is grouped.
#[derive(Drop)]
enum Member {
    Item(RawItem),
    Min(RawColumn),
    Max(RawColumn),
}

type Members = Sequence<Member>;

#[tactic(auto, unfolding(crate::specs::SelectFinder::leading_argument))]
fn argument(alloc: Global, tokens: &[Token]) -> Result<(RawColumn, &[Token]), SyntaxFault>
    ensures { Reads leading_argument tokens.now result }
{
    let inside = expect_symbol(tokens, Symbol::LeftParen)?;
    let (found, rest) = column(alloc, inside)?;
    beside(found, expect_symbol(rest, Symbol::RightParen))
}

#[tactic(auto, unfolding(crate::specs::SelectFinder::leading_member))]
fn list_member(alloc: Global, tokens: &[Token]) -> Result<(Member, &[Token]), SyntaxFault>
    ensures { Reads leading_member tokens.now result }
{
    if let Some(remaining) = after_keyword(tokens, Keyword::KMin) {
        let (column, rest) = argument(alloc, remaining)?;
        return Ok((Member::Min(column), rest));
    }
    if let Some(remaining) = after_keyword(tokens, Keyword::KMax) {
        let (column, rest) = argument(alloc, remaining)?;
        return Ok((Member::Max(column), rest));
    }
    let (item, rest) = item(alloc, tokens)?;
    Ok((Member::Item(item), rest))
}

// The grammar rule of a member.
struct MemberPart;

impl Part for MemberPart {
    ghost use Rattle.hippo_spj_reader.specs.SelectFinder.{leading_member};

    type Reading = Member;

    ghost leading = { leading_member };

    fn read(alloc: Global, tokens: &[Token]) -> Result<(Member, &[Token]), SyntaxFault> {
        list_member(alloc, tokens)
    }
}

#[tactic(auto, unfolding(crate::specs::SelectFinder::leading_members))]
fn members(alloc: Global, tokens: &[Token]) -> Result<(Members, &[Token]), SyntaxFault>
    ensures { Reads leading_members tokens.now result }
{
    if let Some(rest) = after_symbol(tokens, Symbol::Star) {
        return Ok((only(alloc, Member::Item(RawItem::All))?, rest));
    }
    list::<MemberPart, Commas>(alloc, tokens)
}

// Turns a member of a select list into its final form, once the select's form is known.
trait OfMember: Sized + Drop {
    ghost use Rattle.std.specs.Prelude.{Option};
    ghost use Rattle.hippo_spj_reader.specs.declared.selects.Member.{Member};

    ghost of: { Member → Option Self };

    fn of(member: Member) -> Result<Self, SyntaxFault>
        ensures { Gives (λ x. x) result (of member) };
}

impl OfMember for RawItem {
    ghost use Rattle.hippo_spj_reader.specs.SelectFinder.{ungrouped_item};

    ghost of = { ungrouped_item };

    fn of(member: Member) -> Result<RawItem, SyntaxFault> {
        match member {
            Member::Item(item) => Ok(item),
            _ => Err(SyntaxFault::BadSyntax),
        }
    }
}

impl OfMember for RawOut {
    ghost use Rattle.hippo_spj_reader.specs.SelectFinder.{out_of};

    ghost of = { out_of };

    fn of(member: Member) -> Result<RawOut, SyntaxFault> {
        match member {
            Member::Item(RawItem::One(column)) => Ok(RawOut::Column(column)),
            Member::Min(column) => Ok(RawOut::Min(column)),
            Member::Max(column) => Ok(RawOut::Max(column)),
            _ => Err(SyntaxFault::BadSyntax),
        }
    }
}

fn each<T: OfMember>(alloc: Global, members: Members) -> Result<Sequence<T>, SyntaxFault>
    ensures { Gives (λ x. x) result (each_of T.of members) }
{
    let mut list = Sequence::with_capacity(alloc, members.len())?;
    for member in members.into_vec() {
        list.push(T::of(member)?)?;
    }
    Ok(list)
}

// The tokens after JOIN or INNER JOIN, or none if neither comes first.
fn after_join(tokens: &[Token]) -> Option<&[Token]>
    ensures { Passes after_join tokens.now result }
{
    match after_keyword(tokens, Keyword::KInner) {
        Some(remaining) => after_keyword(remaining, Keyword::KJoin),
        None => after_keyword(tokens, Keyword::KJoin),
    }
}

// A further table of FROM, and its ON condition if it has one.
#[derive(Drop)]
struct JoinedTable {
    table: Name,
    on: Option<RawCond>,
}

fn joined_on(alloc: Global, tokens: &[Token]) -> Result<(JoinedTable, &[Token]), SyntaxFault>
    ensures { Reads leading_joined_on tokens.now result }
{
    let (table, rest) = name(alloc, tokens)?;
    let rest = expect_keyword(rest, Keyword::KOn)?;
    let (on, rest) = condition(alloc, rest)?;
    let on = Some(on);
    Ok((JoinedTable { table, on }, rest))
}

fn joined_by_comma(alloc: Global, tokens: &[Token]) -> Result<(JoinedTable, &[Token]), SyntaxFault>
    ensures { Reads leading_joined_by_comma tokens.now result }
{
    let (table, rest) = name(alloc, tokens)?;
    let on = None;
    Ok((JoinedTable { table, on }, rest))
}

// The table that a comma or a JOIN adds, if one of them comes first, and the tokens after it.
#[tactic(auto, unfolding(crate::specs::SelectFinder::leading_joined))]
fn joined(alloc: Global, tokens: &[Token]) -> Result<Option<(JoinedTable, &[Token])>, SyntaxFault>
    ensures found { Gives (λ r. option_map (λ x. (x.0, kinds x.1.now)) r) result
        (leading_joined (kinds tokens.now)) }
    ensures shorter { IfOk result (λ r. IfSome r (λ x. length x.1.now < length tokens.now)) }
{
    if let Some(remaining) = after_symbol(tokens, Symbol::Comma) {
        let found = joined_by_comma(alloc, remaining)?;
        return Ok(Some(found));
    }
    if let Some(remaining) = after_join(tokens) {
        let found = joined_on(alloc, remaining)?;
        return Ok(Some(found));
    }
    Ok(None)
}

fn append(list: &mut Conditions, members: Conditions) -> Result<(), Memory>
    ensures { OnOk result (list.new ≡ list.old ++ members) }
{
    if list.is_empty() {
        *list = members;
        return Ok(());
    }
    for member in members.into_vec() {
        list.push(member)?;
    }
    Ok(())
}

fn add_condition(list: &mut Conditions, condition: Option<RawCond>) -> Result<(), Memory>
    ensures { OnOk result (list.new ≡ list.old ++ option_to_list condition) }
{
    match condition {
        Some(condition) => list.push(condition),
        None => Ok(()),
    }
}

#[inline(always)]
fn add_parts(list: &mut Conditions, condition: RawCond) -> Result<(), Memory>
    ensures { OnOk result (list.new ≡ list.old ++ outer_parts condition) }
{
    match condition {
        CondOf::All(members) => append(list, members),
        other => list.push(other),
    }
}

// The parts of all conditions, in order.
fn all_parts(alloc: Global, conditions: Conditions) -> Result<Conditions, Memory>
    ensures { IfOk result (λ parts. parts ≡ flat_map outer_parts conditions) }
{
    let mut parts = Sequence::new(alloc);
    for condition in conditions.into_vec() {
        add_parts(&mut parts, condition)?;
    }
    Ok(parts)
}

// The parts of the ON conditions. Most selects have none; nothing is allocated for these.
#[inline(always)]
fn parts_of_on(alloc: Global, conditions: Conditions) -> Result<Conditions, Memory>
    ensures { IfOk result (λ parts. parts ≡ flat_map outer_parts conditions) }
{
    if conditions.is_empty() {
        return Ok(conditions);
    }
    all_parts(alloc, conditions)
}

// Adds the parts of the WHERE condition, if there is one.
fn add_last(parts: &mut Conditions, last: Option<RawCond>) -> Result<(), Memory>
    ensures { OnOk result (parts.new ≡ parts.old ++ flat_map outer_parts (option_to_list last)) }
{
    match last {
        Some(last) => add_parts(parts, last),
        None => Ok(()),
    }
}

/// The conditions of ON and WHERE as one. An All among them is replaced by its parts.
pub fn whole_condition(alloc: Global, conditions: Conditions) -> Result<RawCond, Memory>
    ensures { IfOk result (λ whole. whole ≡ whole_condition conditions) }
{
    Ok(CondOf::All(all_parts(alloc, conditions)?))
}

// The tables of FROM, and the conditions of ON.
#[derive(Drop)]
struct Sources {
    names: Names,
    conditions: Conditions,
}

fn first_source(alloc: Global, table: Name) -> Result<Sources, Memory>
    ensures names { IfOk result (λ sources. sources.names ≡ table ∷ []) }
    ensures conditions { IfOk result (λ sources. sources.conditions ≡ []) }
{
    let names = only(alloc, table)?;
    let conditions = Sequence::new(alloc);
    Ok(Sources { names, conditions })
}

fn add_source(sources: &mut Sources, joined: JoinedTable) -> Result<(), Memory>
    ensures names { OnOk result (sources.new.names ≡ sources.old.names ++ joined.table ∷ []) }
    ensures conditions { OnOk result (sources.new.conditions
        ≡ sources.old.conditions ++ option_to_list joined.on) }
{
    let JoinedTable { table, on } = joined;
    add_condition(&mut sources.conditions, on)?;
    sources.names.push(table)
}

#[tactic(auto, unfolding(crate::specs::SelectFinder::leading_sources))]
fn from_list(alloc: Global, tokens: &[Token]) -> Result<(Sources, &[Token]), SyntaxFault>
    ensures { Reads leading_sources tokens.now result }
{
    let (first, mut rest) = name(alloc, tokens)?;
    let mut sources = first_source(alloc, first)?;
    while let Some((entry, left)) = joined(alloc, rest)? {
        add_source(&mut sources, entry)?;
        rest = left;
    }
    Ok((sources, rest))
}

/// The condition of WHERE, or none if WHERE does not come first, and the tokens after it.
#[tactic(auto, unfolding(crate::specs::SelectFinder::leading_where))]
pub fn after_where(
    alloc: Global,
    tokens: &[Token],
) -> Result<(Option<RawCond>, &[Token]), SyntaxFault>
    ensures { Reads leading_where tokens.now result }
{
    let Some(remaining) = after_keyword(tokens, Keyword::KWhere) else {
        return Ok((None, tokens));
    };
    let (found, rest) = condition(alloc, remaining)?;
    Ok((Some(found), rest))
}

// The tables of a select, and the parts of its condition.
#[derive(Drop)]
struct Scope {
    tables: Names,
    parts: Conditions,
}

// The tables, and the parts of the conditions of ON and of `last`, the WHERE condition.
fn whole_scope(alloc: Global, sources: Sources, last: Option<RawCond>) -> Result<Scope, Memory>
    ensures { IfOk result (λ scope. scope ≡ whole_scope sources last) }
{
    let Sources {
        names: tables,
        conditions,
    } = sources;
    let mut parts = parts_of_on(alloc, conditions)?;
    add_last(&mut parts, last)?;
    Ok(Scope { tables, parts })
}

#[tactic(auto, unfolding(crate::specs::SelectFinder::leading_scope))]
fn from_clause(alloc: Global, tokens: &[Token]) -> Result<(Scope, &[Token]), SyntaxFault>
    ensures { Reads leading_scope tokens.now result }
{
    let rest = expect_keyword(tokens, Keyword::KFrom)?;
    let (sources, rest) = from_list(alloc, rest)?;
    let (sources, (last, rest)) = beside(sources, after_where(alloc, rest))?;
    Ok((whole_scope(alloc, sources, last)?, rest))
}

// A select as far as GROUP.
#[derive(Drop)]
struct Draft {
    distinct: bool,
    members: Members,
    scope: Scope,
}

#[tactic(auto, unfolding(crate::specs::SelectFinder::leading_draft_of))]
fn draft_of(
    alloc: Global,
    distinct: bool,
    tokens: &[Token],
) -> Result<(Draft, &[Token]), SyntaxFault>
    ensures { Reads (leading_draft_of distinct) tokens.now result }
{
    let (members, rest) = members(alloc, tokens)?;
    let (scope, rest) = from_clause(alloc, rest)?;
    Ok((
        Draft {
            distinct,
            members,
            scope,
        },
        rest,
    ))
}

// Whether DISTINCT comes first, and the tokens after it.
fn after_distinct(tokens: &[Token]) -> (bool, &[Token])
    ensures found { leading_draft_of result.0 (kinds result.1.now)
        ≡ either (after_keyword KDistinct (kinds tokens.now)) (leading_draft_of true)
        (leading_draft_of false (kinds tokens.now)) }
    ensures no_longer { length result.1.now ≤ length tokens.now }
{
    match after_keyword(tokens, Keyword::KDistinct) {
        Some(remaining) => (true, remaining),
        None => (false, tokens),
    }
}

#[tactic(auto, unfolding(crate::specs::SelectFinder::leading_draft))]
fn select_draft(alloc: Global, tokens: &[Token]) -> Result<(Draft, &[Token]), SyntaxFault>
    ensures { Reads leading_draft tokens.now result }
{
    let rest = expect_keyword(tokens, Keyword::KSelect)?;
    let (distinct, rest) = after_distinct(rest);
    draft_of(alloc, distinct, rest)
}

fn select_with(items: RawItems, scope: Scope, form: RawForm) -> RawSelect
    ensures { result ≡ select_with items scope form }
{
    let Scope { tables, parts } = scope;
    let cond = CondOf::All(parts);
    RawSelect {
        items,
        tables,
        cond,
        form,
    }
}

fn ungrouped_form(distinct: bool) -> RawForm
    ensures { result ≡ if distinct then Distinct else Plain }
{
    if distinct {
        RawForm::Distinct
    } else {
        RawForm::Plain
    }
}

#[tactic(auto, unfolding(crate::specs::SelectFinder::ungrouped_select))]
fn ungrouped(alloc: Global, draft: Draft) -> Result<RawSelect, SyntaxFault>
    ensures { Gives (λ x. x) result (ungrouped_select draft) }
{
    let Draft {
        distinct,
        members,
        scope,
    } = draft;
    let (scope, items) = beside(scope, each(alloc, members))?;
    Ok(select_with(items, scope, ungrouped_form(distinct)))
}

fn outs(alloc: Global, distinct: bool, members: Members) -> Result<RawOuts, SyntaxFault>
    ensures { Gives (λ x. x) result (if distinct then None else each_of out_of members) }
{
    if distinct {
        return Err(SyntaxFault::BadSyntax);
    }
    each(alloc, members)
}

// The select with the groups of the columns `by`, and the tokens after these.
fn grouped_by<'a>(
    alloc: Global,
    draft: Draft,
    by: RawColumns,
    rest: &'a [Token],
) -> Result<(RawSelect, &'a [Token]), SyntaxFault>
    ensures found { GivesPart result (select_by draft by (kinds rest.now)) }
    ensures no_longer { LeavesNoMore rest.now result }
{
    let Draft {
        distinct,
        members,
        scope,
    } = draft;
    let (scope, (by, outs)) = beside(scope, beside(by, outs(alloc, distinct, members)))?;
    let form = RawForm::Grouped { outs, by };
    Ok((select_with(Sequence::new(alloc), scope, form), rest))
}

// The rest of a select after GROUP, and the tokens after it.
#[tactic(auto, unfolding(crate::specs::SelectFinder::leading_grouped))]
fn grouped(
    alloc: Global,
    draft: Draft,
    tokens: &[Token],
) -> Result<(RawSelect, &[Token]), SyntaxFault>
    ensures { Reads (leading_grouped draft) tokens.now result }
{
    let (draft, columns) = beside(draft, expect_word(tokens, "by"))?;
    let (draft, (by, rest)) = beside(draft, list::<ColumnPart, Commas>(alloc, columns))?;
    grouped_by(alloc, draft, by, rest)
}

/// The longest select at the front of the tokens, and the tokens after it. BadSyntax if there is
/// none.
#[tactic(auto, unfolding(crate::specs::SelectFinder::leading_select))]
pub fn select(alloc: Global, tokens: &[Token]) -> Result<(RawSelect, &[Token]), SyntaxFault>
    ensures { Reads leading_select tokens.now result }
{
    let (draft, rest) = select_draft(alloc, tokens)?;
    if let Some(remaining) = after_keyword(rest, Keyword::KGroup) {
        return grouped(alloc, draft, remaining);
    }
    Ok((ungrouped(alloc, draft)?, rest))
}

// The grammar rule of a select.
struct SelectPart;

impl Part for SelectPart {
    ghost use Rattle.hippo_spj_reader.specs.SelectFinder.{leading_select};

    type Reading = RawSelect;

    ghost leading = { leading_select };

    fn read(alloc: Global, tokens: &[Token]) -> Result<(RawSelect, &[Token]), SyntaxFault> {
        select(alloc, tokens)
    }
}

/// The select that the tokens from place `first` up to, but not including, place `last` form.
/// BadSyntax exactly if they form no select; it may also fail when out of memory. The recursion is
/// as deep as NOT and the parentheses.
pub fn read_select(
    alloc: Global,
    t: &Tokens,
    first: usize,
    last: usize,
) -> Result<RawSelect, SyntaxFault>
    requires { CanBeRead t.now first last }
    ensures { ReadsAll IsSelect (kinds_between t.now first last) result }
{
    whole::<SelectPart>(alloc, &t.as_slice()[first..last])
}
