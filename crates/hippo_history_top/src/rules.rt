//! The rules in force, one line for each column.
ghost use Rattle.std.specs.Prelude.{◌≡◌, ◌++◌, ◌&&◌, [], take, slice_get, is_some, OnOk};
ghost use Rattle.std.specs.Option.{option_map_or};
ghost use Rattle.hippo_model.specs.Terms.{History};
ghost use Rattle.hippo_policy.specs.Books.{BookRepresents};
ghost use Rattle.hippo_policy.specs.Rulings.{ruling_of, opt_in_of, opt_in_at};
ghost use Rattle.hippo_history_top.specs.Dating.{count_to, dated_line};
ghost use Rattle.hippo_history_top.specs.Ruling.{column_rule, column_line, is_ruled, columns_shown, has_table, table_shown, tables_shown, recipients_shown, rules_by_names};

use crate::asking::{Page, Scope};
use crate::moments::{count_to, moment_at};
use hippo_history_formats::{ColumnRule, append_rule_line, ruling_number};
use hippo_model::{RuleAt, Schema};
use hippo_policy::PolicyBook;
use hippo_report::Format;
use hippo_typing_catalog::Catalog;
use hippo_values::{Memory, Moment, Name, Txt};
use std::alloc::Global;

// The names and the rules of a history after its first entries, up to a number; the moments of the
// entries; which rules are asked for; and how they are shown.
#[derive(Clone, Copy)]
struct Policy<'a> {
    alloc: Global,
    catalog: &'a Catalog,
    book: &'a PolicyBook,
    moments: &'a [Moment],
    n: u64,
    scope: &'a Scope,
    format: Format,
}

// A table, for a purpose and a recipient.
#[derive(Clone, Copy)]
struct Group<'a> {
    purpose: &'a Name,
    recipient: &'a Name,
    schema: &'a Schema,
}

// The rule of a column.
fn ruling_at<'a>(policy: &Policy<'a>, group: &Group<'a>, place: usize) -> RuleAt<'a>
    ensures rule { (history : History) → BookRepresents policy.now.book.now history
        → ruling_of result
        ≡ column_rule (take policy.now.n history) group.now.purpose.now group.now.recipient.now
        group.now.schema.now place }
    ensures silence { (history : History) → BookRepresents policy.now.book.now history
        → opt_in_of result
        ≡ opt_in_at (take policy.now.n history) (column_rule (take policy.now.n history)
        group.now.purpose.now group.now.recipient.now group.now.schema.now place) }
{
    let table = &group.schema.name;
    policy
        .book
        .rule_at(policy.n, group.purpose, group.recipient, table, place)
}

fn append_column(
    policy: &Policy<'_>,
    group: &Group<'_>,
    place: usize,
    out: &mut Txt,
) -> Result<(), Memory>
    ensures { OnOk result ((history : History) → BookRepresents policy.now.book.now history → out.new
        ≡ out.old ++ column_line (dated_line policy.now.format policy.now.moments.now)
        (take policy.now.n history)
        group.now.purpose.now group.now.recipient.now group.now.schema.now place) }
{
    let ruling = ruling_at(policy, group, place);
    let rule = ColumnRule {
        purpose: group.purpose,
        recipient: group.recipient,
        schema: group.schema,
        place,
        moment: moment_at(policy.moments, ruling_number(&ruling)),
        ruling,
    };
    append_rule_line(policy.alloc, policy.format, &rule, out)
}

fn append_columns(policy: &Policy<'_>, group: &Group<'_>, out: &mut Txt) -> Result<(), Memory>
    ensures { OnOk result ((history : History) → BookRepresents policy.now.book.now history → out.new
        ≡ out.old ++ columns_shown (dated_line policy.now.format policy.now.moments.now)
        (take policy.now.n history)
        group.now.purpose.now group.now.recipient.now group.now.schema.now) }
{
    for place in 0..group.schema.columns.len() {
        append_column(policy, group, place, out)?;
    }
    Ok(())
}

fn has_rule(policy: &Policy<'_>, group: &Group<'_>, place: usize) -> bool
    ensures { (history : History) → BookRepresents policy.now.book.now history → result
        ≡ is_some (column_rule (take policy.now.n history)
        group.now.purpose.now group.now.recipient.now group.now.schema.now place) }
{
    match ruling_at(policy, group, place) {
        RuleAt::Unnamed => false,
        RuleAt::Always { .. } | RuleAt::With { .. } | RuleAt::Revoked(_) => true,
    }
}

// Whether some column has a rule.
fn is_ruled(policy: &Policy<'_>, group: &Group<'_>) -> bool
    ensures { (history : History) → BookRepresents policy.now.book.now history → result
        ≡ is_ruled (take policy.now.n history)
        group.now.purpose.now group.now.recipient.now group.now.schema.now }
{
    for place in 0..group.schema.columns.len() {
        if has_rule(policy, group, place) {
            return true;
        }
    }
    false
}

fn has_table(scope: &Scope, table: &Name) -> bool
    ensures { result ≡ has_table scope.now table.now }
{
    match scope {
        Scope::Whole => true,
        Scope::Table(name) => name == table,
    }
}

// Whether the columns of a table are shown.
fn is_shown(policy: &Policy<'_>, group: &Group<'_>) -> bool
    ensures { (history : History) → BookRepresents policy.now.book.now history → result
        ≡ (has_table policy.now.scope.now group.now.schema.now.name
        && is_ruled (take policy.now.n history)
        group.now.purpose.now group.now.recipient.now group.now.schema.now) }
{
    has_table(policy.scope, &group.schema.name) && is_ruled(policy, group)
}

fn append_table(policy: &Policy<'_>, group: &Group<'_>, out: &mut Txt) -> Result<(), Memory>
    ensures { OnOk result ((history : History) → BookRepresents policy.now.book.now history → out.new
        ≡ out.old ++ table_shown (dated_line policy.now.format policy.now.moments.now)
        policy.now.scope.now (take policy.now.n history)
        group.now.purpose.now group.now.recipient.now group.now.schema.now) }
{
    if is_shown(policy, group) {
        append_columns(policy, group, out)
    } else {
        Ok(())
    }
}

// Appends the columns of the table with this index, in the order in which tables were created.
fn append_table_at(
    policy: &Policy<'_>,
    purpose: &Name,
    recipient: &Name,
    place: usize,
    out: &mut Txt,
) -> Result<(), Memory>
    ensures { OnOk result ((history : History) → BookRepresents policy.now.book.now history → out.new
        ≡ out.old ++ option_map_or (λ named. table_shown
        (dated_line policy.now.format policy.now.moments.now) policy.now.scope.now
        (take policy.now.n history)
        purpose.now recipient.now named.1) (slice_get policy.now.catalog.now.names.tables place)
        []) }
{
    match policy.catalog.table_at(place) {
        None => Ok(()),
        Some(schema) => {
            let group = Group {
                purpose,
                recipient,
                schema,
            };
            append_table(policy, &group, out)
        }
    }
}

fn append_tables(
    policy: &Policy<'_>,
    purpose: &Name,
    recipient: &Name,
    out: &mut Txt,
) -> Result<(), Memory>
    ensures { OnOk result ((history : History) → BookRepresents policy.now.book.now history → out.new
        ≡ out.old ++ tables_shown policy.now.catalog.now.names
        (dated_line policy.now.format policy.now.moments.now)
        policy.now.scope.now
        (take policy.now.n history) purpose.now recipient.now) }
{
    for place in 0..policy.catalog.table_count() {
        append_table_at(policy, purpose, recipient, place, out)?;
    }
    Ok(())
}

fn append_recipients(policy: &Policy<'_>, purpose: &Name, out: &mut Txt) -> Result<(), Memory>
    ensures { OnOk result ((history : History) → BookRepresents policy.now.book.now history → out.new
        ≡ out.old ++ recipients_shown policy.now.catalog.now.names
        (dated_line policy.now.format policy.now.moments.now)
        policy.now.scope.now (take policy.now.n history) purpose.now) }
{
    for recipient in policy.catalog.recipients() {
        append_tables(policy, purpose, recipient, out)?;
    }
    Ok(())
}

fn append_purposes(policy: &Policy<'_>, out: &mut Txt) -> Result<(), Memory>
    ensures { OnOk result ((history : History) → BookRepresents policy.now.book.now history → out.new
        ≡ out.old ++ rules_by_names policy.now.catalog.now.names
        (dated_line policy.now.format policy.now.moments.now)
        policy.now.scope.now
        (take policy.now.n history)) }
{
    for purpose in policy.catalog.purposes() {
        append_recipients(policy, purpose, out)?;
    }
    Ok(())
}

/// Appends the rules that are in force after the entries up to a bound, for the tables that are asked
/// for. `moments` are those of all entries.
pub(crate) fn append_rules(
    alloc: Global,
    catalog: &Catalog,
    book: &PolicyBook,
    moments: &[Moment],
    page: &Page,
    out: &mut Txt,
) -> Result<(), Memory>
    ensures { OnOk result ((history : History) → BookRepresents book.now history → out.new
        ≡ out.old ++ rules_by_names catalog.now.names (dated_line page.now.format moments.now)
        page.now.scope (take (count_to page.now.last moments.now) history)) }
{
    let policy = Policy {
        alloc,
        catalog,
        book,
        moments,
        n: count_to(page.last, moments),
        scope: &page.scope,
        format: page.format,
    };
    append_purposes(&policy, out)
}
