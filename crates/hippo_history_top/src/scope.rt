//! Which entries are asked for.
ghost use Rattle.std.specs.Prelude.{◌≡◌, ◌&&◌, bytes_eq, IfOk};
ghost use Rattle.std.specs.List.{list_any};
ghost use Rattle.hippo_model.specs.Validity.{creates_table};
ghost use Rattle.hippo_history_top.specs.Dating.{is_from, is_to};
ghost use Rattle.hippo_history_top.specs.Showing.{is_question_of, speaks_of, is_in_scope, is_of, is_in_excerpt};

use crate::asking::{Acts, Bound, Excerpt, Scope};
use hippo_model::{Act, Entry, Query};
use hippo_typing::read_meaning;
use hippo_typing_catalog::Catalog;
use hippo_values::{Memory, Name, Txt};
use std::alloc::Global;

fn is_among(table: &Name, tables: &[Name]) -> bool
    ensures { result ≡ list_any (bytes_eq table.now) tables.now }
{
    tables.iter().any(|name| table == name)
}

// Whether a query reads the table. Drops the query.
fn reads(query: Query, table: &Name) -> bool
    ensures { result ≡ list_any (bytes_eq table.now) query.tables }
{
    let reads = is_among(table, query.tables.as_slice());
    drop(query);
    reads
}

fn asks(alloc: Global, catalog: &Catalog, table: &Name, text: &Txt) -> Result<bool, Memory>
    ensures { IfOk result (λ asked. asked ≡ is_question_of catalog.now.names table.now text.now) }
{
    match read_meaning(alloc, catalog, text.as_str()) {
        Ok(Some(query)) => Ok(reads(query, table)),
        Ok(None) => Ok(false),
        Err(Memory) => Err(Memory),
    }
}

fn speaks_of(alloc: Global, catalog: &Catalog, table: &Name, act: &Act) -> Result<bool, Memory>
    ensures { IfOk result (λ speaks. speaks ≡ speaks_of catalog.now.names table.now act.now) }
{
    match act {
        Act::Create(schema) => Ok(*table == schema.name),
        Act::Insert { table: name, .. } => Ok(table == name),
        Act::Update { table: name, .. } => Ok(table == name),
        Act::Delete { table: name, .. } => Ok(table == name),
        Act::Allow { table: name, .. } => Ok(table == name),
        Act::Revoke { table: name, .. } => Ok(table == name),
        Act::Asked { text, .. } => asks(alloc, catalog, table, text),
        _ => Ok(false),
    }
}

fn is_within(alloc: Global, catalog: &Catalog, scope: &Scope, act: &Act) -> Result<bool, Memory>
    ensures { IfOk result (λ within. within ≡ is_in_scope catalog.now.names scope.now act.now) }
{
    match scope {
        Scope::Whole => Ok(true),
        Scope::Table(table) => speaks_of(alloc, catalog, table, act),
    }
}

pub(crate) fn is_from(bound: Bound, entry: &Entry) -> bool
    ensures { result ≡ is_from bound entry.now }
{
    match bound {
        Bound::Number(number) => number <= entry.seq,
        Bound::At(moment) => moment.seconds() <= entry.moment.seconds(),
    }
}

/// Whether an entry is at a bound or before it.
pub(crate) fn is_to(bound: Bound, entry: &Entry) -> bool
    ensures { result ≡ is_to bound entry.now }
{
    match bound {
        Bound::Number(number) => entry.seq <= number,
        Bound::At(moment) => entry.moment.seconds() <= moment.seconds(),
    }
}

fn creates_table(act: &Act) -> bool
    ensures { result ≡ creates_table act.now }
{
    match act {
        Act::Create(_) => true,
        _ => false,
    }
}

fn is_of(acts: Acts, act: &Act) -> bool
    ensures { result ≡ is_of acts act.now }
{
    match acts {
        Acts::All => true,
        Acts::Tables => creates_table(act),
    }
}

// Whether an entry is asked for, regardless of its table.
fn is_counted(excerpt: &Excerpt, entry: &Entry) -> bool
    ensures { result ≡ (is_from excerpt.now.first entry.now && is_to excerpt.now.last entry.now
        && is_of excerpt.now.acts entry.now.act) }
{
    is_from(excerpt.first, entry) && is_to(excerpt.last, entry) && is_of(excerpt.acts, &entry.act)
}

/// Whether an entry is asked for.
pub(crate) fn is_asked(
    alloc: Global,
    catalog: &Catalog,
    excerpt: &Excerpt,
    entry: &Entry,
) -> Result<bool, Memory>
    ensures { IfOk result (λ asked. asked ≡ is_in_excerpt catalog.now.names excerpt.now entry.now) }
{
    if is_counted(excerpt, entry) {
        is_within(alloc, catalog, &excerpt.scope, &entry.act)
    } else {
        Ok(false)
    }
}
