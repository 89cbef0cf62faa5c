//! CREATE TABLE.
ghost use Rattle.std.specs.Prelude.{◌≡◌, [], ◌++◌, map, option_copied, option_to_list, bytes_eq, IfOk};
ghost use Rattle.std.specs.List.{list_any};
ghost use Rattle.hippo_stmt_ast.specs.declared.statement.Stmt.TheVariants.{CreateTable};
ghost use Rattle.hippo_model.specs.Validity.{is_integer};
ghost use Rattle.hippo_typing_catalog.specs.Refusals.{Resolves, repeated_names};
ghost use Rattle.hippo_typing_catalog.specs.ChangesRefused.{keyless_table, column_named, unknown_columns};
ghost use Rattle.hippo_typing_catalog.specs.ChangesRefused.{subject_refused, sizes_refused, create_refused};
ghost use Rattle.hippo_typing_catalog.specs.ChangesWanted.{with_not_null};
ghost use Rattle.hippo_typing_changes.specs.Checking.{Checks, draft_refused, draft_places};

use crate::columns::{NamedColumns, place_if_any, places};
use crate::names::check_new;
use hippo_model::{Act, Column, ColumnKind, Columns, NameFault, Names, Places, Schema, Wanted};
use hippo_typing_catalog::{Catalog, check_repeats, name_faults};
use hippo_values::{COLUMN_LIMIT, Duplicate, Memory, Name, Sequence, TABLE_LIMIT};
use indexmap::IndexSet;
use std::alloc::Global;

fn check_columns_differ(alloc: Global, columns: &[Column]) -> Result<(), NameFault>
    ensures { Resolves (repeated_names (map (λ column. column.name) columns.now)) tt result }
{
    let mut before = IndexSet::new(alloc);
    for column in columns {
        if before.contains(&&column.name) {
            return Err(name_faults::repeated_name(alloc, &column.name));
        }
        before.insert(&column.name)?;
    }
    Ok(())
}

fn column_named<'a>(columns: &'a Columns, name: &Name) -> Option<&'a Column>
    ensures { option_copied result ≡ column_named (keyless_table [] columns.now) name.now }
{
    let place = columns.place(name)?;
    columns.as_slice().get(place)
}

fn is_integer(kind: ColumnKind) -> bool
    ensures { result ≡ is_integer kind }
{
    matches!(kind, ColumnKind::Integer)
}

fn check_subject(columns: &Columns, subject: &Option<Name>) -> Result<(), NameFault>
    ensures { Resolves (subject_refused (keyless_table [] columns.now) subject.now) tt result }
{
    let Some(name) = subject else {
        return Ok(());
    };
    match column_named(columns, name) {
        Some(column) if !is_integer(column.kind) => Err(NameFault::TypeMismatch),
        _ => Ok(()),
    }
}

// The places of the key's columns, in the key's order, and of the SUBJECT.
#[derive(Drop)]
struct KeyPlaces {
    key: Places,
    subject: Option<usize>,
}

fn key_places(
    alloc: Global,
    columns: &Columns,
    key: &Names,
    subject: &Option<Name>,
) -> Result<KeyPlaces, NameFault>
    ensures { Resolves (unknown_columns (keyless_table [] columns.now)
        (key.now ++ option_to_list subject.now))
        (draft_places columns.now key.now subject.now) result }
{
    let key = places(alloc, columns, key.as_slice())?;
    let subject = place_if_any(alloc, columns, subject)?;
    Ok(KeyPlaces { key, subject })
}

// What CREATE TABLE says of a table, without its name.
#[derive(Clone, Copy)]
struct Draft<'a> {
    columns: &'a Columns,
    key: &'a Names,
    subject: &'a Option<Name>,
}

// Checks the names: the columns must differ, and the key's columns must differ and be among them.
fn named_places(alloc: Global, draft: Draft) -> Result<KeyPlaces, NameFault>
    ensures { Resolves (draft_refused draft.entry.columns.now draft.entry.key.now
        draft.entry.subject.now)
        (draft_places draft.entry.columns.now draft.entry.key.now draft.entry.subject.now) result }
{
    check_columns_differ(alloc, draft.columns.as_slice())?;
    check_repeats(alloc, draft.key.as_slice())?;
    key_places(alloc, draft.columns, draft.key, draft.subject)
}

// Checks the names and the kind of the SUBJECT.
fn fitting_places(alloc: Global, draft: Draft) -> Result<KeyPlaces, NameFault>
    ensures { Resolves (draft_refused draft.entry.columns.now draft.entry.key.now
        draft.entry.subject.now
        ++ subject_refused (keyless_table [] draft.entry.columns.now) draft.entry.subject.now)
        (draft_places draft.entry.columns.now draft.entry.key.now draft.entry.subject.now) result }
{
    let places = named_places(alloc, draft)?;
    check_subject(draft.columns, draft.subject)?;
    Ok(places)
}

fn check_sizes(catalog: &Catalog, columns: &Columns) -> Result<(), NameFault>
    ensures { Resolves (sizes_refused catalog.now.names columns.now) tt result }
{
    if columns.len() > COLUMN_LIMIT {
        return Err(NameFault::TooManyParts(COLUMN_LIMIT as u64));
    }
    if catalog.table_count() >= TABLE_LIMIT {
        return Err(NameFault::TooManyParts(TABLE_LIMIT as u64));
    }
    Ok(())
}

fn check_table(
    alloc: Global,
    catalog: &Catalog,
    table: &Name,
    draft: Draft,
) -> Result<KeyPlaces, NameFault>
    ensures { Resolves (create_refused catalog.now.names table.now draft.entry.columns.now
        draft.entry.key.now
        draft.entry.subject.now)
        (draft_places draft.entry.columns.now draft.entry.key.now draft.entry.subject.now) result }
{
    let places = fitting_places(alloc, draft)?;
    check_sizes(catalog, draft.columns)?;
    check_new(alloc, catalog.table(table).is_some(), table)?;
    Ok(places)
}

fn is_among(names: &[Name], name: &Name) -> bool
    ensures { result ≡ list_any (λ known. bytes_eq known name.now) names.now }
{
    names.iter().any(|known| *known == *name)
}

fn is_required(key: &[Name], subject: &Option<Name>, column: &Column) -> bool
    ensures { result ≡ (with_not_null key.now subject.now column.now).not_null }
{
    if column.not_null || is_among(key, &column.name) {
        return true;
    }
    match subject {
        Some(subject) => *subject == column.name,
        None => false,
    }
}

fn column_made(
    alloc: Global,
    key: &[Name],
    subject: &Option<Name>,
    column: &Column,
) -> Result<Column, Memory>
    ensures { IfOk result (λ made. made ≡ with_not_null key.now subject.now column.now) }
{
    let name = column.name.copy(alloc)?;
    Ok(Column {
        name,
        kind: column.kind,
        not_null: is_required(key, subject, column),
    })
}

fn columns_made(
    alloc: Global,
    key: &[Name],
    subject: &Option<Name>,
    columns: &[Column],
) -> Result<Columns, Memory>
    ensures { IfOk result (λ made. made ≡ map (with_not_null key.now subject.now) columns.now) }
{
    let mut made = Sequence::new(alloc);
    for column in columns {
        made.push(column_made(alloc, key, subject, column)?)?;
    }
    Ok(made)
}

/// Checks a CREATE TABLE: its columns, its key and its SUBJECT.
pub fn check_create_table(
    alloc: Global,
    catalog: &Catalog,
    table: &Name,
    columns: &Columns,
    key: &Names,
    subject: &Option<Name>,
) -> Result<Wanted, NameFault>
    ensures { Checks catalog.now.names (CreateTable table.now columns.now key.now subject.now)
        result }
{
    let draft = Draft {
        columns,
        key,
        subject,
    };
    let places = check_table(alloc, catalog, table, draft)?;
    let columns = columns_made(alloc, key.as_slice(), subject, columns.as_slice())?;
    let name = table.copy(alloc)?;
    let KeyPlaces { key, subject } = places;
    Ok(Wanted::Ready(Act::Create(Schema {
        name,
        columns,
        key,
        subject,
    })))
}
