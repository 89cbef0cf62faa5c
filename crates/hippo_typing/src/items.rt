//! The columns of a select's list.
ghost use Rattle.std.specs.Prelude.{◌≡◌, [], ◌∷◌, ◌++◌, map, flat_map};
ghost use Rattle.std.specs.Prelude.{bytes_eq, option_copied, if◌then◌else◌, OnOk, MatchResult};
ghost use Rattle.std.specs.List.{list_any, range_with_len};
ghost use Rattle.hippo_typing_catalog.specs.Refusals.{Resolves, IsFirstOf};
ghost use Rattle.hippo_typing_catalog.specs.WrittenColumns.{column_refused, column_of, may_belong_to};
ghost use Rattle.hippo_typing_catalog.specs.Selects.{item_refused, item_columns, star_refused, star_columns, table_columns};

use crate::columns::{found_column, may_belong_to};
use hippo_model::{NameFault, Ref, Refs};
use hippo_stmt_ast::{RawColumn, RawItem};
use hippo_typing_catalog::{IndexedTable, StatementTables, column_faults};
use hippo_values::{Memory, Name, Sequence};
use std::alloc::Global;

// Adds all columns of the table at a place.
fn push_table(columns: &mut Refs, place: usize, count: usize) -> Result<(), Memory>
    ensures { OnOk result (columns.new ≡ columns.old
        ++ map (λ column. record { table = place; column = column }) (range_with_len 0 count)) }
{
    for column in 0..count {
        columns.push(Ref {
            table: place,
            column,
        })?;
    }
    Ok(())
}

// Adds all columns of the table at a place, if the star covers it.
fn push_starred(
    table: &IndexedTable,
    place: usize,
    qualifier: Option<&Name>,
    columns: &mut Refs,
) -> Result<(), Memory>
    ensures { OnOk result (columns.new ≡ columns.old
        ++ (if may_belong_to (option_copied qualifier.entry) table.now.name
        then table_columns place table.now else [])) }
{
    let schema = table.schema();
    if may_belong_to(qualifier, &schema.name) {
        push_table(columns, place, schema.columns.len())?;
    }
    Ok(())
}

// Adds all columns of the tables that the star covers.
fn push_star(
    tables: &StatementTables<'_>,
    qualifier: Option<&Name>,
    columns: &mut Refs,
) -> Result<(), Memory>
    ensures { OnOk result (columns.new ≡ columns.old
        ++ star_columns tables.now (option_copied qualifier.entry)) }
{
    for place in 0..tables.len() {
        push_starred(tables.get(place), place, qualifier, columns)?;
    }
    Ok(())
}

fn has_table(tables: &StatementTables<'_>, name: &Name) -> bool
    ensures { result ≡ list_any (λ schema. bytes_eq name.now schema.name) tables.now }
{
    for place in 0..tables.len() {
        if *name == tables.get(place).schema().name {
            return true;
        }
    }
    false
}

// Adds all columns of a table, which must be one of the statement's.
fn push_table_star(
    alloc: Global,
    tables: &StatementTables<'_>,
    table: &Name,
    columns: &mut Refs,
) -> Result<(), NameFault>
    ensures { MatchResult result
        (λ _. (star_refused tables.now table.now ≡ [])
        × (columns.new ≡ columns.old ++ star_columns tables.now (Some table.now)))
        (λ fault. IsFirstOf (star_refused tables.now table.now) fault) }
{
    if !has_table(tables, table) {
        return Err(column_faults::unknown_star(alloc, table));
    }
    push_star(tables, Some(table), columns)?;
    Ok(())
}

fn push_column(
    alloc: Global,
    tables: &StatementTables<'_>,
    written: &RawColumn,
    columns: &mut Refs,
) -> Result<(), NameFault>
    ensures { MatchResult result
        (λ _. (column_refused tables.now written.now ≡ [])
        × (columns.new ≡ columns.old ++ column_of tables.now written.now ∷ []))
        (λ fault. IsFirstOf (column_refused tables.now written.now) fault) }
{
    let column = found_column(alloc, tables, written)?;
    columns.push(column)?;
    Ok(())
}

// Adds all columns of all tables.
fn push_all(tables: &StatementTables<'_>, columns: &mut Refs) -> Result<(), NameFault>
    ensures { MatchResult result
        (λ _. columns.new ≡ columns.old ++ star_columns tables.now None)
        (λ fault. IsFirstOf [] fault) }
{
    push_star(tables, None, columns)?;
    Ok(())
}

// Adds the columns of an item.
fn push_item(
    alloc: Global,
    tables: &StatementTables<'_>,
    item: &RawItem,
    columns: &mut Refs,
) -> Result<(), NameFault>
    ensures { MatchResult result
        (λ _. (item_refused tables.now item.now ≡ [])
        × (columns.new ≡ columns.old ++ item_columns tables.now item.now))
        (λ fault. IsFirstOf (item_refused tables.now item.now) fault) }
{
    match item {
        RawItem::All => push_all(tables, columns),
        RawItem::AllOf(table) => push_table_star(alloc, tables, table, columns),
        RawItem::One(written) => push_column(alloc, tables, written, columns),
    }
}

/// The columns of the items, in their order. Each must belong to exactly one of the statement's
/// tables.
pub fn found_items(
    alloc: Global,
    tables: &StatementTables<'_>,
    items: &[RawItem],
) -> Result<Refs, NameFault>
    ensures { Resolves (flat_map (item_refused tables.now) items.now)
        (flat_map (item_columns tables.now) items.now) result }
{
    let mut columns = Sequence::new(alloc);
    for item in items {
        push_item(alloc, tables, item, &mut columns)?;
    }
    Ok(columns)
}
