//! The tables that an examiner holds, by their names.
ghost use Rattle.std.specs.Prelude.{◌≡◌, bytes_eq, filter_map, option_copied, IfOk};
ghost use Rattle.std.specs.List.{position_or_len};
ghost use Rattle.hippo_audit_job.specs.Examining.{shown_count};
ghost use Rattle.hippo_combine.specs.Held.{lives_of, schema_held, rows_held, has_some, are_held, all_taken};

use hippo_intervals::LiveRows;
use hippo_model::{Lent, LentSchemas};
use hippo_tables_rows::Sets;
use hippo_values::{Memory, Name};
use std::alloc::Global;

/// The first place with a table of this name, or the number of tables if there is none.
pub(crate) fn place_of(tables: &[LiveRows], table: &Name) -> usize
    ensures { result ≡ position_or_len (λ lives. bytes_eq lives.schema.name table.now) tables.now }
{
    let mut place = 0;
    for lives in tables {
        if lives.schema().name == *table {
            return place;
        }
        place += 1;
    }
    place
}

/// The held table of this name, if there is one.
pub(crate) fn lives_of<'a>(tables: &'a [LiveRows], table: &Name) -> Option<&'a LiveRows>
    ensures { option_copied result ≡ lives_of tables.now table.now }
{
    tables.iter().find(|lives| lives.schema().name == *table)
}

// Whether the table is held and has rows.
fn has_rows(tables: &[LiveRows], table: &Name) -> bool
    ensures { result ≡ has_some (rows_held tables.now table.now) }
{
    match lives_of(tables, table) {
        Some(lives) => !lives.rows().is_empty(),
        None => false,
    }
}

/// Whether each of these tables is held and has rows.
pub(crate) fn have_rows(tables: &[LiveRows], names: &[Name]) -> bool
    ensures { result ≡ are_held tables.now names.now }
{
    names.iter().all(|table| has_rows(tables, table))
}

/// Borrowed schemas and rows of tables.
#[derive(Drop)]
pub(crate) struct LentTables<'a> {
    pub schemas: LentSchemas<'a>,
    pub sets: Sets<'a>,
}

/// Borrows the schemas and the rows of those of the named tables that are held.
pub(crate) fn tables_of<'a>(
    alloc: Global,
    tables: &'a [LiveRows],
    names: &[Name],
) -> Result<LentTables<'a>, Memory>
    ensures schemas { IfOk result (λ lent. lent.schemas
        ≡ filter_map (schema_held tables.now) names.now) }
    ensures sets { IfOk result (λ lent. lent.sets
        ≡ filter_map (rows_held tables.now) names.now) }
{
    let mut schemas = Lent::new(alloc);
    let mut sets = Lent::new(alloc);
    for table in names {
        if let Some(lives) = lives_of(tables, table) {
            schemas.push(lives.schema())?;
            sets.push(lives.rows())?;
        }
    }
    Ok(LentTables { schemas, sets })
}

/// Borrows the rows of those of the named tables that are held.
pub(crate) fn sets_of<'a>(
    alloc: Global,
    tables: &'a [LiveRows],
    names: &[Name],
) -> Result<Sets<'a>, Memory>
    ensures { IfOk result (λ sets. sets ≡ filter_map (rows_held tables.now) names.now) }
{
    let mut sets = Lent::new(alloc);
    for table in names {
        if let Some(lives) = lives_of(tables, table) {
            sets.push(lives.rows())?;
        }
    }
    Ok(sets)
}

/// How many versions were handed over for all tables. The count stops at 2^64 - 1.
pub(crate) fn all_taken(tables: &[LiveRows]) -> u64
    ensures { result ≡ shown_count (all_taken tables.now) }
{
    let mut sum = 0_u64;
    for lives in tables {
        sum = sum.saturating_add(lives.taken());
    }
    sum
}
