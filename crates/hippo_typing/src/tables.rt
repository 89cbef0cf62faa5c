//! The tables of a statement.
ghost use Rattle.std.specs.Prelude.{◌++◌, flat_map};
ghost use Rattle.hippo_typing_catalog.specs.Catalogs.{schemas_of};
ghost use Rattle.hippo_typing_catalog.specs.Refusals.{Resolves, unknown_table, repeated_names};

use hippo_model::{Lent, NameFault, Names};
use hippo_typing_catalog::{Catalog, StatementTables, check_repeats, name_faults};
use hippo_values::Name;
use std::alloc::Global;

/// The tables with these names. Each must exist.
pub fn tables_of<'a>(
    alloc: Global,
    catalog: &'a Catalog,
    names: &[Name],
) -> Result<StatementTables<'a>, NameFault>
    ensures { Resolves (flat_map (unknown_table catalog.now.names) names.now)
        (schemas_of catalog.now.names names.now) result }
{
    let mut tables = Lent::new(alloc);
    for name in names {
        match catalog.indexed_table(name) {
            Some(table) => tables.push(table)?,
            None => return Err(name_faults::unknown_table(alloc, name)),
        }
    }
    Ok(tables)
}

/// The tables of a FROM list. Each must exist and be named once.
pub fn found_tables<'a>(
    alloc: Global,
    catalog: &'a Catalog,
    names: &Names,
) -> Result<StatementTables<'a>, NameFault>
    ensures { Resolves (flat_map (unknown_table catalog.now.names) names.now
        ++ repeated_names names.now)
        (schemas_of catalog.now.names names.now) result }
{
    let tables = tables_of(alloc, catalog, names.as_slice())?;
    check_repeats(alloc, names.as_slice())?;
    Ok(tables)
}
