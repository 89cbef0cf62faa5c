//! The names in a change: some must exist, some must be new.
ghost use Rattle.std.specs.Prelude.{◌≡◌, Some, IfOk, IfErr};
ghost use Rattle.hippo_typing_catalog.specs.Catalogs.{table_of};
ghost use Rattle.hippo_typing_catalog.specs.Refusals.{IsFirstOf, Resolves, unknown_table, unknown_item};
ghost use Rattle.hippo_typing_catalog.specs.ChangesRefused.{unknown_item_if_any, known_name_refused};

use hippo_model::NameFault;
use hippo_typing_catalog::{Catalog, IndexedTable, name_faults};
use hippo_values::Name;
use std::alloc::Global;

/// The table with this name, or the fault that there is none.
pub fn known_table<'a>(
    alloc: Global,
    catalog: &'a Catalog,
    table: &Name,
) -> Result<&'a IndexedTable, NameFault>
    ensures found { IfOk result (λ found. table_of catalog.now.names table.now ≡ Some found.now) }
    ensures fault { IfErr result (IsFirstOf (unknown_table catalog.now.names table.now)) }
{
    match catalog.indexed_table(table) {
        Some(found) => Ok(found),
        None => Err(name_faults::unknown_table(alloc, table)),
    }
}

/// Checks that an item exists.
pub fn check_item(alloc: Global, catalog: &Catalog, item: &Name) -> Result<(), NameFault>
    ensures { Resolves (unknown_item catalog.now.names item.now) tt result }
{
    match catalog.item(item) {
        Some(_) => Ok(()),
        None => Err(name_faults::unknown_item(alloc, item)),
    }
}

/// Checks that an item exists, if one is named.
pub fn check_item_if_any(
    alloc: Global,
    catalog: &Catalog,
    item: &Option<Name>,
) -> Result<(), NameFault>
    ensures { Resolves (unknown_item_if_any catalog.now.names item.now) tt result }
{
    match item {
        None => Ok(()),
        Some(item) => check_item(alloc, catalog, item),
    }
}

/// Checks that a name does not exist yet.
pub fn check_new(alloc: Global, is_there: bool, name: &Name) -> Result<(), NameFault>
    ensures { Resolves (known_name_refused is_there name.now) tt result }
{
    if is_there {
        return Err(name_faults::already_there(alloc, name));
    }
    Ok(())
}
