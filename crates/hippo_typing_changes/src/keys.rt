//! UPDATE and DELETE, which name a row by its key.
ghost use Rattle.std.specs.Prelude.{◌≡◌, ◌++◌, filter_map, nat_eq, IfOk};
ghost use Rattle.std.specs.List.{zip};
ghost use Rattle.std.specs.Map.{lookup};
ghost use Rattle.hippo_stmt_ast.specs.declared.statement.Stmt.TheVariants.{Update, Delete};
ghost use Rattle.hippo_model.specs.declared.wanted.Wanted.TheVariants.{Set, Remove};
ghost use Rattle.hippo_typing_catalog.specs.Refusals.{Resolves};
ghost use Rattle.hippo_typing_catalog.specs.ChangesRefused.{places_named, unknown_columns, rule_refused, key_refused};
ghost use Rattle.hippo_typing_catalog.specs.ChangesRefused.{update_refused, delete_refused};
ghost use Rattle.hippo_typing_changes.specs.Checking.{Checks, names_refused};

use crate::columns::{check_key, check_key_stays, distinct_places, key_written, places};
use crate::names::known_table;
use crate::values::{Assigned, check_assignments};
use hippo_model::{Cells, NameFault, Names, Places, Schema, Wanted};
use hippo_typing_catalog::{Catalog, IndexedTable, check_repeats};
use hippo_values::{Duplicate, Memory, Name, Value};
use std::alloc::Global;

// The places of the columns of SET, and of those of WHERE.
#[derive(Drop)]
struct UpdatePlaces {
    set: Places,
    key: Places,
}

fn both_places(
    alloc: Global,
    table: &IndexedTable,
    set: &[Name],
    key: &[Name],
) -> Result<UpdatePlaces, NameFault>
    ensures { Resolves (unknown_columns table.now (set.now ++ key.now))
        (record { set = places_named table.now set.now; key = places_named table.now key.now })
        result }
{
    let set = places(alloc, table, set)?;
    let key = places(alloc, table, key)?;
    Ok(UpdatePlaces { set, key })
}

fn named_places(
    alloc: Global,
    table: &IndexedTable,
    set: &[Name],
    key: &[Name],
) -> Result<UpdatePlaces, NameFault>
    ensures { Resolves (names_refused set.now key.now table.now)
        (record { set = places_named table.now set.now; key = places_named table.now key.now })
        result }
{
    check_repeats(alloc, set)?;
    check_repeats(alloc, key)?;
    both_places(alloc, table, set, key)
}

// The places of the columns of SET and of WHERE, if those of WHERE are the key.
fn keyed_places(
    alloc: Global,
    table: &IndexedTable,
    set: &[Name],
    key: &[Name],
) -> Result<UpdatePlaces, NameFault>
    ensures { Resolves (names_refused set.now key.now table.now ++ key_refused table.now key.now)
        (record { set = places_named table.now set.now; key = places_named table.now key.now })
        result }
{
    let places = named_places(alloc, table, set, key)?;
    check_key(table.schema(), places.key.as_slice())?;
    Ok(places)
}

fn update_places(
    alloc: Global,
    table: &IndexedTable,
    set: Assigned,
    key: Assigned,
) -> Result<UpdatePlaces, NameFault>
    ensures { Resolves (update_refused set.entry.names.now set.entry.values.now
        key.entry.names.now key.entry.values.now table.now)
        (record {
          set = places_named table.now set.entry.names.now;
          key = places_named table.now key.entry.names.now;
        }) result }
{
    let places = keyed_places(alloc, table, set.names, key.names)?;
    check_key_stays(alloc, table, set.names)?;
    check_assignments(alloc, table, set, key)?;
    Ok(places)
}

fn set(
    alloc: Global,
    table: &Name,
    schema: &Schema,
    places: UpdatePlaces,
    values: &Cells,
    key_values: &Cells,
) -> Result<Wanted, Memory>
    ensures { IfOk result (λ made. made ≡ Set table.now
        (filter_map (λ place. lookup (nat_eq place) (zip places.key key_values.now)) schema.now.key)
        places.set values.now) }
{
    let table = table.copy(alloc)?;
    let key = key_written(
        alloc,
        schema.key.as_slice(),
        places.key.as_slice(),
        key_values.as_slice(),
    )?;
    let values = values.copy(alloc)?;
    let UpdatePlaces {
        set: places,
        key: _,
    } = places;
    Ok(Wanted::Set {
        table,
        key,
        places,
        values,
    })
}

/// Checks an UPDATE: SET must name no column of the key, and WHERE must name all of them.
pub fn check_update(
    alloc: Global,
    catalog: &Catalog,
    table: &Name,
    columns: &Names,
    values: &Cells,
    keys: &Names,
    key_values: &Cells,
) -> Result<Wanted, NameFault>
    ensures { Checks catalog.now.names (Update table.now columns.now values.now keys.now
        key_values.now) result }
{
    let found = known_table(alloc, catalog, table)?;
    let assigned = Assigned {
        names: columns.as_slice(),
        values: values.as_slice(),
    };
    let key = Assigned {
        names: keys.as_slice(),
        values: key_values.as_slice(),
    };
    let places = update_places(alloc, found, assigned, key)?;
    Ok(set(alloc, table, found.schema(), places, values, key_values)?)
}

// The places of the key's columns. Each must be named once.
fn key_places(alloc: Global, table: &IndexedTable, key: &[Name]) -> Result<Places, NameFault>
    ensures { Resolves (rule_refused key.now table.now ++ key_refused table.now key.now)
        (places_named table.now key.now) result }
{
    let places = distinct_places(alloc, table, key)?;
    check_key(table.schema(), places.as_slice())?;
    Ok(places)
}

fn delete_places(alloc: Global, table: &IndexedTable, key: Assigned) -> Result<Places, NameFault>
    ensures { Resolves (delete_refused key.entry.names.now key.entry.values.now table.now)
        (places_named table.now key.entry.names.now) result }
{
    let places = key_places(alloc, table, key.names)?;
    let none = Assigned {
        names: &[],
        values: &[],
    };
    check_assignments(alloc, table, none, key)?;
    Ok(places)
}

fn remove(
    alloc: Global,
    table: &Name,
    schema: &Schema,
    places: &[usize],
    values: &[Value],
) -> Result<Wanted, Memory>
    ensures { IfOk result (λ made. made ≡ Remove table.now
        (filter_map (λ place. lookup (nat_eq place) (zip places.now values.now)) schema.now.key)) }
{
    let table = table.copy(alloc)?;
    let key = key_written(alloc, schema.key.as_slice(), places, values)?;
    Ok(Wanted::Remove { table, key })
}

/// Checks a DELETE: WHERE must name all columns of the key.
pub fn check_delete(
    alloc: Global,
    catalog: &Catalog,
    table: &Name,
    keys: &Names,
    values: &Cells,
) -> Result<Wanted, NameFault>
    ensures { Checks catalog.now.names (Delete table.now keys.now values.now) result }
{
    let found = known_table(alloc, catalog, table)?;
    let key = Assigned {
        names: keys.as_slice(),
        values: values.as_slice(),
    };
    let places = delete_places(alloc, found, key)?;
    let schema = found.schema();
    Ok(remove(alloc, table, schema, places.as_slice(), values.as_slice())?)
}
