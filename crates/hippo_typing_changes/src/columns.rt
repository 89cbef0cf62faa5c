//! The columns that a change names.
ghost use Rattle.std.specs.Prelude.{◌≡◌, [], not, nat_eq, filter_map, option_to_list, option_copied, option_and_then, IfOk};
ghost use Rattle.std.specs.List.{list_any, list_all, zip};
ghost use Rattle.std.specs.Map.{lookup};
ghost use Rattle.hippo_typing_catalog.specs.Refusals.{Resolves, fault_if};
ghost use Rattle.hippo_typing_catalog.specs.WrittenColumns.{place_of};
ghost use Rattle.hippo_typing_catalog.specs.ChangesRefused.{column_named, places_named, unknown_columns, rule_refused};
ghost use Rattle.hippo_typing_catalog.specs.ChangesRefused.{is_the_key, is_of_key, key_changed};
ghost use Rattle.hippo_model.specs.declared.name_fault.NameFault.TheVariants.{NotTheKey};

use hippo_model::{Cells, Column, Columns, NameFault, Places, Schema};
use hippo_typing_catalog::{IndexedTable, check_repeats, column_faults};
use hippo_values::{Duplicate, Memory, Name, Sequence, Value};
use std::alloc::Global;

/// Columns that are found by their names.
pub trait NamedColumns {
    ghost use Rattle.hippo_model.specs.declared.schema.Schema.{Schema as TableSchema};
    ghost use Rattle.hippo_typing_catalog.specs.WrittenColumns.{place_of};

    // a table with these columns
    ghost table: { Self → TableSchema };

    fn place(&self, name: &Name) -> Option<usize>
        ensures { result ≡ place_of (table self.now) name.now };
}

impl NamedColumns for IndexedTable {
    ghost table = { λ table. table };

    fn place(&self, name: &Name) -> Option<usize> {
        IndexedTable::place(self, name)
    }
}

impl NamedColumns for Columns {
    ghost use Rattle.std.specs.Prelude.{[]};
    ghost use Rattle.hippo_typing_catalog.specs.ChangesRefused.{keyless_table};

    ghost table = { keyless_table [] };

    fn place(&self, name: &Name) -> Option<usize> {
        self.as_slice()
            .iter()
            .position(|column| *name == column.name)
    }
}

/// The places of the columns with these names.
pub fn places<T: NamedColumns>(
    alloc: Global,
    table: &T,
    names: &[Name],
) -> Result<Places, NameFault>
    ensures { Resolves (unknown_columns (T.table table.now) names.now)
        (places_named (T.table table.now) names.now) result }
{
    let mut places = Sequence::new(alloc);
    for name in names {
        match table.place(name) {
            Some(place) => places.push(place)?,
            None => return Err(column_faults::no_such_column(alloc, name)),
        }
    }
    Ok(places)
}

/// The places of named columns. Each must be named only once.
pub fn distinct_places(
    alloc: Global,
    table: &IndexedTable,
    names: &[Name],
) -> Result<Places, NameFault>
    ensures { Resolves (rule_refused names.now table.now) (places_named table.now names.now)
        result }
{
    check_repeats(alloc, names)?;
    places(alloc, table, names)
}

/// The place of a column, if one is named.
pub fn place_if_any<T: NamedColumns>(
    alloc: Global,
    table: &T,
    name: &Option<Name>,
) -> Result<Option<usize>, NameFault>
    ensures { Resolves (unknown_columns (T.table table.now) (option_to_list name.now))
        (option_and_then (place_of (T.table table.now)) name.now) result }
{
    match name {
        None => Ok(None),
        Some(name) => match table.place(name) {
            Some(place) => Ok(Some(place)),
            None => Err(column_faults::no_such_column(alloc, name)),
        },
    }
}

/// The column with a name, or none.
pub fn column_named<'a>(table: &'a IndexedTable, name: &Name) -> Option<&'a Column>
    ensures { option_copied result ≡ column_named table.now name.now }
{
    let place = table.place(name)?;
    table.schema().columns.as_slice().get(place)
}

fn has_place(places: &[usize], place: usize) -> bool
    ensures { result ≡ list_any (nat_eq place) places.now }
{
    places.iter().any(|known| place == *known)
}

fn has_each(places: &[usize], wanted: &[usize]) -> bool
    ensures { result ≡ list_all (λ place. list_any (nat_eq place) places.now) wanted.now }
{
    wanted.iter().all(|place| has_place(places, *place))
}

fn is_the_key(schema: &Schema, places: &[usize]) -> bool
    ensures { result ≡ is_the_key schema.now places.now }
{
    places.len() == schema.key.len() && has_each(places, schema.key.as_slice())
}

/// Checks that these are the places of the key's columns, each once.
pub fn check_key(schema: &Schema, places: &[usize]) -> Result<(), NameFault>
    ensures { Resolves (fault_if (not (is_the_key schema.now places.now)) NotTheKey) tt result }
{
    if is_the_key(schema, places) {
        return Ok(());
    }
    Err(NameFault::NotTheKey)
}

fn is_of_key(table: &IndexedTable, name: &Name) -> bool
    ensures { result ≡ is_of_key table.now name.now }
{
    match table.place(name) {
        Some(place) => has_place(table.schema().key.as_slice(), place),
        None => false,
    }
}

/// Checks that none of the columns belongs to the key.
pub fn check_key_stays(alloc: Global, table: &IndexedTable, names: &[Name]) -> Result<(), NameFault>
    ensures { Resolves (key_changed table.now names.now) tt result }
{
    for name in names {
        if is_of_key(table, name) {
            return Err(column_faults::key_changed(alloc, name));
        }
    }
    Ok(())
}

// The value that is given for a place, or none.
fn value_at<'a>(place: usize, places: &[usize], values: &'a [Value]) -> Option<&'a Value>
    ensures { option_copied result ≡ lookup (nat_eq place) (zip places.now values.now) }
{
    for (known, value) in places.iter().zip(values) {
        if place == *known {
            return Some(value);
        }
    }
    None
}

/// The values that are given for the key's places, in the key's order.
pub fn key_written(
    alloc: Global,
    key: &[usize],
    places: &[usize],
    values: &[Value],
) -> Result<Cells, Memory>
    ensures { IfOk result
        (λ made. made ≡ filter_map (λ place. lookup (nat_eq place) (zip places.now values.now))
        key.now) }
{
    let mut made = Sequence::new(alloc);
    for place in key {
        if let Some(value) = value_at(*place, places, values) {
            made.push(value.copy(alloc)?)?;
        }
    }
    Ok(made)
}
