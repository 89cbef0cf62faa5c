//! Whether a table's schema is well formed, and whether a rule suits it.
ghost use Rattle.std.specs.Prelude.{◌≡◌, true, bytes_eq, nat_eq, nat_lt};
ghost use Rattle.std.specs.Option.{option_map_or};
ghost use Rattle.std.specs.List.{list_any, list_all};
ghost use Rattle.hippo_model.specs.Validity.{all_differ, is_integer, column_passes, key_column_fits, subject_column_fits, is_well_formed, has_columns, days_fit};

use hippo_model::{Column, ColumnKind, Places, Schema};
use hippo_values::{Name, RETENTION_LIMIT};

fn is_integer(kind: ColumnKind) -> bool
    ensures { result ≡ is_integer kind }
{
    matches!(kind, ColumnKind::Integer)
}

// Whether some column has this name.
fn has_name(columns: &[Column], name: &Name) -> bool
    ensures { result ≡ list_any (λ column. bytes_eq name.now column.name) columns.now }
{
    columns
        .iter()
        .any(|column| name.as_str() == column.name.as_str())
}

// Whether no two columns have one name.
fn names_differ(columns: &[Column]) -> bool
    ensures { result ≡ all_differ (λ one other. bytes_eq one.name other.name) columns.now }
{
    for (place, column) in columns.iter().enumerate() {
        if has_name(&columns[place + 1..], &column.name) {
            return false;
        }
    }
    true
}

fn has_place(places: &[usize], place: usize) -> bool
    ensures { result ≡ list_any (nat_eq place) places.now }
{
    places.iter().any(|other| place == *other)
}

// Whether no place occurs twice.
fn places_differ(places: &[usize]) -> bool
    ensures { result ≡ all_differ nat_eq places.now }
{
    for (index, place) in places.iter().enumerate() {
        if has_place(&places[index + 1..], *place) {
            return false;
        }
    }
    true
}

fn key_column_fits(schema: &Schema, place: usize) -> bool
    ensures { result ≡ column_passes key_column_fits schema.now place }
{
    match schema.columns.as_slice().get(place) {
        None => false,
        Some(column) => column.not_null,
    }
}

fn key_columns_fit(schema: &Schema) -> bool
    ensures { result ≡ list_all (column_passes key_column_fits schema.now) schema.now.key }
{
    let key = schema.key.as_slice();
    key.iter().all(|place| key_column_fits(schema, *place))
}

fn subject_column_fits(schema: &Schema, place: usize) -> bool
    ensures { result ≡ column_passes subject_column_fits schema.now place }
{
    match schema.columns.as_slice().get(place) {
        None => false,
        Some(column) => column.not_null && is_integer(column.kind),
    }
}

fn subject_fits(schema: &Schema) -> bool
    ensures { result ≡ option_map_or (column_passes subject_column_fits schema.now)
        schema.now.subject true }
{
    match schema.subject {
        None => true,
        Some(place) => subject_column_fits(schema, place),
    }
}

#[tactic(auto, using(crate::proofs::SchemaLemmas::names_mapped))]
pub fn is_well_formed(schema: &Schema) -> bool
    ensures { result ≡ is_well_formed schema.now }
{
    names_differ(schema.columns.as_slice())
        && places_differ(schema.key.as_slice())
        && key_columns_fit(schema)
        && subject_fits(schema)
}

fn all_below(places: &[usize], count: usize) -> bool
    ensures { result ≡ list_all (λ place. nat_lt place count) places.now }
{
    places.iter().all(|place| *place < count)
}

/// Whether these are places of the table's columns, at least one, and none occurs twice.
pub fn has_columns(places: &Places, schema: &Schema) -> bool
    ensures { result ≡ has_columns places.now schema.now }
{
    let count = schema.columns.len();
    let places = places.as_slice();
    places.len() > 0 && places_differ(places) && all_below(places, count)
}

/// Whether a rule may last this many days.
pub fn days_fit(days: Option<u32>) -> bool
    ensures { result ≡ days_fit days }
{
    match days {
        None => true,
        Some(days) => 1 <= days && days <= RETENTION_LIMIT,
    }
}
