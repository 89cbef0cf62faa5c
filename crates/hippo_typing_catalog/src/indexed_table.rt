//! A table's schema with an index of its columns.
ghost use Rattle.std.specs.Prelude.{◌≡◌, IfOk, OnOk, bytes_eq, position};
ghost use Rattle.std.specs.Bool.{then_some};
ghost use Rattle.std.specs.Option.{option_or};
ghost use Rattle.indexmap.specs.IndexMap.{get};
ghost use Rattle.hippo_values.specs.declared.names.Name.{Name as ColumnName};
ghost use Rattle.hippo_typing_catalog.specs.ColumnIndex.{IsIndexOf};
ghost use Rattle.hippo_typing_catalog.specs.WrittenColumns.{place_of};

use hippo_model::{Column, Lent, Schema};
use hippo_values::{Duplicate, Memory, Name};
use indexmap::IndexMap;
use std::alloc::Global;
use std::marker::Model;

// Up to this many columns, scan: that is faster than the index.
const FEW_COLUMNS: usize = 8;

/// A table's schema whose columns are found by their names without a long scan.
#[derive(Drop)]
pub struct IndexedTable {
    schema: Schema,
    places: IndexMap<Name, usize>,
}

impl Model for IndexedTable {
    ghost use Rattle.hippo_model.specs.declared.schema.Schema.{Schema as TableSchema};
    ghost use Rattle.hippo_typing_catalog.specs.ColumnIndex.{IsIndexOf};

    ghost Value = { TableSchema };

    ghost view = { λ table. table.schema };

    ghost invariant = { λ table. IsIndexOf table.schema.columns table.places };
}

/// The tables of a statement, in the order of FROM.
pub type StatementTables<'a> = Lent<'a, IndexedTable>;

// Adds a column's place, unless the index already has the column's name.
fn add_place(
    alloc: Global,
    places: &mut IndexMap<Name, usize>,
    place: usize,
    name: &Name,
) -> Result<(), Memory>
    ensures { OnOk result ((other : ColumnName) → get bytes_eq places.new other
        ≡ option_or (get bytes_eq places.old other) (then_some (bytes_eq other name.now) place)) }
{
    if !places.contains_key(name) {
        let name = name.copy(alloc)?;
        places.insert(name, place)?;
    }
    Ok(())
}

// The place of each column; the first place if two columns have the same name.
fn places_of(alloc: Global, columns: &[Column]) -> Result<IndexMap<Name, usize>, Memory>
    ensures { IfOk result (λ places. IsIndexOf columns.now places) }
{
    let mut places = IndexMap::new(alloc);
    for (place, column) in columns.iter().enumerate() {
        add_place(alloc, &mut places, place, &column.name)?;
    }
    Ok(places)
}

// The place of the column with this name, found by a scan.
fn place_among(columns: &[Column], name: &Name) -> Option<usize>
    ensures { result ≡ position (λ known. bytes_eq name.now known.name) columns.now }
{
    columns.iter().position(|column| *name == column.name)
}

impl IndexedTable {
    /// A copy of a schema, with the index of its columns.
    pub fn new(alloc: Global, schema: &Schema) -> Result<IndexedTable, Memory>
        ensures { IfOk result (λ table. table ≡ schema.now) }
    {
        let schema = schema.copy(alloc)?;
        let places = places_of(alloc, schema.columns.as_slice())?;
        Ok(IndexedTable { schema, places })
    }

    pub fn schema(&self) -> &Schema
        ensures { result.now ≡ self.now }
    {
        &self.schema
    }

    /// The place of the column with this name.
    pub fn place(&self, name: &Name) -> Option<usize>
        ensures { result ≡ place_of self.now name.now }
    {
        let columns = self.schema.columns.as_slice();
        if columns.len() <= FEW_COLUMNS {
            return place_among(columns, name);
        }
        self.places.get(name).copied()
    }
}
