//! One table: its schema, its rows, and for each row the last entry that named its key.
ghost use Rattle.std.specs.Prelude.{◌≡◌, option_copied, option_map, option_and_then, slice_get, slice_index_or, OnOk, OnErr, IfOk, None};
ghost use Rattle.hippo_model.specs.Rows.{key_of};
ghost use Rattle.hippo_tables_keyed.specs.RowSets.{find_row};
ghost use Rattle.hippo_tables.specs.Before.{before_of, renewed_table};
ghost use Rattle.hippo_tables.specs.KeptTables.{KeptTable, empty_table, after_insert, after_update, after_delete};

use hippo_model::{Cells, Schema, copied_key};
use hippo_tables_keyed::Pieces;
use hippo_tables_rows::RowSet;
use hippo_values::{Duplicate, Memory, Moment};
use std::alloc::Global;
use std::marker::Model;

/// A former row, with the number of the last entry that named its key.
#[derive(Drop)]
pub struct Before {
    pub row: Cells,
    pub born: Moment,
    pub number: u64,
}

/// A table's rows, each with the number of the last entry that names its key.
#[derive(Drop)]
pub struct Table {
    schema: Schema,
    rows: RowSet,
    numbers: Pieces<u64>,
}

impl Model for Table {
    ghost use Rattle.std.specs.Prelude.{◌≡◌, length};
    ghost use Rattle.hippo_tables.specs.KeptTables.{KeptTable};

    ghost Value = { KeptTable };

    ghost view = { λ table. record {
      schema = table.schema;
      rows = table.rows;
      numbers = table.numbers;
    } };

    ghost invariant = { λ table. length table.numbers ≡ length table.rows.rows };
}

impl Table {
    /// A table with no rows.
    pub fn new(alloc: Global, schema: Schema) -> Result<Table, Memory>
        ensures { IfOk result (λ made. made ≡ empty_table schema) }
    {
        let key = schema.key.copy(alloc)?;
        Ok(Table {
            schema,
            rows: RowSet::new(alloc, key),
            numbers: Pieces::new(alloc),
        })
    }

    pub fn schema(&self) -> &Schema
        ensures { result.now ≡ self.now.schema }
    {
        &self.schema
    }

    pub fn rows(&self) -> &RowSet
        ensures { result.now ≡ self.now.rows }
    {
        &self.rows
    }

    /// The row with a key; None exactly when there is none.
    pub fn row(&self, key: &Cells) -> Option<&Cells>
        ensures { option_copied result ≡ option_map (λ kept. kept.row)
            (option_and_then (slice_get self.now.rows.rows)
            (find_row self.now.rows.key key.now self.now.rows.rows)) }
    {
        match self.rows.find(key) {
            None => None,
            Some(place) => Some(self.rows.row(place)),
        }
    }

    /// The number of the last entry that names a key, if a row has the key.
    pub fn number(&self, key: &Cells) -> Option<u64>
        ensures { result ≡ option_map (λ place. slice_index_or self.now.numbers place 0)
            (find_row self.now.rows.key key.now self.now.rows.rows) }
    {
        match self.rows.find(key) {
            None => None,
            Some(place) => Some(*self.numbers.get(place)),
        }
    }

    /// The key of a row.
    pub fn copied_key(&self, alloc: Global, row: &Cells) -> Result<Cells, Memory>
        ensures { IfOk result (λ key. key ≡ key_of self.now.rows.key row.now) }
    {
        copied_key(alloc, self.rows.key().as_slice(), row.as_slice())
    }

    /// Creates a secondary order of the rows by a column, and maintains it from now on. The table's
    /// contents stay the same.
    pub fn order_by(&mut self, alloc: Global, column: usize)
        ensures { self.new ≡ self.old }
    {
        self.rows.order_by(alloc, column);
    }

    /// Inserts a row, given its key, if no row has the key.
    pub fn insert(
        &mut self,
        row: Cells,
        key: &Cells,
        born: Moment,
        number: u64,
    ) -> Result<(), Memory>
        requires { key.now ≡ key_of self.old.rows.key row }
        ensures ok { OnOk result (self.new
            ≡ after_insert (record { row = row; born = born }) number self.old) }
        ensures err { OnErr result (self.new ≡ self.old) }
    {
        let found = self.rows.insert(row, born)?;
        let Some(place) = found else {
            return Ok(());
        };
        if let Err(Memory) = self.numbers.insert(place, number) {
            self.rows.take(key);
            return Err(Memory);
        }
        Ok(())
    }

    /// Replaces the row with the same key, if there is one. Needs no memory.
    pub fn update(&mut self, row: Cells, born: Moment, number: u64)
        ensures { self.new ≡ after_update (record { row = row; born = born }) number self.old }
    {
        if let Some(place) = self.rows.find_like(&row) {
            let count = self.rows.len();
            prove!(place < count);
            let _ = self.rows.put(row, born);
            self.numbers.set(place, number);
        }
    }

    /// Removes the row with a key, if there is one. Needs no memory.
    pub fn delete(&mut self, key: &Cells)
        ensures { self.new ≡ after_delete key.now self.old }
    {
        if let Some(place) = self.rows.find(key) {
            self.rows.take(key);
            self.numbers.remove(place);
        }
    }

    /// Inserts a copy of a row if no row has its key, and returns the key.
    pub fn insert_copy(
        &mut self,
        alloc: Global,
        row: &Cells,
        born: Moment,
        number: u64,
    ) -> Result<Cells, Memory>
        ensures ok { OnOk result (self.new
            ≡ after_insert (record { row = row.now; born = born }) number self.old) }
        ensures key { IfOk result (λ key. key ≡ key_of self.old.rows.key row.now) }
        ensures err { OnErr result (self.new ≡ self.old) }
    {
        let key = self.copied_key(alloc, row)?;
        let row = row.copy(alloc)?;
        self.insert(row, &key, born, number)?;
        Ok(key)
    }

    // Replaces the row with the same key, keeps its birth, and returns the old row.
    fn renew(&mut self, place: usize, row: Cells, number: u64) -> Before
        requires { find_row self.old.rows.key (key_of self.old.rows.key row) self.old.rows.rows
            ≡ Some place }
        ensures renewed { self.new ≡ renewed_table row number self.old }
        ensures before { before_of (key_of self.old.rows.key row) self.old ≡ Some result }
    {
        let count = self.rows.len();
        prove!(place < count);
        let born = self.rows.born(place);
        let old = self.rows.replace(place, row, born);
        Before {
            row: old.row,
            born,
            number: self.numbers.replace(place, number),
        }
    }

    /// Replaces the row with the same key, if there is one, by a copy of a row. Keeps its birth,
    /// and returns the old row.
    pub fn update_copy(
        &mut self,
        alloc: Global,
        row: &Cells,
        number: u64,
    ) -> Result<Option<Before>, Memory>
        ensures ok { OnOk result (self.new ≡ renewed_table row.now number self.old) }
        ensures before { IfOk result (λ before. before
            ≡ before_of (key_of self.old.rows.key row.now) self.old) }
        ensures err { OnErr result (self.new ≡ self.old) }
    {
        let Some(place) = self.rows.find_like(row) else {
            return Ok(None);
        };
        let copied = row.copy(alloc)?;
        Ok(Some(self.renew(place, copied, number)))
    }
}
