//! The tables of a history.
ghost use Rattle.std.specs.Prelude.{◌≡◌, [], true, IsOk, OnOk, OnErr, IfOk, option_copied, option_map, option_and_then, bytes_eq};
ghost use Rattle.std.specs.HashMap.{get};
ghost use Rattle.hippo_values.specs.declared.names.Name.{Name as TableName};
ghost use Rattle.hippo_model.specs.Terms.{History};
ghost use Rattle.hippo_model.specs.declared.entry.Entry.{Entry as HistoryEntry};
ghost use Rattle.hippo_model.specs.Histories.{schema_at};
ghost use Rattle.hippo_model.specs.Rows.{key_of};
ghost use Rattle.hippo_tables_keyed.specs.RowSets.{kept_at};
ghost use Rattle.hippo_tables.specs.KeptTables.{after_insert, after_update, after_delete};
ghost use Rattle.hippo_tables.specs.Before.{before_of, renewed_table};
ghost use Rattle.hippo_tables.specs.Finished.{live_row, live_number};
ghost use Rattle.hippo_tables.specs.Standing.{TablesStandFor, RemembersTables, TablesAdd, TablesAreAsBefore, Makes, InsertsIntoTable, Updates, Deletes, is_delete, leaves_tables, with_change};

use crate::table::{Before, Table};
use hippo_model::{Act, Cells, Entry, Schema};
use hippo_tables_rows::RowSet;
use hippo_values::{Duplicate, Memory, Moment, Name};
use std::alloc::Global;
use std::collections::HashMap;
use std::mem;

/// What the last entry changed, and what was there before.
#[derive(Drop)]
pub(crate) enum Change {
    Nothing,
    Made(Name),
    Inserted { table: Name, key: Cells },
    Updated { table: Name, before: Before },
}

/// The current rows of each table of a history.
#[derive(Drop)]
pub struct Tables {
    pub(crate) tables: HashMap<Name, Table>,
    pub(crate) last: Change,
}

// Inserts a row into a table, if the table exists, and returns the row's key.
fn insert_into(
    tables: &mut HashMap<Name, Table>,
    alloc: Global,
    table: &Name,
    row: &Cells,
    born: Moment,
    number: u64,
) -> Result<Option<Cells>, Memory>
    ensures ok { OnOk result ((other : TableName) → get bytes_eq tables.new other
        ≡ with_change table.now (after_insert (record { row = row.now; born = born }) number)
        (get bytes_eq tables.old) other) }
    ensures key { IfOk result (λ key. key
        ≡ option_map (λ kept. key_of kept.rows.key row.now) (get bytes_eq tables.old table.now)) }
    ensures err { OnErr result ((other : TableName)
        → get bytes_eq tables.new other ≡ get bytes_eq tables.old other) }
{
    match tables.get_mut(table) {
        None => Ok(None),
        Some(kept) => match kept.insert_copy(alloc, row, born, number) {
            Ok(key) => Ok(Some(key)),
            Err(Memory) => Err(Memory),
        },
    }
}

// Removes a row from a table, if both exist.
fn delete_from(tables: &mut HashMap<Name, Table>, table: &Name, key: &Cells)
    ensures { (other : TableName) → get bytes_eq tables.new other
        ≡ with_change table.now (after_delete key.now) (get bytes_eq tables.old) other }
{
    if let Some(kept) = tables.get_mut(table) {
        kept.delete(key);
    }
}

// Replaces the row with the same key, if it and the table exist, and returns the old row.
fn update_in(
    tables: &mut HashMap<Name, Table>,
    alloc: Global,
    table: &Name,
    row: &Cells,
    number: u64,
) -> Result<Option<Before>, Memory>
    ensures ok { OnOk result ((other : TableName) → get bytes_eq tables.new other
        ≡ with_change table.now (renewed_table row.now number) (get bytes_eq tables.old) other) }
    ensures before { IfOk result (λ before. before
        ≡ option_and_then (λ kept. before_of (key_of kept.rows.key row.now) kept)
        (get bytes_eq tables.old table.now)) }
    ensures err { OnErr result ((other : TableName)
        → get bytes_eq tables.new other ≡ get bytes_eq tables.old other) }
{
    match tables.get_mut(table) {
        None => Ok(None),
        Some(kept) => match kept.update_copy(alloc, row, number) {
            Ok(before) => Ok(before),
            Err(Memory) => Err(Memory),
        },
    }
}

// Restores the former row of an update, if the table and a row with its key exist.
fn restore_in(tables: &mut HashMap<Name, Table>, table: &Name, before: Before)
    ensures { (other : TableName) → get bytes_eq tables.new other
        ≡ with_change table.now (after_update (record { row = before.row; born = before.born })
        before.number)
        (get bytes_eq tables.old) other }
{
    if let Some(kept) = tables.get_mut(table) {
        kept.update(before.row, before.born, before.number);
    }
}

impl Tables {
    /// The tables of the empty history: none. Allocates no memory.
    pub fn new(alloc: Global) -> Tables
        ensures { TablesStandFor result [] }
    {
        Tables {
            tables: HashMap::new(alloc),
            last: Change::Nothing,
        }
    }

    /// A table's schema; None if there is no such table.
    pub fn schema(&self, table: &Name) -> Option<&Schema>
        ensures { (history : History) → TablesStandFor self.now history
            → option_copied result ≡ schema_at history table.now }
    {
        match self.tables.get(table) {
            None => None,
            Some(kept) => Some(kept.schema()),
        }
    }

    /// A table's rows with their births, sorted by key; None if there is no such table.
    pub fn rows(&self, table: &Name) -> Option<&RowSet>
        ensures { (history : History) → TablesStandFor self.now history
            → option_copied result ≡ option_map
            (λ schema. kept_at schema history) (schema_at history table.now) }
    {
        match self.tables.get(table) {
            None => None,
            Some(kept) => Some(kept.rows()),
        }
    }

    /// The row of a table with a key; None exactly when the table or the row does not exist.
    pub fn row(&self, table: &Name, key: &Cells) -> Option<&Cells>
        ensures { (history : History) → TablesStandFor self.now history
            → option_copied result ≡ live_row history table.now key.now }
    {
        match self.tables.get(table) {
            None => None,
            Some(kept) => kept.row(key),
        }
    }

    // Creates a secondary order of a table's rows by a column, if the table exists and has enough
    // rows, and maintains it from now on. The tables' contents stay the same.
    pub(crate) fn order_by(&mut self, alloc: Global, table: &Name, column: usize)
        ensures { TablesAreAsBefore self.old self.new }
    {
        if let Some(kept) = self.tables.get_mut(table) {
            kept.order_by(alloc, column);
        }
    }

    // The number of the last entry that names a live key.
    pub(crate) fn number(&self, table: &Name, key: &Cells) -> Option<u64>
        ensures { (history : History) → TablesStandFor self.now history → result
            ≡ live_number history table.now key.now }
    {
        match self.tables.get(table) {
            None => None,
            Some(kept) => kept.number(key),
        }
    }

    // What the last entry changed.
    fn remember(&mut self, last: Change)
        ensures { self.new ≡ record { tables = self.old.tables; last = last } }
    {
        self.last = last;
    }

    fn make(&mut self, alloc: Global, schema: &Schema) -> Result<(), Memory>
        ensures ok { OnOk result (Makes self.old self.new schema.now) }
        ensures err { OnErr result (TablesAreAsBefore self.old self.new) }
    {
        let made = schema.name.copy(alloc)?;
        let name = schema.name.copy(alloc)?;
        let table = Table::new(alloc, schema.copy(alloc)?)?;
        self.tables.insert(name, table)?;
        self.remember(Change::Made(made));
        Ok(())
    }

    fn insert_row(
        &mut self,
        alloc: Global,
        table: &Name,
        row: &Cells,
        born: &Moment,
        number: u64,
    ) -> Result<(), Memory>
        ensures ok { OnOk result
            (InsertsIntoTable self.old self.new table.now
            (record { row = row.now; born = born.now }) number) }
        ensures err { OnErr result (TablesAreAsBefore self.old self.new) }
    {
        let name = table.copy(alloc)?;
        let key = insert_into(&mut self.tables, alloc, table, row, *born, number)?;
        match key {
            None => self.remember(Change::Nothing),
            Some(key) => self.remember(Change::Inserted { table: name, key }),
        }
        Ok(())
    }

    fn update_row(
        &mut self,
        alloc: Global,
        table: &Name,
        row: &Cells,
        number: u64,
    ) -> Result<(), Memory>
        ensures ok { OnOk result (Updates self.old self.new table.now row.now number) }
        ensures err { OnErr result (TablesAreAsBefore self.old self.new) }
    {
        let name = table.copy(alloc)?;
        let before = update_in(&mut self.tables, alloc, table, row, number)?;
        match before {
            None => self.remember(Change::Nothing),
            Some(before) => self.remember(Change::Updated {
                table: name,
                before,
            }),
        }
        Ok(())
    }

    fn delete_row(&mut self, table: &Name, key: &Cells)
        ensures { Deletes self.old self.new table.now key.now }
    {
        delete_from(&mut self.tables, table, key);
        self.remember(Change::Nothing);
    }

    // Records an entry that changes no row and creates no table.
    fn pass_over(&mut self)
        ensures { (entry : HistoryEntry) → leaves_tables entry.act ≡ true
            → TablesAdd self.old self.new entry }
    {
        self.remember(Change::Nothing);
    }

    /// Applies the next entry: the tables then represent the history with the entry appended. They
    /// are unchanged when out of memory, which cannot happen for a Delete, nor for an entry that
    /// changes no row and creates no table.
    pub fn apply(&mut self, alloc: Global, entry: &Entry) -> Result<(), Memory>
        ensures ok { OnOk result (TablesAdd self.old self.new entry.now) }
        ensures err { OnErr result (TablesAreAsBefore self.old self.new) }
        ensures deletes { is_delete entry.now.act ≡ true → IsOk result }
        ensures silent { leaves_tables entry.now.act ≡ true → IsOk result }
    {
        match &entry.act {
            Act::Create(schema) => self.make(alloc, schema),
            Act::Insert { table, row } => {
                self.insert_row(alloc, table, row, &entry.moment, entry.seq)
            }
            Act::Update { table, row } => self.update_row(alloc, table, row, entry.seq),
            Act::Delete { table, key } => Ok(self.delete_row(table, key)),
            Act::Purpose(_) => Ok(self.pass_over()),
            Act::Recipient(_) => Ok(self.pass_over()),
            Act::Item { .. } => Ok(self.pass_over()),
            Act::Authorize { .. } => Ok(self.pass_over()),
            Act::Deauthorize { .. } => Ok(self.pass_over()),
            Act::Allow { .. } => Ok(self.pass_over()),
            Act::Revoke { .. } => Ok(self.pass_over()),
            Act::Choice { .. } => Ok(self.pass_over()),
            Act::Asked { .. } => Ok(self.pass_over()),
        }
    }

    /// Reverts the last entry applied, which must not be a Delete: the tables then represent the
    /// history before it. Needs no memory.
    pub fn take_back(&mut self)
        ensures { (history : History) → RemembersTables self.old history
            → TablesStandFor self.new history }
    {
        match mem::replace(&mut self.last, Change::Nothing) {
            Change::Nothing => {}
            Change::Made(table) => {
                let _ = self.tables.remove(&table);
            }
            Change::Inserted { table, key } => delete_from(&mut self.tables, &table, &key),
            Change::Updated { table, before } => restore_in(&mut self.tables, &table, before),
        }
    }
}
