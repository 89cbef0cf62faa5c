//! The rules of the cells of tables. One look-up finds the rules of all columns of a table.
ghost use Rattle.std.specs.Prelude.{◌≡◌, [], nat_eq, take, Option, option_copied, OnOk, OnErr, if◌then◌else◌};
ghost use Rattle.std.specs.List.{list_any};
ghost use Rattle.std.specs.HashMap.{get};
ghost use Rattle.hippo_model.specs.Terms.{History};
ghost use Rattle.hippo_model.specs.Histories.{last_word};
ghost use Rattle.hippo_model.specs.Rules.{Rule};
ghost use Rattle.hippo_model.specs.declared.entry.Entry.{Entry};
ghost use Rattle.hippo_policy.specs.declared.keys.CellKey.{CellKey as CellKeyValue};
ghost use Rattle.hippo_policy.specs.Keys.{same_table, same_cell_key};
ghost use Rattle.hippo_policy.specs.Words.{with_word, without_word, numbered_words};
ghost use Rattle.hippo_policy.specs.Cells.{cell_words};

use crate::keys::{CellKey, TableKey};
use crate::ruled_columns::{RuledColumns, latest_in};
use crate::ruling::Ruling;
use hippo_values::Memory;
use std::alloc::Global;
use std::collections::HashMap;

/// For each table, purpose and recipient, the rules of its columns.
#[derive(Drop)]
pub struct RuledTables {
    tables: HashMap<TableKey<'static>, RuledColumns>,
}

impl RuledTables {
    /// Tables without rules. Takes no memory.
    pub fn new(alloc: Global) -> RuledTables
        ensures { (cell : CellKeyValue) → cell_words result cell ≡ [] }
    {
        RuledTables {
            tables: HashMap::new(alloc),
        }
    }

    /// The rules of a table's columns; none if no rule names the table.
    pub fn columns_of<'a>(&'a self, table: &TableKey<'a>) -> Option<&'a RuledColumns>
        ensures { option_copied result ≡ get same_table self.now.tables table.now }
    {
        self.tables.get(table)
    }

    /// The last rule of a cell up to entry number `n`; none if there is none.
    pub fn at<'a>(&'a self, n: u64, cell: &CellKey<'a>) -> Option<&'a Ruling>
        ensures { (word : Entry → Option Rule) (history : History)
            → cell_words self.now cell.now ≡ numbered_words word history
            → option_copied result ≡ last_word word (take n history) }
    {
        latest_in(self.columns_of(&cell.table), n, cell.column)
    }

    fn begin(
        &mut self,
        alloc: Global,
        cell: &CellKey<'_>,
        number: u64,
        word: &Ruling,
    ) -> Result<(), Memory>
        ensures ok { OnOk result ((other : CellKeyValue) → cell_words self.new other
            ≡ (if same_table cell.now.table other.table
            then with_word (nat_eq cell.now.column other.column)
            (record { number = number; word = word.now }) []
            else cell_words self.old other)) }
        ensures err { OnErr result ((other : CellKeyValue)
            → cell_words self.new other ≡ cell_words self.old other) }
    {
        let table = TableKey::owned(alloc, &cell.table)?;
        let mut columns = RuledColumns::new(alloc);
        columns.push_copy(alloc, cell.column, number, word)?;
        self.tables.insert(table, columns)?;
        Ok(())
    }

    fn push_copy(
        &mut self,
        alloc: Global,
        cell: &CellKey<'static>,
        number: u64,
        word: &Ruling,
    ) -> Result<(), Memory>
        ensures ok { OnOk result ((other : CellKeyValue) → cell_words self.new other
            ≡ with_word (same_cell_key cell.now other)
            (record { number = number; word = word.now })
            (cell_words self.old other)) }
        ensures err { OnErr result ((other : CellKeyValue)
            → cell_words self.new other ≡ cell_words self.old other) }
    {
        match self.tables.get_mut(&cell.table) {
            Some(columns) => {
                columns.push_copy(alloc, cell.column, number, word)?;
                Ok(())
            }
            None => self.begin(alloc, cell, number, word),
        }
    }

    fn pop(&mut self, cell: &CellKey<'static>)
        ensures { (other : CellKeyValue) → cell_words self.new other
            ≡ without_word (same_cell_key cell.now other) (cell_words self.old other) }
    {
        if let Some(columns) = self.tables.get_mut(&cell.table) {
            columns.pop(cell.column);
        }
    }

    /// Removes the last rule of each of these cells.
    pub fn pop_all(&mut self, cells: &[CellKey<'static>])
        ensures { (other : CellKeyValue) → cell_words self.new other
            ≡ without_word (list_any (λ cell. same_cell_key cell other) cells.now)
            (cell_words self.old other) }
    {
        for place in 0..cells.len() {
            let cell = &cells[place];
            if !cells[..place].contains(cell) {
                self.pop(cell);
            }
        }
    }

    /// Appends a rule, with its entry's number, for each of these cells. Fails when out of memory,
    /// or if a column is 65,536 or above, and leaves the rules unchanged.
    pub fn push_all(
        &mut self,
        alloc: Global,
        cells: &[CellKey<'static>],
        number: u64,
        word: &Ruling,
    ) -> Result<(), Memory>
        ensures ok { OnOk result ((other : CellKeyValue) → cell_words self.new other
            ≡ with_word (list_any (λ cell. same_cell_key cell other) cells.now)
            (record { number = number; word = word.now })
            (cell_words self.old other)) }
        ensures err { OnErr result ((other : CellKeyValue)
            → cell_words self.new other ≡ cell_words self.old other) }
    {
        for place in 0..cells.len() {
            let cell = &cells[place];
            if !cells[..place].contains(cell) {
                match self.push_copy(alloc, cell, number, word) {
                    Ok(()) => {}
                    Err(Memory) => {
                        self.pop_all(&cells[..place]);
                        return Err(Memory);
                    }
                }
            }
        }
        Ok(())
    }
}
