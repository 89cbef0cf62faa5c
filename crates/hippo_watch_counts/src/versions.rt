//! The effect of an INSERT, UPDATE or DELETE on the counts of an audit's hits.
ghost use Rattle.std.specs.Prelude.{◌≡◌, option_map, option_copied};
ghost use Rattle.hippo_model.specs.Terms.{History};
ghost use Rattle.hippo_model.specs.Rows.{key_of};
ghost use Rattle.hippo_tables_keyed.specs.RowSets.{row_with};
ghost use Rattle.hippo_tables.specs.Standing.{TablesStandFor};
ghost use Rattle.hippo_watch_counts.specs.Counts.{row_like, taken_in, taken_back};

use crate::counts::AuditHits;
use hippo_model::{Act, Cells};
use hippo_tables::Tables;
use hippo_tables_rows::RowSet;
use hippo_values::Name;

// The row of a set that has the same key as this one.
fn like_in<'a>(rows: &'a RowSet, row: &Cells) -> Option<&'a Cells>
    ensures { option_copied result
        ≡ option_map (λ kept. kept.row) (row_with (key_of rows.now.key row.now) rows.now) }
{
    match rows.find_like(row) {
        Some(place) => Some(rows.row(place)),
        None => None,
    }
}

// The row of a table that has the same key as this one.
fn row_like<'a>(tables: &'a Tables, table: &Name, row: &Cells) -> Option<&'a Cells>
    ensures { (history : History) → TablesStandFor tables.now history
        → option_copied result ≡ row_like history table.now row.now }
{
    match tables.rows(table) {
        Some(rows) => like_in(rows, row),
        None => None,
    }
}

impl AuditHits {
    /// Changes the counts by the act of the next entry. `tables` are those before that entry. Takes
    /// no memory.
    pub fn take_in(&mut self, tables: &Tables, act: &Act)
        ensures audit { self.new.audit ≡ self.old.audit }
        ensures hits { (history : History) → TablesStandFor tables.now history
            → self.new ≡ taken_in history act.now self.old }
    {
        match act {
            Act::Insert { table, row } => {
                self.change(table, row_like(tables, table, row), Some(row))
            }
            Act::Update { table, row } => {
                self.change(table, row_like(tables, table, row), Some(row))
            }
            Act::Delete { table, key } => self.change(table, tables.row(table, key), None),
            _ => {}
        }
    }

    /// Reverts the last `take_in`, if its act is not added after all. `tables` are the same. Takes
    /// no memory.
    pub fn take_back(&mut self, tables: &Tables, act: &Act)
        ensures audit { self.new.audit ≡ self.old.audit }
        ensures hits { (history : History) → TablesStandFor tables.now history
            → self.new ≡ taken_back history act.now self.old }
    {
        match act {
            Act::Insert { table, row } => {
                self.change(table, Some(row), row_like(tables, table, row))
            }
            Act::Update { table, row } => {
                self.change(table, Some(row), row_like(tables, table, row))
            }
            Act::Delete { table, key } => self.change(table, None, tables.row(table, key)),
            _ => {}
        }
    }
}
