//! How many of a table's rows can follow the chosen rows, for the order in which tables are joined.
ghost use Rattle.std.specs.Prelude.{◌<◌, length};

use crate::seeking::{access_by, compared_column};
use crate::sides::Side;
use hippo_join_lookups::{outer_parts, value_at};
use hippo_model::{ChoiceView, Ref};
use hippo_tables_rows::{Bound, RowSet};
use hippo_values::{Memory, Value};
use std::alloc::Global;

// At or below this many rows, no other access path is counted. Where a table is not ordered by a
// column, one row of this many is expected to have a given value of it.
const FEW: usize = 16;

// The number of rows that have a value in a column, if the table is ordered by it.
fn count_with(set: &RowSet, column: usize, value: &Value) -> Option<usize> {
    let end = Bound {
        value,
        strict: false,
    };
    set.count_within(column, Some(end), Some(end))
}

// About how many of a table's rows have one value of a column: as many as have that of the row in
// the middle, if the table is ordered by the column.
fn rows_per_value(set: &RowSet, column: usize) -> usize {
    let rows = set.len();
    let found = match value_at(set, column, rows / 2) {
        Some(value) => count_with(set, column, value),
        None => None,
    };
    found.unwrap_or(rows / FEW)
}

impl<'a, C: ChoiceView> Side<'a, C> {
    /// Whether the condition and the chosen rows fix a table's whole key, so that at most one of
    /// its rows can follow.
    pub fn finds_one(&self, table: usize, slots: &[Option<usize>]) -> bool {
        if table >= self.sets.len() {
            return false;
        }
        self.tells_key(table, slots)
    }

    // The number of a table's rows that literals find: by key, or by the access path that finds the
    // fewest.
    pub(crate) fn count_found(&self, alloc: Global, table: usize) -> Result<usize, Memory>
        requires { table < length self.now.sets.now }
    {
        let mut least = self.span(alloc, table, &[])?.len();
        if least <= FEW {
            return Ok(least);
        }
        for part in outer_parts(&self.query.cond) {
            if let Some(access) = access_by(part, table) {
                let count = self.count_by(table, access, &[]).unwrap_or(least);
                least = least.min(count);
            }
        }
        Ok(least)
    }

    // About how many of a table's rows have the values that equalities with chosen rows fix; at
    // most `found`.
    fn count_tied(&self, table: usize, slots: &[Option<usize>], found: usize) -> usize
        requires { table < length self.now.sets.now }
    {
        let mut least = found;
        for part in outer_parts(&self.query.cond) {
            if let Some(column) = compared_column(part, table) {
                if self.is_joined(Ref { table, column }, slots, false) {
                    least = least.min(rows_per_value(self.sets.get(table), column));
                }
            }
        }
        least
    }

    /// About how many of a table's rows can follow each combination of the chosen rows. Without an
    /// equality that ties the table to them, it is the exact number of rows that literals find. A
    /// tie to a column that the table is ordered by finds as many as have one value of it, and a tie
    /// to another column one in sixteen.
    pub fn count_after(
        &self,
        alloc: Global,
        table: usize,
        slots: &[Option<usize>],
    ) -> Result<usize, Memory> {
        if table >= self.sets.len() {
            return Ok(0);
        }
        let found = self.count_found(alloc, table)?;
        if found <= 1 {
            return Ok(found);
        }
        Ok(self.count_tied(table, slots, found))
    }
}
