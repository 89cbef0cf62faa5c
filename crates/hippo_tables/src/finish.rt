//! Completes a requested change into an act.
ghost use Rattle.std.specs.Prelude.{◌≡◌, slice_set, IfOk, Ok as Good};
ghost use Rattle.hippo_model.specs.Terms.{History};
ghost use Rattle.hippo_model.specs.declared.entry.Act.TheVariants.{Insert, Update, Delete};
ghost use Rattle.hippo_model.specs.declared.wanted.Wanted.TheVariants.{Add, Set, Remove};
ghost use Rattle.hippo_tables.specs.Standing.{TablesStandFor};
ghost use Rattle.hippo_tables.specs.Finished.{written_row, finished_act, IsFinishedAct};

use crate::tables::Tables;
use hippo_model::{Act, Cells, Places, TableFault, Wanted};
use hippo_values::{Duplicate, Memory, Name, Sequence, Value};
use std::alloc::Global;

// Overwrites the value at a place, if there is such a place.
fn put(cells: &mut Vec<Value>, place: usize, value: Value)
    ensures { cells.new.items ≡ slice_set cells.old.items place value }
{
    if let Some(cell) = cells.get_mut(place) {
        *cell = value;
    }
}

// Moves values to some places.
fn write_values(cells: &mut Vec<Value>, places: &[usize], values: Vec<Value>)
    ensures { cells.new.items ≡ written_row places.now values.items cells.old.items }
{
    let mut left = values.into_iter();
    for place in places {
        let Some(value) = left.next() else {
            return;
        };
        put(cells, *place, value);
    }
}

// A row with values written at some places.
fn with_values(row: Cells, places: &[usize], values: Cells) -> Cells
    ensures { result ≡ written_row places.now values row }
{
    let mut cells = row.into_vec();
    write_values(&mut cells, places, values.into_vec());
    Sequence::from_vec(cells)
}

// A copy of a row, with values written at some places.
fn written_row(alloc: Global, row: &Cells, places: &[usize], values: Cells) -> Result<Cells, Memory>
    ensures { IfOk result (λ made. made ≡ written_row places.now values row.now) }
{
    match row.copy(alloc) {
        Ok(row) => Ok(with_values(row, places, values)),
        Err(Memory) => Err(Memory),
    }
}

fn update_act(
    alloc: Global,
    table: Name,
    row: &Cells,
    places: &[usize],
    values: Cells,
) -> Result<Act, TableFault>
    ensures { IsFinishedAct (Good (Update table (written_row places.now values row.now))) result }
{
    match written_row(alloc, row, places, values) {
        Ok(row) => Ok(Act::Update { table, row }),
        Err(Memory) => Err(TableFault::Memory),
    }
}

impl Tables {
    fn finish_add(&self, table: Name, row: Cells, key: Cells) -> Result<Act, TableFault>
        ensures { (history : History) → TablesStandFor self.now history
            → IsFinishedAct (finished_act history (Add table row key)) result }
    {
        match self.number(&table, &key) {
            Some(number) => Err(TableFault::KeyThere(number)),
            None => Ok(Act::Insert { table, row }),
        }
    }

    fn finish_set(
        &self,
        alloc: Global,
        table: Name,
        key: Cells,
        places: Places,
        values: Cells,
    ) -> Result<Act, TableFault>
        ensures { (history : History) → TablesStandFor self.now history
            → IsFinishedAct (finished_act history (Set table key places values)) result }
    {
        match self.row(&table, &key) {
            Some(row) => update_act(alloc, table, row, places.as_slice(), values),
            None => Err(TableFault::KeyMissing),
        }
    }

    fn finish_remove(&self, table: Name, key: Cells) -> Result<Act, TableFault>
        ensures { (history : History) → TablesStandFor self.now history
            → IsFinishedAct (finished_act history (Remove table key)) result }
    {
        match self.row(&table, &key) {
            Some(_) => Ok(Act::Delete { table, key }),
            None => Err(TableFault::KeyMissing),
        }
    }

    /// The act of a requested change, built from its parts. The act of an UPDATE has the whole new
    /// row. Returns `KeyThere`, with the number of the last entry that names the key, exactly when
    /// an INSERT's key is live. Returns `KeyMissing` exactly when the key of an UPDATE or a DELETE
    /// is not live. Otherwise returns `Memory` when out of memory.
    pub fn finish(&self, alloc: Global, wanted: Wanted) -> Result<Act, TableFault>
        ensures { (history : History) → TablesStandFor self.now history
            → IsFinishedAct (finished_act history wanted) result }
    {
        match wanted {
            Wanted::Ready(act) => Ok(act),
            Wanted::Add { table, row, key } => self.finish_add(table, row, key),
            Wanted::Set {
                table,
                key,
                places,
                values,
            } => self.finish_set(alloc, table, key, places, values),
            Wanted::Remove { table, key } => self.finish_remove(table, key),
        }
    }
}
