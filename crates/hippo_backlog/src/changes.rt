//! Applies a version to the rows of a table.
ghost use Rattle.std.specs.Prelude.{◌≡◌, ◌&&◌, not, Ok, is_some, option_map, bytes_eq};
ghost use Rattle.std.specs.Bool.{then_some};
ghost use Rattle.hippo_model.specs.declared.entry.Act.TheVariants.{Delete};
ghost use Rattle.hippo_tables_keyed.specs.Changes.{changed};
ghost use Rattle.hippo_model.specs.Rows.{key_of};
ghost use Rattle.hippo_tables_keyed.specs.RowSets.{row_with};
ghost use Rattle.hippo_model.specs.Versions.{row_fits, key_fits};
ghost use Rattle.hippo_backlog.specs.Taking.{put_with, Becomes, result_of_fit, AppliesVersion};

use crate::faults::ReadFault;
use hippo_entry::decode;
use hippo_model::{Act, Cells, Entry, Schema, StoredEntry};
use hippo_tables::{key_fits, row_fits};
use hippo_tables_rows::RowSet;
use hippo_values::{Memory, Moment, Name};
use std::alloc::Global;

// Whether the table has the schema's name and the row fits the schema.
fn fits(schema: &Schema, table: &Name, row: &Cells) -> bool
    ensures { result ≡ (bytes_eq table.now schema.now.name && row_fits schema.now row.now) }
{
    *table == schema.name && row_fits(schema, row)
}

// Whether the table has the schema's name and the key fits the schema.
fn fits_key(schema: &Schema, table: &Name, key: &Cells) -> bool
    ensures { result ≡ (bytes_eq table.now schema.now.name && key_fits schema.now key.now) }
{
    *table == schema.name && key_fits(schema, key)
}

// Whether there is a row with this key.
fn is_live(rows: &RowSet, key: &Cells) -> bool
    ensures { result ≡ is_some (row_with key.now rows.now) }
{
    rows.find(key).is_some()
}

// Whether there is a row with the key of this one.
fn is_live_like(rows: &RowSet, row: &Cells) -> bool
    ensures { result ≡ is_some (row_with (key_of rows.now.key row.now) rows.now) }
{
    rows.find_like(row).is_some()
}

// The birth of the row that has the key of this one, if there is one.
fn birth_like(rows: &RowSet, row: &Cells) -> Option<Moment>
    ensures { result ≡ option_map (λ kept. kept.born)
        (row_with (key_of rows.now.key row.now) rows.now) }
{
    match rows.find_like(row) {
        None => None,
        Some(place) => Some(rows.born(place)),
    }
}

// The moment as the birth of a new row, if no row has its key yet.
fn birth_of_new(rows: &RowSet, row: &Cells, moment: Moment) -> Option<Moment>
    ensures { result ≡ then_some (not (is_some (row_with (key_of rows.now.key row.now) rows.now)))
        moment }
{
    if is_live_like(rows, row) {
        None
    } else {
        Some(moment)
    }
}

// Puts a row with its birth, and replaces the row with its key. Returns whether it has a birth and
// fits.
fn put(
    schema: &Schema,
    table: &Name,
    row: Cells,
    birth: Option<Moment>,
    rows: &mut RowSet,
) -> Result<bool, Memory>
    requires key { rows.old.key ≡ schema.now.key }
    ensures { Becomes (put_with schema.now table.now row birth rows.old) result rows.old rows.new }
{
    let Some(born) = birth else {
        return Ok(false);
    };
    if fits(schema, table, &row) {
        rows.put(row, born)?;
        return Ok(true);
    }
    Ok(false)
}

// Removes the row with this key. Returns whether the key fits and the row is there.
fn delete(schema: &Schema, table: &Name, key: &Cells, _moment: Moment, rows: &mut RowSet) -> bool
    requires key { rows.old.key ≡ schema.now.key }
    ensures { Becomes (changed schema.now _moment (Delete table.now key.now) rows.old) (Ok result)
        rows.old rows.new }
{
    let lives = is_live(rows, key);
    if fits_key(schema, table, key) && lives {
        rows.take(key);
        return true;
    }
    false
}

// Applies an act to a table's rows. Returns whether it is a version that fits.
fn change(schema: &Schema, moment: Moment, act: Act, rows: &mut RowSet) -> Result<bool, Memory>
    requires key { rows.old.key ≡ schema.now.key }
    ensures { Becomes (changed schema.now moment act rows.old) result rows.old rows.new }
{
    match act {
        Act::Insert { table, row } => {
            let birth = birth_of_new(rows, &row, moment);
            put(schema, &table, row, birth, rows)
        }
        Act::Update { table, row } => {
            let birth = birth_like(rows, &row);
            put(schema, &table, row, birth, rows)
        }
        Act::Delete { table, key } => Ok(delete(schema, &table, &key, moment, rows)),
        other => {
            drop(other);
            Ok(false)
        }
    }
}

// The result of applying the entry with a number.
fn judged(number: u64, change: Result<bool, Memory>) -> Result<(), ReadFault>
    ensures { result ≡ result_of_fit number change }
{
    match change {
        Ok(true) => Ok(()),
        Ok(false) => Err(ReadFault::Damaged(number)),
        Err(Memory) => Err(ReadFault::Memory),
    }
}

/// Applies a stored entry to a table's rows. `Damaged` with its number if the stored entry does not
/// decode to a version of the table that fits the rows.
pub(crate) fn take(
    alloc: Global,
    schema: &Schema,
    kept: &StoredEntry,
    rows: &mut RowSet,
) -> Result<(), ReadFault>
    requires key { rows.old.key ≡ schema.now.key }
    ensures takes { AppliesVersion schema.now kept.now result rows.old rows.new }
{
    match decode(alloc, kept) {
        Ok(Some(entry)) => {
            let Entry { moment, act, .. } = entry;
            judged(kept.seq, change(schema, moment, act, rows))
        }
        Ok(None) => Err(ReadFault::Damaged(kept.seq)),
        Err(Memory) => Err(ReadFault::Memory),
    }
}
