//! Virtual tuples, by the places of their rows.
ghost use Rattle.std.specs.Prelude.{◌≡◌, ◌<◌, IfOk, length};
ghost use Rattle.std.specs.List.{All};
ghost use Rattle.hippo_tables_keyed.specs.RowSets.{key_in};
ghost use Rattle.hippo_join_lookups.specs.Places.{row_at_place};
ghost use Rattle.hippo_audit_search.specs.Tuples.{tuple_at};

use hippo_join_lookups::value_at;
use hippo_model::{Cells, SharedRow, SharedTuple};
use hippo_tables_rows::{RowSet, Sets};
use hippo_values::{Duplicate, Memory, Name, Sequence, Value};
use std::alloc::Global;

// The key of the row at a place.
fn key_at(alloc: Global, set: &RowSet, place: usize) -> Result<Cells, Memory>
    ensures { IfOk result (λ key. key ≡ key_in set.now.key (row_at_place set.now.rows place)) }
{
    let mut key = Sequence::with_capacity(alloc, set.key().len())?;
    for column in set.key().as_slice() {
        let value = value_at(set, *column, place).unwrap_or(&Value::Null);
        key.push(value.copy(alloc)?)?;
    }
    Ok(key)
}

// The rows of some tables at these places, by their keys.
pub(crate) fn tuple_at(
    alloc: Global,
    names: &[Name],
    sets: &Sets<'_>,
    tables: &[usize],
    places: &[usize],
) -> Result<SharedTuple, Memory>
    requires names { All (λ table. table < length names.now) tables.now }
    requires sets { All (λ table. table < length sets.now) tables.now }
    requires places { length places.now ≡ length tables.now }
    ensures { IfOk result (λ tuple. tuple ≡ tuple_at names.now sets.now tables.now places.now) }
{
    let mut tuple = Sequence::new(alloc);
    for (index, table) in tables.iter().enumerate() {
        let key = key_at(alloc, sets.get(*table), places[index])?;
        let table = names[*table].copy(alloc)?;
        tuple.push(SharedRow { table, key })?;
    }
    Ok(tuple)
}
