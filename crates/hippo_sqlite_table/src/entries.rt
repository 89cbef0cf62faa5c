//! The entries that the rows of the table hold.
ghost use Rattle.std.specs.Prelude.{◌≡◌, ℕ, ◌≤◌, ◌<◌, ℤ, pos, List, length, map, Some, option_copied, IfOk, IfSome};
ghost use Rattle.std.specs.declared.cmp.Ordering.TheVariants.{Less};
ghost use Rattle.std.specs.Ordering.{int_cmp};
ghost use Rattle.sqlite_value.specs.declared.value.Value.TheVariants.{Int, Text, Blob};
ghost use Rattle.sqlite_value.specs.Order.{column};
ghost use Rattle.sqlite_trees.specs.Objects.{number_in};
ghost use Rattle.hippo_keeper.specs.Keeping.{RisesAbove};
ghost use Rattle.hippo_sqlite_table.specs.declared.entries.RowFault.TheVariants as faults;
ghost use Rattle.hippo_sqlite_table.specs.Tables.{HistoryRow, shown_row, stored_row, entry_in, kind_in, AreAbove};

use hippo_keeper::KeeperFault;
use hippo_model::{StoredEntry, StoredList};
use hippo_values::{Bytes, Memory, Txt};
use sqlite::Row;
use sqlite::types::ValueRef;
use std::alloc::Global;
use std::str;

/// Why rows give no entries.
#[derive(Clone, Copy)]
pub enum RowFault {
    /// The text of a row is not UTF-8.
    NotText,
    Memory,
}

impl From<Memory> for RowFault {
    fn from(_: Memory) -> RowFault {
        RowFault::Memory
    }
}

impl RowFault {
    /// The keeper's answer: `Failed` if the text is not UTF-8, `Memory` when out of memory.
    pub fn fault(self) -> KeeperFault
        ensures text { self ≡ faults.NotText → result ≡ KeeperFault.Failed }
        ensures memory { self ≡ faults.Memory → result ≡ KeeperFault.Memory }
    {
        match self {
            RowFault::NotText => KeeperFault::Failed,
            RowFault::Memory => KeeperFault::Memory,
        }
    }
}

fn integer_at(row: &Row, place: usize) -> Option<i64>
    ensures { (number : ℤ) → column row.now place ≡ Int number → result ≡ Some number }
{
    match row.get_ref(place) {
        Ok(ValueRef::Int(number)) => Some(number),
        _ => None,
    }
}

fn text_at(row: &Row, place: usize) -> Option<&[u8]>
    ensures { (text : List ℕ) → column row.now place ≡ Text text
        → option_copied result ≡ Some text }
{
    match row.get_ref(place) {
        Ok(ValueRef::Text(text)) => Some(text),
        _ => None,
    }
}

fn bytes_at(row: &Row, place: usize) -> Option<&[u8]>
    ensures { (bytes : List ℕ) → column row.now place ≡ Blob bytes
        → option_copied result ≡ Some bytes }
{
    match row.get_ref(place) {
        Ok(ValueRef::Blob(bytes)) => Some(bytes),
        _ => None,
    }
}

// The number of a row, if it is above `last`.
fn number_above(row: &Row, last: u64) -> Option<u64>
    ensures above { IfSome result (λ number. last < number) }
    ensures told { (written : HistoryRow) → row.now ≡ shown_row written
        → int_cmp (pos last) written.number ≡ Less
        → result ≡ Some (number_in (Int written.number)) }
{
    let number = u64::try_from(integer_at(row, 0)?).ok()?;
    if number > last { Some(number) } else { None }
}

// The kind of an entry, or 0 if the number is not a kind.
fn kind_of(kind: i64) -> u8
    ensures { result ≡ kind_in (Int kind) }
{
    match u8::try_from(kind) {
        Ok(kind) => kind,
        Err(_) => 0,
    }
}

// The entry in a row, with this number. `None` if the row has another shape.
fn entry_of(alloc: Global, number: u64, row: &Row) -> Result<Option<StoredEntry>, RowFault>
    ensures numbered { IfOk result (λ found. IfSome found (λ entry. entry.seq ≡ number)) }
    ensures told { IfOk result (λ found. (written : HistoryRow) → row.now ≡ shown_row written
        → number ≡ number_in (Int written.number)
        → found ≡ Some (entry_in (stored_row written))) }
{
    let (Some(moment), Some(kind)) = (integer_at(row, 1), integer_at(row, 2)) else {
        return Ok(None);
    };
    let (Some(table), Some(body)) = (text_at(row, 3), bytes_at(row, 4)) else {
        return Ok(None);
    };
    let Ok(table) = str::from_utf8(table) else {
        return Err(RowFault::NotText);
    };
    Ok(Some(StoredEntry {
        seq: number,
        moment,
        kind: kind_of(kind),
        table: Txt::from_str(alloc, table)?,
        body: Bytes::from_slice(alloc, body)?,
    }))
}

/// Returns the entries of up to `max` rows, and stops before the first bad row. A row is bad if its
/// values are not three integers, a text and a blob, or if its number is not above `after` and
/// above all earlier numbers.
pub fn entries_of(alloc: Global, rows: &[Row], after: u64, max: u64) -> Result<StoredList, RowFault>
    ensures few { IfOk result (λ list. length list ≤ max) }
    ensures order { IfOk result (RisesAbove after) }
    ensures told { IfOk result (λ list. (written : List HistoryRow)
        → rows.now ≡ map shown_row written
        → AreAbove (pos after) written
        → length written ≤ max → list ≡ map (λ row. entry_in (stored_row row)) written) }
{
    let mut list = StoredList::new(alloc);
    let mut last = after;
    for row in rows {
        if list.len() as u64 == max {
            return Ok(list);
        }
        let Some(number) = number_above(row, last) else {
            return Ok(list);
        };
        let Some(entry) = entry_of(alloc, number, row)? else {
            return Ok(list);
        };
        list.push(entry)?;
        last = number;
    }
    Ok(list)
}
