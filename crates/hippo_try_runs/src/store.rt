//! The entries that a call left, which orders may change before the next call.
ghost use Rattle.std.specs.Prelude.{false, IsTrue, IfSome, IfOk};
ghost use Rattle.hippo_keeper.specs.Keeping.{IsReady, RisesAbove};
ghost use Rattle.hippo_keeper.specs.MemoryKeeping.{memory_keeper_state};

use hippo_entry_hex::{first_word, stored, written};
use hippo_keeper::{KeeperFails, MemoryKeeper};
use hippo_model::{StoredEntry, StoredList};
use hippo_values::{Duplicate, Memory};
use std::alloc::Global;

/// Returns all entries, each on a line in the form that orders use.
pub fn all_written(alloc: Global, entries: &[StoredEntry]) -> Result<String, Memory> {
    let mut text = String::new(alloc);
    for entry in entries {
        text.push_str(written(alloc, entry)?.as_str())?;
    }
    Ok(text)
}

fn push_copies(
    alloc: Global,
    list: &mut StoredList,
    entries: &[StoredEntry],
) -> Result<(), Memory> {
    for entry in entries {
        list.push(entry.copy(alloc)?)?;
    }
    Ok(())
}

// The entries before a place, counted from 1, and the entries from that place on.
fn at_place<'a>(entries: &'a [StoredEntry], place: &str) -> (&'a [StoredEntry], &'a [StoredEntry]) {
    let before = place.parse::<usize>().unwrap_or(0).saturating_sub(1);
    entries.split_at(before.min(entries.len()))
}

/// Returns the entries without the one at the place that an order names.
pub fn without(alloc: Global, entries: &[StoredEntry], place: &str) -> Result<StoredList, Memory> {
    let (front, back) = at_place(entries, place);
    let mut list = StoredList::new(alloc);
    push_copies(alloc, &mut list, front)?;
    if let Some((_, rest)) = back.split_first() {
        push_copies(alloc, &mut list, rest)?;
    }
    Ok(list)
}

/// Returns the entries with one more, which an order writes after its place.
pub fn with(alloc: Global, entries: &[StoredEntry], row: &str) -> Result<StoredList, Memory> {
    let (place, text) = first_word(row);
    let (front, back) = at_place(entries, place);
    let entry = stored(alloc, text)?;
    let mut list = StoredList::new(alloc);
    push_copies(alloc, &mut list, front)?;
    list.push(entry)?;
    push_copies(alloc, &mut list, back)?;
    Ok(list)
}

fn is_rising(entries: &[StoredEntry]) -> bool
    ensures { IsTrue result → RisesAbove 0 entries.now }
{
    let mut last = 0;
    for entry in entries {
        if entry.seq <= last {
            return false;
        }
        last = entry.seq;
    }
    true
}

/// Returns a keeper with these entries, if their numbers are above 0 and rise.
pub fn keeper_of(
    alloc: Global,
    list: &StoredList,
    failing: KeeperFails,
) -> Result<Option<MemoryKeeper>, Memory>
    ensures { IfOk result (λ made. IfSome made (λ keeper. IsReady false
        (memory_keeper_state keeper))) }
{
    if !is_rising(list.as_slice()) {
        return Ok(None);
    }
    let keeper = MemoryKeeper::of(alloc, list, failing)?;
    Ok(Some(keeper))
}
