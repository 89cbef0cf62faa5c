//! Shows which entry a stored form belongs to.

use crate::or_out_of_memory;
use hippo_entry::decode;
use hippo_entry_hex::stored;
use hippo_model::{Entry, StoredEntry};
use hippo_values::{Duplicate, Memory};
use std::alloc::{AllocError, Global};

fn shown_as(alloc: Global, entry: &Entry) -> Result<String, Memory> {
    let Entry { seq, moment, act } = entry;
    Ok(format!(in alloc; "{seq} {} {act:?}", moment.seconds())?)
}

// A copy of the entry, in the form in which it is shown.
fn copy_shown(alloc: Global, entry: &Entry) -> Result<String, Memory> {
    let copy = entry.copy(alloc)?;
    let shown = shown_as(alloc, &copy);
    drop(copy);
    shown
}

fn found(alloc: Global, kept: &StoredEntry) -> Result<String, Memory> {
    match decode(alloc, kept)? {
        None => Ok(String::from_str(alloc, "none")?),
        Some(entry) => {
            let shown = copy_shown(alloc, &entry);
            drop(entry);
            shown
        }
    }
}

fn shown(alloc: Global, text: &str) -> Result<String, Memory> {
    let kept = stored(alloc, text)?;
    found(alloc, &kept)
}

/// Shows the entry whose stored form a text writes: its number, its moment and its act, or that
/// there is none.
pub fn shown_entry(alloc: Global, text: &str) -> Result<String, AllocError> {
    or_out_of_memory(shown(alloc, text))
}
