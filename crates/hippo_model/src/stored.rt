//! Entries as they are stored.
use hippo_values::{Bytes, Duplicate, Memory, Sequence, Txt};
use std::alloc::Global;

/// An entry of the history as it is stored: its body in bytes, and the fields by which a keeper
/// looks entries up.
#[derive(Drop)]
pub struct StoredEntry {
    pub seq: u64,
    /// Seconds since 1970-01-01T00:00:00Z.
    pub moment: i64,
    /// The kind of the entry's act, from 1 to 13.
    pub kind: u8,
    /// The table whose row the entry changes; empty if it changes none.
    pub table: Txt,
    pub body: Bytes,
}

pub type StoredList = Sequence<StoredEntry>;

impl Duplicate for StoredEntry {
    fn copy(&self, alloc: Global) -> Result<StoredEntry, Memory> {
        let table = self.table.copy(alloc)?;
        let body = Bytes::from_slice(alloc, self.body.as_slice())?;
        Ok(StoredEntry {
            seq: self.seq,
            moment: self.moment,
            kind: self.kind,
            table,
            body,
        })
    }
}
