//! The part of an entry that a page holds outside the body.
ghost use Rattle.std.specs.Prelude.{◌≡◌, ◌<◌, [], ◌∷◌, length, IfOk, OnOk};
ghost use Rattle.hippo_keeper.specs.Selecting.{is_selected};
ghost use Rattle.hippo_keeper.specs.Paging.{entry_with, with_picked};

use crate::selection::{ASKED, ReadQuery, Selection, is_version};
use hippo_model::{StoredEntry, StoredList};
use hippo_values::{Bytes, Memory, Txt};
use std::alloc::Global;

/// The part of an entry that a page holds outside the body: the fields by which the keeper finds
/// the entry, and the place in the page where its body ends.
#[derive(Clone, Copy)]
pub(crate) struct Head {
    pub(crate) seq: u64,
    pub(crate) moment: i64,
    pub(crate) end: u32,
    /// The index of the entry's table name in the page's list of names.
    pub(crate) table: u16,
    pub(crate) kind: u8,
}

// Whether a read asks for the entry.
fn is_among(selection: &Selection<'_>, head: &Head, table: &str) -> bool
    ensures { result ≡ is_selected selection.now (entry_with head.now table.now []) }
{
    match selection {
        Selection::All => true,
        Selection::VersionsOf(name) => is_version(head.kind) && table == name.as_str(),
        Selection::AskedIn(from, to) => {
            head.kind == ASKED && from.seconds() <= head.moment && head.moment <= to.seconds()
        }
    }
}

impl Head {
    /// The head of an entry. `end` is where its body ends, and `table` is the index of its table
    /// name.
    pub(crate) fn of(entry: &StoredEntry, end: u32, table: u16) -> Head
        ensures entry { entry_with result entry.now.table entry.now.body ≡ entry.now }
        ensures end { result.end ≡ end }
        ensures table { result.table ≡ table }
    {
        Head {
            seq: entry.seq,
            moment: entry.moment,
            end,
            table,
            kind: entry.kind,
        }
    }

    /// A copy of the entry, with this table name and this body.
    fn entry(&self, alloc: Global, table: &str, body: &[u8]) -> Result<StoredEntry, Memory>
        ensures { IfOk result (λ entry. entry ≡ entry_with self.now table.now body.now) }
    {
        Ok(StoredEntry {
            seq: self.seq,
            moment: self.moment,
            kind: self.kind,
            table: Txt::from_str(alloc, table)?,
            body: Bytes::from_slice(alloc, body)?,
        })
    }

    /// Adds a copy of the entry to the list if the read asks for the entry.
    pub(crate) fn pick(
        &self,
        alloc: Global,
        table: &str,
        body: &[u8],
        read_query: &ReadQuery<'_>,
        list: &mut StoredList,
    ) -> Result<(), Memory>
        requires { length list.old < read_query.now.max }
        ensures { OnOk result (list.new ≡ with_picked read_query.now list.old
            (entry_with self.now table.now body.now ∷ [])) }
    {
        if read_query.after < self.seq && is_among(&read_query.selection, self, table) {
            list.push(self.entry(alloc, table, body)?)?;
        }
        Ok(())
    }
}
