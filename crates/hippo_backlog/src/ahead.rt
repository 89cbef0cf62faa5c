//! Stored entries that were read ahead from a keeper, a batch at a time.
ghost use Rattle.std.specs.Prelude.{◌≡◌, ◌≤◌, length, option_copied, slice_get};
ghost use Rattle.hippo_keeper.specs.Keeping.{RisesAbove, last_number};
ghost use Rattle.hippo_keeper.specs.Selecting.{is_stored_version, stored_versions};
ghost use Rattle.hippo_backlog.specs.ReadingAhead.{nothing_read, without_first, reached_by, with_piece};

use hippo_model::{StoredEntry, StoredList};
use std::alloc::Global;
use std::marker::Model;

// The kinds of the entries that insert, update or delete a row.
const INSERT: u8 = 2;

const UPDATE: u8 = 3;

const DELETE: u8 = 4;

// The number of the last entry, or `number` if there is none.
fn last_number(number: u64, entries: &[StoredEntry]) -> u64
    ensures { result ≡ last_number number entries.now }
{
    match entries.last() {
        None => number,
        Some(entry) => entry.seq,
    }
}

fn is_version(entry: &StoredEntry) -> bool
    ensures { result ≡ is_stored_version entry.now }
{
    matches!(entry.kind, INSERT | UPDATE | DELETE)
}

// How many of the entries are versions.
fn versions_among(entries: &[StoredEntry]) -> u64
    ensures count { result ≡ stored_versions entries.now }
    ensures bound { result ≤ length entries.now }
{
    let mut count = 0;
    for entry in entries {
        if is_version(entry) {
            count += 1;
        }
    }
    count
}

// The number up to which everything is read after a batch.
fn reached_by(max: u64, end: u64, piece: &[StoredEntry], reached: u64) -> u64
    ensures { result ≡ reached_by max end piece.now reached }
{
    let last = last_number(reached, piece);
    if (piece.len() as u64) < max && last < end {
        end
    } else {
        last
    }
}

/// Stored entries of one kind that a keeper handed over in batches, read before they are used.
///
/// Each entry is used once, in the order of the numbers. The structure knows up to which number all
/// such entries were read, so nothing is requested twice.
#[derive(Drop)]
pub struct Ahead {
    piece: StoredList,
    // How many entries of the batch are used.
    next: usize,
    reached: u64,
    handed: u64,
}

impl Model for Ahead {
    ghost use Rattle.std.specs.Prelude.{◌≤◌, length, drop};
    ghost use Rattle.hippo_backlog.specs.ReadingAhead.{ReadAhead};

    ghost Value = { ReadAhead };

    ghost view = { λ ahead. record {
      waiting = drop ahead.next ahead.piece;
      reached = ahead.reached;
      handed = ahead.handed;
    } };

    ghost invariant = { λ ahead. (ahead.next ≤ length ahead.piece)
        × (ahead.handed ≤ ahead.reached) };
}

impl Ahead {
    /// Nothing is read yet. Allocates nothing.
    pub fn new(alloc: Global) -> Ahead
        ensures { result ≡ nothing_read }
    {
        Ahead {
            piece: StoredList::new(alloc),
            next: 0,
            reached: 0,
            handed: 0,
        }
    }

    /// The number up to which all requested entries are read. It is 0 at first.
    pub fn reached(&self) -> u64
        ensures { result ≡ self.now.reached }
    {
        self.reached
    }

    /// How many versions of rows the keeper handed over.
    pub fn handed(&self) -> u64
        ensures { result ≡ self.now.handed }
    {
        self.handed
    }

    /// The first entry that is not used yet, if there is one.
    pub fn first(&self) -> Option<&StoredEntry>
        ensures { option_copied result ≡ slice_get self.now.waiting 0 }
    {
        self.piece.as_slice().get(self.next)
    }

    /// Marks the first entry as used, if there is one.
    pub fn pass(&mut self)
        ensures { self.new ≡ without_first self.old }
    {
        if self.next < self.piece.len() {
            self.next += 1;
        }
    }

    /// Replaces the batch by the next one, which has at most `max` entries, all above the number
    /// that is reached. `end` is the length of the history: a batch of fewer than `max` entries
    /// reaches up to there.
    pub fn put(&mut self, piece: StoredList, max: u64, end: u64)
        requires order { RisesAbove self.old.reached piece }
        ensures { self.new ≡ with_piece max end piece self.old }
    {
        let reached = reached_by(max, end, piece.as_slice(), self.reached);
        self.handed += versions_among(piece.as_slice());
        self.reached = reached;
        self.piece = piece;
        self.next = 0;
    }
}
