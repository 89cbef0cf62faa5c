//! Which stored entries a read returns.
ghost use Rattle.std.specs.Prelude.{◌≡◌, ◌+◌, ◌==◌, ◌||◌};
ghost use Rattle.hippo_keeper.specs.Selecting.{stored_versions, versions_read};

use crate::faults::KeeperFault;
use crate::steps::Steps;
use hippo_model::{StoredEntry, StoredList};
use hippo_values::{Moment, Name};
use std::sync::ledger::Ledger;

// The kinds of entries that insert, update or delete a row, and the kind of a question.
const INSERT: u8 = 2;

const UPDATE: u8 = 3;

const DELETE: u8 = 4;

pub(crate) const ASKED: u8 = 13;

/// Which entries a read asks for.
#[derive(Clone, Copy)]
pub enum Selection<'a> {
    All,
    /// The versions of a table's rows.
    VersionsOf(&'a Name),
    /// The questions of a period, both ends included.
    AskedIn(Moment, Moment),
}

/// What a read is to return: of the selected entries, the first `max` with a number above `after`.
#[derive(Clone, Copy)]
pub struct ReadQuery<'a> {
    pub selection: Selection<'a>,
    pub after: u64,
    pub max: u64,
}

/// The result of a read: a list of entries, or why there is none.
pub type ReadResult = Result<StoredList, KeeperFault>;

// Whether an entry of this kind inserts, updates or deletes a row.
pub(crate) fn is_version(kind: u8) -> bool
    ensures { result ≡ (kind == 2 || kind == 3 || kind == 4) }
{
    matches!(kind, INSERT | UPDATE | DELETE)
}

/// Counts one step for each version among the entries.
fn count_versions<L: Ledger>(entries: &[StoredEntry], steps: &mut Steps<L>)
    ensures { steps.new ≡ steps.old + stored_versions entries.now }
{
    for entry in entries {
        if is_version(entry.kind) {
            steps.tick();
        }
    }
}

/// Returns the answer of a read unchanged, and counts one step for each version in it.
pub fn counted<L: Ledger>(answer: ReadResult, steps: &mut Steps<L>) -> ReadResult
    ensures same { result ≡ answer }
    ensures steps { steps.new ≡ steps.old + versions_read result }
{
    match answer {
        Ok(list) => {
            count_versions(list.as_slice(), steps);
            Ok(list)
        }
        Err(fault) => Err(fault),
    }
}
