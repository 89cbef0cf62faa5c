//! The trait of every keeper, the object that stores the history: its calls, and what they promise.
ghost use Rattle.std.specs.Prelude.{◌≡◌, ◌+◌, ◌^◌, ◌<◌, ◌≤◌, true, false};
ghost use Rattle.hippo_keeper.specs.Keeping.{KeeperState, IsReady, next_number, Starts, AppendsEntry};
ghost use Rattle.hippo_keeper.specs.Selecting.{is_any, is_stored_version_of, was_asked_in, is_selected, versions_read, ReadsEntries};

use crate::faults::KeeperFault;
use crate::selection::{ReadQuery, ReadResult, Selection};
use crate::steps::Steps;
use hippo_model::StoredEntry;
use hippo_values::{Moment, Name};
use std::alloc::Global;
use std::sync::ledger::Ledger;

/// Stores the entries of a history.
///
/// A keeper is started once. After that, entries are appended to it and read from it. A call
/// answers `Failed` only when it also raises the count of faults; the keeper is then spent. Any
/// other answer leaves the count unchanged. A start that answers `Memory` closes the keeper. No
/// call may be made on a keeper that is spent or closed. A call's promises about the entries hold
/// only if the store's contents are still known when the call returns. They are known while the
/// disk is clean, if the store held nothing or a history at its start, and always in memory.
pub trait Keeper {
    // The keeper as contracts see it.
    ghost state: { Self → KeeperState };

    /// Opens the store with this name, and keeps the list of entries that it finds there. The empty
    /// name opens a store in memory.
    fn start(&mut self, alloc: Global, name: &str) -> Result<(), KeeperFault>
        requires ready { IsReady false (state self.old) }
        ensures starts { Starts name.now result (state self.old) (state self.new) };

    /// Stores one more entry. Its number must be the one after the last. When the call answers
    /// `Failed`, the entry may or may not be stored; when it answers `Memory`, the entry is not
    /// stored.
    fn append(&mut self, alloc: Global, entry: StoredEntry) -> Result<(), KeeperFault>
        requires ready { IsReady true (state self.old) }
        requires number { entry.seq < 2 ^ 63 }
        requires next { (state self.old).tells → entry.seq ≡ next_number (state self.old).kept }
        ensures appends { AppendsEntry entry result (state self.old) (state self.new) };

    /// Returns the first `max` questions with a number above `after` that were asked between the
    /// moments `from` and `to`, both included. `max` is from 1 to 1,000.
    fn read_asked(
        &mut self,
        alloc: Global,
        from: Moment,
        to: Moment,
        after: u64,
        max: u64,
    ) -> ReadResult
        requires ready { IsReady true (state self.old) }
        requires some { 0 < max }
        requires limit { max ≤ 1000 }
        ensures reads { ReadsEntries (was_asked_in from to) after max result (state self.old)
            (state self.new) };
}

/// A keeper whose reads of versions are counted in the ledger `L`, and in no other.
///
/// Code that is generic in the keeper and in the ledger can count its reads only in the steps that
/// its caller hands in. So it cannot read again and count elsewhere.
pub trait CountedKeeper<L: Ledger>: Keeper {
    /// Returns the first `max` entries that the read query asks for; `max` is from 1 to 1,000. Each
    /// version among them counts as one step.
    fn read(
        &mut self,
        alloc: Global,
        read_query: &ReadQuery<'_>,
        steps: &mut Steps<L>,
    ) -> ReadResult
        requires ready { IsReady true (Self.state self.old) }
        requires some { 0 < read_query.now.max }
        requires limit { read_query.now.max ≤ 1000 }
        ensures reads { ReadsEntries (is_selected read_query.now.selection) read_query.now.after
            read_query.now.max result (Self.state self.old) (Self.state self.new) }
        ensures steps { steps.new ≡ steps.old + versions_read result };

    /// Returns the first `max` entries with a number above `after`; `max` is from 1 to 1,000. Each
    /// version among them counts as one step.
    fn read_all(&mut self, alloc: Global, after: u64, max: u64, steps: &mut Steps<L>) -> ReadResult
        requires ready { IsReady true (Self.state self.old) }
        requires some { 0 < max }
        requires limit { max ≤ 1000 }
        ensures reads { ReadsEntries is_any after max result (Self.state self.old) (Self.state self.new) }
        ensures steps { steps.new ≡ steps.old + versions_read result }
    {
        let read_query = ReadQuery {
            selection: Selection::All,
            after,
            max,
        };
        self.read(alloc, &read_query, steps)
    }

    /// Returns the first `max` versions of a table's rows with a number above `after`; `max` is
    /// from 1 to 1,000. Each version counts as one step.
    fn read_backlog(
        &mut self,
        alloc: Global,
        table: &Name,
        after: u64,
        max: u64,
        steps: &mut Steps<L>,
    ) -> ReadResult
        requires ready { IsReady true (Self.state self.old) }
        requires some { 0 < max }
        requires limit { max ≤ 1000 }
        ensures reads { ReadsEntries (is_stored_version_of table.now) after max result
            (Self.state self.old)
            (Self.state self.new) }
        ensures steps { steps.new ≡ steps.old + versions_read result }
    {
        let read_query = ReadQuery {
            selection: Selection::VersionsOf(table),
            after,
            max,
        };
        self.read(alloc, &read_query, steps)
    }
}
