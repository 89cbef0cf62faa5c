//! A keeper in memory. Its contents are known to the proof, and it fails at the calls that its
//! caller names.
ghost use Rattle.std.specs.Prelude.{◌≡◌, ℕ, ◌+◌, ◌≤◌, true, false, List, [], Some, is_some, IfOk, OnOk, OnErr, ⊤};
ghost use Rattle.hippo_keeper.specs.Answering.{has_failed, is_out_of_memory};
ghost use Rattle.hippo_keeper.specs.Keeping.{Store, RisesAbove, next_number};
ghost use Rattle.hippo_keeper.specs.MemoryKeeping.{new_store, next_failure, memory_after_call, memory_after_start, kept_after, memory_after_append, with_entry, ReadsInMemory, FindsInMemory, SurvivesInMemory, memory_keeper_state};
ghost use Rattle.hippo_keeper.specs.Selecting.{was_asked_in, is_selected, versions_read, IsHandedOver};

use crate::calls::KeeperCalls;
use crate::faults::{KeeperFails, KeeperFault};
use crate::keeper::{CountedKeeper, Keeper};
use crate::pages::Pages;
use crate::selection::{ReadQuery, ReadResult, Selection, counted};
use crate::steps::Steps;
use hippo_model::{StoredEntry, StoredList};
use hippo_values::{Memory, Moment};
use std::alloc::Global;
use std::marker::Model;
use std::sync::ledger::Ledger;

/// A keeper that holds its entries in memory, and fails at the calls that its caller names.
#[derive(Drop)]
pub struct MemoryKeeper {
    kept: Pages,
    calls: KeeperCalls,
}

impl Model for MemoryKeeper {
    ghost use Rattle.hippo_keeper.specs.Keeping.{RisesAbove};
    ghost use Rattle.hippo_keeper.specs.MemoryKeeping.{MemoryStore};

    ghost Value = { MemoryStore };

    ghost view = { λ a. record { kept = a.kept; calls = a.calls } };

    ghost invariant = { λ a. RisesAbove 0 a.kept };
}

impl MemoryKeeper {
    /// A keeper with no entries. The calls named in `failing` fail; all calls of the trait `Keeper`
    /// are counted, from 1. A failing append that is to keep its entry answers `Memory` instead
    /// when there is no memory for the entry.
    pub fn new(alloc: Global, failing: KeeperFails) -> MemoryKeeper
        ensures { result ≡ new_store [] failing }
    {
        MemoryKeeper {
            kept: Pages::new(alloc),
            calls: KeeperCalls::new(failing),
        }
    }

    /// A keeper with copies of these entries, as in `new`. Their numbers must be above 0 and rise.
    /// Returns an error when out of memory.
    pub fn of(
        alloc: Global,
        kept: &StoredList,
        failing: KeeperFails,
    ) -> Result<MemoryKeeper, Memory>
        requires { RisesAbove 0 kept.now }
        ensures { IfOk result (λ keeper. keeper ≡ new_store kept.now failing) }
    {
        let kept = Pages::of(alloc, kept.as_slice())?;
        Ok(MemoryKeeper {
            kept,
            calls: KeeperCalls::new(failing),
        })
    }

    /// Returns copies of the stored entries, ordered by number.
    pub fn kept(&self, alloc: Global) -> Result<StoredList, Memory>
        ensures { IfOk result (λ list. list ≡ self.now.kept) }
    {
        let read_query = ReadQuery {
            selection: Selection::All,
            after: 0,
            max: u64::MAX,
        };
        let list = self.kept.select(alloc, &read_query)?;
        // No list has this many members, so the limit cut nothing off.
        let count = list.as_slice().len();
        prove!(count < usize::MAX);
        Ok(list)
    }

    /// A new keeper with the entries that survive a stop. None of its calls fails.
    pub fn restart(self) -> MemoryKeeper
        ensures new { result ≡ new_store self.kept [] }
        ensures survived { SurvivesInMemory self result.kept }
        ensures finds { (name : List ℕ) (store : Store)
            → FindsInMemory result name store → SurvivesInMemory self store }
    {
        let failing = self.calls.cleared();
        MemoryKeeper {
            kept: self.kept,
            calls: KeeperCalls::new(failing),
        }
    }

    // The stored entries that the read query asks for, unless the call is to fail.
    fn find(&mut self, alloc: Global, read_query: &ReadQuery<'_>) -> ReadResult
        ensures call { self.new ≡ memory_after_call self.old }
        ensures fails { has_failed result ≡ is_some (next_failure self.old.calls) }
        ensures read { IfOk result (IsHandedOver ⊤ (is_selected read_query.now.selection)
            read_query.now.after read_query.now.max self.old.kept) }
    {
        if self.calls.begin_call().is_some() {
            return Err(KeeperFault::Failed);
        }
        match self.kept.select(alloc, read_query) {
            Ok(list) => Ok(list),
            Err(_) => Err(KeeperFault::Memory),
        }
    }

    fn keep(&mut self, alloc: Global, entry: StoredEntry) -> Result<(), Memory>
        requires { entry.seq ≡ next_number self.old.kept }
        ensures ok { OnOk result (self.new ≡ with_entry entry self.old) }
        ensures err { OnErr result (self.new ≡ self.old) }
    {
        self.kept.push(alloc, &entry)?;
        Ok(())
    }

    // Stores one more entry, unless the call is to fail without storing it.
    fn add(&mut self, alloc: Global, entry: StoredEntry) -> Result<(), KeeperFault>
        requires { entry.seq ≡ next_number self.old.kept }
        ensures call { self.new ≡ record (memory_after_call self.old) {
          kept = kept_after result entry self.old;
        } }
        ensures fails { is_out_of_memory result ≡ false
            → has_failed result ≡ is_some (next_failure self.old.calls) }
        ensures keeps { next_failure self.old.calls ≡ Some false → has_failed result ≡ true }
    {
        let failure = self.calls.begin_call();
        if failure == Some(false) {
            return Err(KeeperFault::Failed);
        }
        if self.keep(alloc, entry).is_err() {
            return Err(KeeperFault::Memory);
        }
        if failure.is_some() {
            return Err(KeeperFault::Failed);
        }
        Ok(())
    }
}

impl Keeper for MemoryKeeper {
    ghost state = { memory_keeper_state };

    fn start(&mut self, _alloc: Global, _name: &str) -> Result<(), KeeperFault>
        ensures store { self.new ≡ memory_after_start result self.old }
        ensures fails { has_failed result ≡ is_some (next_failure self.old.calls) }
        ensures faults { self.old.calls.standing.faults ≤ self.new.calls.standing.faults }
        ensures order { OnOk result (RisesAbove 0 self.new.kept) }
        ensures memory { is_out_of_memory result ≡ false }
    {
        let answer = match self.calls.begin_call() {
            Some(_) => Err(KeeperFault::Failed),
            None => Ok(()),
        };
        self.calls.standing.settle_start(answer)
    }

    fn append(&mut self, alloc: Global, entry: StoredEntry) -> Result<(), KeeperFault>
        requires next { entry.seq ≡ next_number self.old.kept }
        ensures store { self.new ≡ memory_after_append result entry self.old }
        ensures fails { is_out_of_memory result ≡ false
            → has_failed result ≡ is_some (next_failure self.old.calls) }
        ensures faults { self.old.calls.standing.faults ≤ self.new.calls.standing.faults }
        ensures keeps { next_failure self.old.calls ≡ Some false → has_failed result ≡ true }
    {
        let answer = self.add(alloc, entry);
        self.calls.standing.settle(answer)
    }

    fn read_asked(
        &mut self,
        alloc: Global,
        from: Moment,
        to: Moment,
        after: u64,
        max: u64,
    ) -> ReadResult
        ensures reads { ReadsInMemory (was_asked_in from to) after max result self.old self.new }
    {
        let read_query = ReadQuery {
            selection: Selection::AskedIn(from, to),
            after,
            max,
        };
        let answer = self.find(alloc, &read_query);
        self.calls.standing.settle(answer)
    }
}

impl<L: Ledger> CountedKeeper<L> for MemoryKeeper {
    fn read(
        &mut self,
        alloc: Global,
        read_query: &ReadQuery<'_>,
        steps: &mut Steps<L>,
    ) -> ReadResult
        ensures reads { ReadsInMemory (is_selected read_query.now.selection) read_query.now.after
            read_query.now.max result self.old self.new }
        ensures steps { steps.new ≡ steps.old + versions_read result }
    {
        let answer = counted(self.find(alloc, read_query), steps);
        self.calls.standing.settle(answer)
    }
}
