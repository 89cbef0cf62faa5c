//! A keeper over files.
ghost use Rattle.std.specs.Prelude.{ℕ, ◌↔◌, List, false, IfSome};
ghost use Rattle.sqlite_wal.specs.Files.{image_at};
ghost use Rattle.hippo_keeper.specs.Keeping.{Store, IsReady};
ghost use Rattle.hippo_sqlite.specs.Leaving.{LeavesSurvivors};
ghost use Rattle.hippo_sqlite.specs.Openings.{IsFoundIn};
ghost use Rattle.hippo_sqlite.specs.Standings.{finds_by, finds_own_by};

use hippo_keeper::{CountedKeeper, Keeper, KeeperFault, ReadQuery, ReadResult, Steps};
use hippo_model::StoredEntry;
use hippo_sqlite::{FileOpener, Opener, SqliteKeeper};
use hippo_values::Moment;
use sqlite::{FileFrom, FileStore, Start};
use std::alloc::Global;
use std::rt::HostRuntime;
use std::sync::ledger::Ledger;

/// A keeper over the SQLite file whose name is given to `start`. The file is created if there is
/// none. If the name is empty, the store is in memory. `B` describes what the file and its log hold
/// before the start.
#[derive(Drop)]
pub struct FileKeeper<B: Start>
where
    FileOpener<B>: Opener,
{
    keeper: SqliteKeeper<FileOpener<B>>,
}

impl<B: Start> FileKeeper<B> {
    /// A keeper that has not been started. Its start finds what the file and its log recover to,
    /// from what `B` says that they hold.
    pub fn new(runtime: HostRuntime, start: B) -> FileKeeper<B>
        ensures ready { IsReady false (⟦<FileKeeper<B> as Keeper>⟧.state result) }
        ensures finds { (name : List ℕ) (entries : Store)
            → (⟦<FileKeeper<B> as Keeper>⟧.state result).finds name entries
            ↔ finds_by (λ file trees. IsFoundIn (image_at B.Start) trees) name entries }
        ensures own { (name : List ℕ)
            → finds_own_by (λ file trees. IsFoundIn (image_at B.Start) trees) name
            → (⟦<FileKeeper<B> as Keeper>⟧.state result).finds_own name }
    {
        FileKeeper {
            keeper: SqliteKeeper::new(FileOpener::new(runtime, start)),
        }
    }

    /// Ends the keeper, and gives back the files that it opened, if it opened any. Whatever a stop may
    /// leave in them, a later start with a name finds there only what survives a stop of this keeper.
    pub fn into_store(self) -> Option<FileStore<FileFrom<B>>>
        ensures { IfSome result
            (LeavesSurvivors (⟦<FileKeeper<B> as Keeper>⟧.state self).survives) }
    {
        let FileKeeper { keeper } = self;
        keeper.into_store()
    }

    /// Closes the files.
    pub fn close(self) {
        drop(self);
    }
}

impl<B: Start> Keeper for FileKeeper<B> {
    ghost state = { λ keeper. ⟦<SqliteKeeper<FileOpener<B>> as Keeper>⟧.state keeper.keeper };

    fn start(&mut self, alloc: Global, name: &str) -> Result<(), KeeperFault> {
        self.keeper.start(alloc, name)
    }

    fn append(&mut self, alloc: Global, entry: StoredEntry) -> Result<(), KeeperFault> {
        self.keeper.append(alloc, entry)
    }

    fn read_asked(
        &mut self,
        alloc: Global,
        from: Moment,
        to: Moment,
        after: u64,
        max: u64,
    ) -> ReadResult {
        self.keeper.read_asked(alloc, from, to, after, max)
    }
}

impl<B: Start, L: Ledger> CountedKeeper<L> for FileKeeper<B> {
    fn read(
        &mut self,
        alloc: Global,
        read_query: &ReadQuery<'_>,
        steps: &mut Steps<L>,
    ) -> ReadResult {
        self.keeper.read(alloc, read_query, steps)
    }
}
