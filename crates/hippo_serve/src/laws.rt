//! Laws about runs, written as the contracts of functions that do nothing.
ghost use Rattle.std.specs.Prelude.{ℕ, List, IfOk, IfSome};
ghost use Rattle.sqlite_store.specs.FileStore.{view};
ghost use Rattle.sqlite_trees.specs.View.{IsClean};
ghost use Rattle.sqlite_wal.specs.Files.{image_at};
ghost use Rattle.sqlite_wal.specs.Recovery.{Image};
ghost use Rattle.hippo_model.specs.Terms.{History};
ghost use Rattle.hippo_keeper.specs.MemoryKeeping.{memory_keeper_state};
ghost use Rattle.hippo_serve.specs.NextRun.{FilesHold, FilesHoldEither, HasStartedOver};
ghost use Rattle.hippo_sqlite.specs.Leaving.{MayBeLeft};
ghost use Rattle.hippo_serve_jobs.specs.Keeping.{KeepsHistory, KeepsEither, FindsWhatSurvives, FindsHistory, FindsEither};

use hippo_keeper::{Keeper, KeeperFault, MemoryKeeper};
use hippo_sqlite_files::FileKeeper;
use sqlite::{FileFrom, FileStore};
use sqlite_disk::Start;
use std::alloc::Global;
use std::rt::HostRuntime;

/// The next run begins with the history that the last run left, if a start finds only what survives
/// a stop. If the keeper failed, it begins with one of two histories.
pub fn next_run<P: Keeper, Q: Keeper>(_last: &P, _next: &Q, _store: &str)
    ensures goes_on { FindsWhatSurvives _store.now (P.state _last.now) (Q.state _next.now)
        → (history : History) →
        KeepsHistory history (P.state _last.now)
        → FindsHistory _store.now history (Q.state _next.now) }
    ensures either { FindsWhatSurvives _store.now (P.state _last.now) (Q.state _next.now)
        → (history longer : History) →
        KeepsEither history longer (P.state _last.now) →
        FindsEither _store.now history longer (Q.state _next.now) }
{}

/// A keeper in memory that is started again finds exactly that history, whatever the store's name.
pub fn next_run_in_memory(keeper: MemoryKeeper) -> MemoryKeeper
    ensures goes_on { (store : List ℕ) (history : History) →
        KeepsHistory history (memory_keeper_state keeper)
        → FindsHistory store history (memory_keeper_state result) }
    ensures either { (store : List ℕ) (history longer : History) →
        KeepsEither history longer (memory_keeper_state keeper)
        → FindsEither store history longer (memory_keeper_state result) }
{
    keeper.restart()
}

/// Ends a run over files, and gives them back. Whatever a stop may leave in them, the next run over
/// a named store finds the history that this run stored: after each ending that of `hippo_top`, or
/// one of two histories if the keeper failed. While the disk is clean, a stop may leave something.
pub fn leave<B: Start>(keeper: FileKeeper<B>) -> Option<FileStore<FileFrom<B>>>
    ensures goes_on { IfSome result (λ it. (image : Image) → MayBeLeft it image →
        (history : History) → KeepsHistory history (⟦<FileKeeper<B> as Keeper>⟧.state keeper)
        → FilesHold history image) }
    ensures either { IfSome result (λ it. (image : Image) → MayBeLeft it image →
        (history longer : History)
        → KeepsEither history longer (⟦<FileKeeper<B> as Keeper>⟧.state keeper)
        → FilesHoldEither history longer image) }
    ensures some { IfSome result (λ it. IsClean (view it)
        → ∥ ((image : Image) × MayBeLeft it image) ∥₁) }
{
    keeper.into_store()
}

/// Starts a keeper over files that `files` describes. With [`leave`]: if these are what a stop may
/// leave of the last run's files, the next run begins with the history that the last run stored, or
/// with one of two histories if its keeper failed.
pub fn start_next<B: Start>(
    runtime: HostRuntime,
    files: B,
    alloc: Global,
    store: &str,
) -> Result<FileKeeper<B>, KeeperFault>
    ensures started { IfOk result (λ next. HasStartedOver (image_at B.Start) store.now
        (⟦<FileKeeper<B> as Keeper>⟧.state next)) }
{
    let mut keeper = FileKeeper::new(runtime, files);
    match keeper.start(alloc, store) {
        Ok(()) => Ok(keeper),
        Err(fault) => {
            keeper.close();
            Err(fault)
        }
    }
}
