//! The openers, which connect a keeper to its store.
ghost use Rattle.std.specs.Prelude.{◌≡◌, ℕ, List, Bool, true, false, not, is_some, IfOk, IfSome};
ghost use Rattle.sqlite_trees.specs.Tree.{Trees};
ghost use Rattle.sqlite_wal.specs.Files.{image_at};
ghost use Rattle.sqlite.specs.State.{HasCleanDisk, Opens, IsLive};
ghost use Rattle.sqlite.specs.Held.{state};
ghost use Rattle.sqlite.specs.Files.{image_of};
ghost use Rattle.hippo_sqlite.specs.Openings.{IsFoundIn};

use crate::faults::fault_of;
use hippo_keeper::KeeperFault;
use sqlite::{Alter, Connection, FileFrom, FileStore, Files, Options, Start};
use sqlite_disk::Disk;
use std::alloc::Global;
use std::rt::HostRuntime;

/// Connects a keeper to a store, once.
pub trait Opener {
    type Base: Alter + Drop;

    // Whether `connect` was called.
    ghost used: { Self → Bool };

    // The trees that it may find in the store with this name.
    ghost finds: { Self → List ℕ → Trees → Type 0 };

    /// Returns a connection to the store with this name. Every error of `sqlite`, except running
    /// out of memory, is answered as `Failed`.
    fn connect(&mut self, alloc: Global, name: &str) -> Result<Connection<Self::Base>, KeeperFault>
        requires { used self.old ≡ false }
        ensures used { used self.new ≡ true }
        ensures opens { IfOk result (λ c. HasCleanDisk (state Self.Base.Store c)
            → Opens (state Self.Base.Store c) × IsLive (state Self.Base.Store c)) }
        ensures found { IfOk result (λ c. HasCleanDisk (state Self.Base.Store c)
            → finds self.old name.now (state Self.Base.Store c).committed.trees) };
}

/// Opens the file with this name, or creates it, as `B` describes it: what the file and its log hold
/// first, and what a power cut leaves of a write that it interrupts. It opens one file in all.
#[derive(Drop)]
pub struct FileOpener<B: Start> {
    runtime: HostRuntime,
    // Handed over when the file is opened.
    start: Option<B>,
}

impl<B: Start> FileOpener<B> {
    /// An opener of a file that `B` describes.
    pub fn new(runtime: HostRuntime, start: B) -> FileOpener<B>
        ensures { is_some result.start ≡ true }
    {
        FileOpener {
            runtime,
            start: Some(start),
        }
    }
}

impl<B: Start> Opener for FileOpener<B> {
    type Base = FileStore<FileFrom<B>>;

    ghost used = { λ opener. not (is_some opener.start) };

    ghost finds = { λ opener name trees. IsFoundIn (image_at B.Start) trees };

    fn connect(
        &mut self,
        _alloc: Global,
        name: &str,
    ) -> Result<Connection<FileStore<FileFrom<B>>>, KeeperFault> {
        let Some(start) = self.start.take() else {
            return Err(KeeperFault::Failed);
        };
        match Connection::open_from(&self.runtime, name, false, start) {
            Ok(connection) => Ok(connection),
            Err((error, _)) => Err(fault_of(error)),
        }
    }
}

/// Opens the database that two disks hold, one for the log and one for the file. It ignores the
/// name.
#[derive(Drop)]
pub struct DisksOpener<F> {
    files: Option<F>,
}

impl<D: Disk + Drop> DisksOpener<Files<D>> {
    /// An opener of disks on which no sync has failed.
    pub fn new(files: Files<D>) -> DisksOpener<Files<D>>
        ensures { is_some result.files ≡ true }
    {
        DisksOpener { files: Some(files) }
    }
}

// The seed of the log's salts.
const SEED: u64 = 1;

impl<D: Disk + Drop> Opener for DisksOpener<Files<D>> {
    type Base = FileStore<D>;

    ghost used = { λ opener. not (is_some opener.files) };

    ghost finds = { λ opener name trees. IfSome opener.files
        (λ files. IsFoundIn (image_of D.Disk files) trees) };

    fn connect(
        &mut self,
        alloc: Global,
        _name: &str,
    ) -> Result<Connection<FileStore<D>>, KeeperFault> {
        let Some(files) = self.files.take() else {
            return Err(KeeperFault::Failed);
        };
        if !files.may_be_used() {
            return Err(KeeperFault::Failed);
        }
        match Connection::open_files(alloc, files, Options::new(SEED)) {
            Ok(connection) => Ok(connection),
            Err((error, _)) => Err(fault_of(error)),
        }
    }
}
