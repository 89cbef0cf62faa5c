//! The program. `hippo_history` shows on standard output what a SQLite store holds, as its words
//! ask: the entries, one by one, the rules or the authorizations in force, or a digest of the
//! entries.
#![tactic(auto)]

ghost use Rattle.std.specs.Prelude.{◌≡◌, ◌<◌, true, []};

use hippo_history_top::{History, Stores};
use hippo_program_start::start;
use hippo_sqlite_files::FileKeeper;
use sqlite_disk::{Start, Unknown};
use std::marker::Brand;
use std::path::Path;
use std::process::{ExitCode, Termination};
use std::rt::HostRuntime;
use std::sync::ledger::{Blank, Ledger};

// The stores in files. The empty name is that of a store in memory. The machine's answer for any
// other name cannot be foreseen. If the machine gives no answer, opening the store reports why.
#[derive(Drop)]
struct FileStores {
    runtime: HostRuntime,
}

impl Stores for FileStores {
    ghost Answers = { λ stores name there. name ≡ [] → there ≡ true };

    fn has(&self, name: &str) -> bool {
        name.is_empty() || Path::new(name).try_exists(&self.runtime).unwrap_or(true)
    }
}

// Runs the program over the files that `B` describes. Its steps are counted in a ledger that
// nothing else uses.
fn begin<B: Start, L: Ledger>(rt: HostRuntime, files: B, blank: Blank) -> ExitCode
    requires name { blank.name ≡ L.name }
    requires parts { blank.parts ≡ L.parts }
    requires some { 0 < blank.parts }
{
    let history = History {
        stores: FileStores { runtime: rt },
    };
    let keeper = FileKeeper::new(rt, files);
    let ended = start::<History<FileStores>, FileKeeper<B>, L>(rt, &history, keeper, blank);
    ended.report(&rt)
}

// `Unknown` leaves open what the files hold. It supposes that when a power cut interrupts a write,
// the disk leaves each byte of the written range either old or new, and all other bytes unchanged.
// Most commits therefore sync once.
fn main(rt: HostRuntime) -> ExitCode {
    begin::<Unknown, Brand>(rt, Unknown, Blank::new(1))
}
