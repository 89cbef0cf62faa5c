//! The program. `hippo run` reads lines from standard input and writes the replies to standard
//! output. The history is in a SQLite file, or in memory.
#![tactic(auto)]

ghost use Rattle.std.specs.Prelude.{◌≡◌, ◌<◌};

use hippo_program_start::start;
use hippo_serve::Hippo;
use hippo_sqlite_files::FileKeeper;
use sqlite_disk::{Start, Unknown};
use std::marker::Brand;
use std::process::{ExitCode, Termination};
use std::rt::HostRuntime;
use std::sync::ledger::{Blank, Ledger};

// Runs the program over the files that `B` describes. Its steps are counted in a ledger that
// nothing else uses.
fn begin<B: Start, L: Ledger>(rt: HostRuntime, files: B, blank: Blank) -> ExitCode
    requires name { blank.name ≡ L.name }
    requires parts { blank.parts ≡ L.parts }
    requires some { 0 < blank.parts }
{
    let keeper = FileKeeper::new(rt, files);
    let ended = start::<Hippo, FileKeeper<B>, L>(rt, &Hippo, keeper, blank);
    ended.report(&rt)
}

// `Unknown` leaves open what the files hold. It supposes that when a power cut interrupts a write,
// the disk leaves each byte of the written range either old or new, and all other bytes unchanged.
// Most commits therefore sync once.
fn main(rt: HostRuntime) -> ExitCode {
    begin::<Unknown, Brand>(rt, Unknown, Blank::new(1))
}
