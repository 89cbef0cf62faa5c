//! The start of a program: its words, its host, and what its end says.
ghost use Rattle.std.specs.Prelude.{◌≡◌, ◌⊎◌, ◌<◌, ℕ, List, [], Some, Option, false};
ghost use Rattle.hippo_io.specs.Inputs.{unread};
ghost use Rattle.hippo_keeper.specs.Keeping.{IsReady};
ghost use Rattle.hippo_values.specs.Texts.{Txt};
ghost use Rattle.hippo_program_start.specs.Hosts.{host_state, input_state, ended_status, ended_reads, ended_written, ended_faults, ended_keeper};
ghost use Rattle.hippo_program_start.specs.Statuses.{fault_counts};

use crate::ended::Ended;
use crate::host::Host;
use crate::program::Program;
use hippo_io::{StdSink, StdSource};
use hippo_keeper::{CountedKeeper, Steps};
use hippo_values::{Memory, Sequence, Txt};
use std::rt::HostRuntime;
use std::sync::ledger::{Blank, Ledger};
use std::{env, io};

type Words = Sequence<Txt>;

/// The exit status when memory runs out for the words.
pub const NO_MEMORY: u8 = 7;

// The words after the program's name. Empty if one of them is not a text.
fn words(rt: &HostRuntime) -> Result<Words, Memory> {
    let mut words = Words::new(rt.alloc());
    match env::args(rt) {
        Ok(args) => {
            for word in args.skip(1) {
                words.push(Txt::from_string(word))?;
            }
            Ok(words)
        }
        Err(error) if error.kind() == io::ErrorKind::OutOfMemory => Err(Memory),
        Err(_) => Ok(words),
    }
}

/// Runs a program on the words after its name, over standard input and standard output, with this
/// keeper and with a ledger that nothing else uses. The keeper must be neither started nor spent
/// nor closed.
///
/// It ends with the status that the program returns. If memory runs out for the words, it ends with
/// [`NO_MEMORY`], and nothing is read, written or stored. The contract says of the streams and of
/// the keeper in the result what the program's contract says of its host.
pub fn start<P: Program, Q: CountedKeeper<L>, L: Ledger>(
    rt: HostRuntime,
    program: &P,
    keeper: Q,
    blank: Blank,
) -> Ended<Q>
    requires ready { IsReady false (Q.state keeper) }
    requires name { blank.name ≡ L.name }
    requires parts { blank.parts ≡ L.parts }
    requires some { 0 < blank.parts }
    ensures ends { ((ended_status result ≡ 7) × (ended_reads result ≡ unread)
        × (ended_written result ≡ []) × (ended_keeper result ≡ keeper))
        ⊎ ((words : List Txt) × (left : Option Txt) × (left' : Option Txt) × (steps : ℕ)
        × P.Answers program.now words (ended_status result)
        (host_state (input_state left unread) (Some []) (fault_counts 0 0) (Q.state keeper) 0)
        (host_state (input_state left' (ended_reads result)) (Some (ended_written result))
        (ended_faults result) (Q.state (ended_keeper result)) steps)) }
{
    let mut host = Host {
        alloc: rt.alloc(),
        source: StdSource::new(rt.stdin()),
        sink: StdSink::new(rt.stdout()),
        keeper,
        steps: Steps::<L>::new(blank),
    };
    let Ok(words) = words(&rt) else {
        return Ended::of(NO_MEMORY, host);
    };
    let status = program.call(words.as_slice(), &mut host);
    Ended::of(status, host)
}
