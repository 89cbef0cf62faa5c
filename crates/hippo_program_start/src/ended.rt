ghost use Rattle.std.specs.Prelude.{◌≡◌};
ghost use Rattle.std.specs.Process.{exit_status};
ghost use Rattle.hippo_io.specs.Adapters.{stream_reads, stream_accepted, stream_faults};
ghost use Rattle.hippo_program_start.specs.Hosts.{ended_status, ended_reads, ended_written, ended_faults, ended_keeper};
ghost use Rattle.hippo_program_start.specs.Statuses.{fault_counts};

use crate::host::Host;
use hippo_io::{StdSink, StdSource};
use hippo_keeper::Keeper;
use std::io::{Stdin, Stdout};
use std::process::{ExitCode, Termination};
use std::sync::ledger::Ledger;

/// How a program ended: its exit status, its standard streams and its keeper. Only
/// [`start`](crate::start) makes one. A `main` that reports it ends with its status.
#[derive(Drop)]
pub struct Ended<P> {
    pub(crate) status: u8,
    pub(crate) source: StdSource<Stdin>,
    pub(crate) sink: StdSink<Stdout>,
    pub(crate) keeper: P,
}

impl<P: Keeper> Ended<P> {
    /// The end of a program, with this exit status, on this host.
    pub(crate) fn of<L: Ledger>(
        status: u8,
        host: Host<StdSource<Stdin>, StdSink<Stdout>, P, L>,
    ) -> Ended<P>
        ensures status { ended_status result ≡ status }
        ensures reads { ended_reads result ≡ stream_reads host.source }
        ensures written { ended_written result ≡ stream_accepted host.sink }
        ensures faults { ended_faults result
            ≡ fault_counts (stream_faults host.source) (stream_faults host.sink) }
        ensures keeper { ended_keeper result ≡ host.keeper }
    {
        Ended {
            status,
            source: host.source,
            sink: host.sink,
            keeper: host.keeper,
        }
    }
}

impl<P: Drop> Termination for Ended<P> {
    // The keeper is dropped here, which closes its files.
    fn report<R: Eprint>(self, _rt: &R) -> ExitCode
        ensures status { exit_status result ≡ ended_status self }
    {
        ExitCode::from(self.status)
    }
}
