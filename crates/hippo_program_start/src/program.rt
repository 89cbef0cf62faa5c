ghost use Rattle.std.specs.Prelude.{ℕ, List, false};
ghost use Rattle.hippo_keeper.specs.Keeping.{IsReady};
ghost use Rattle.hippo_values.specs.Texts.{Txt};
ghost use Rattle.hippo_program_start.specs.Hosts.{HostState, host_state, input_state};
ghost use Rattle.hippo_program_start.specs.Statuses.{fault_counts};

use crate::host::Host;
use hippo_io::{Sink, Source};
use hippo_keeper::CountedKeeper;
use hippo_values::Txt;
use std::sync::ledger::Ledger;

/// A program: what it does with its words on its host.
pub trait Program {
    // Whether the program may return this status with these words, given its host before and after.
    ghost Answers: { Self → List Txt → ℕ → HostState → HostState → Type 0 };

    /// Does what the words ask for, and returns the exit status. The keeper must be neither started
    /// nor spent nor closed.
    fn call<S: Source, K: Sink, P: CountedKeeper<L>, L: Ledger>(
        &self,
        words: &[Txt],
        host: &mut Host<S, K, P, L>,
    ) -> u8
        requires ready { IsReady false (P.state host.old.keeper) }
        ensures answers { Answers self.now words.now result
            (host_state (input_state (S.left host.old.source) (S.reads host.old.source))
            (K.written host.old.sink)
            (fault_counts (S.faults host.old.source) (K.faults host.old.sink))
            (P.state host.old.keeper) host.old.steps)
            (host_state (input_state (S.left host.new.source) (S.reads host.new.source))
            (K.written host.new.sink)
            (fault_counts (S.faults host.new.source) (K.faults host.new.sink))
            (P.state host.new.keeper) host.new.steps) };
}
