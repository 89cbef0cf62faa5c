//! A run over a keeper, and a check of what it stores. Both load the stored history first.
ghost use Rattle.std.specs.Prelude.{◌≡◌, ◌≢◌, ℕ, List, Option, Some, false};
ghost use Rattle.hippo_io.specs.Faults.{HasRisen};
ghost use Rattle.hippo_io.specs.Inputs.{ForEachInput};
ghost use Rattle.hippo_keeper.specs.Keeping.{IsReady, IsAfterCall};
ghost use Rattle.hippo_keeper.specs.Telling.{TellsOnceStarted};
ghost use Rattle.hippo_program_args.specs.Starting.{IsIdle};
ghost use Rattle.hippo_program_args.specs.declared.endings.Ending.TheVariants.{Refused, ReadFault, WriteFault, Damaged, NoMemory, TooMuch};
ghost use Rattle.hippo_program_args.specs.Endings.{status_of, ending_as_call};
ghost use Rattle.hippo_serve_jobs.specs.Outcomes.{RunEnds, CheckEnds};
ghost use Rattle.hippo_serve_jobs.specs.Outside.{outside};
ghost use Rattle.hippo_serve_jobs.specs.Runs.{HasTakenBytes};

use crate::printing::say_entries;
use crate::serving::Serving;
use hippo_io::{Sink, Source};
use hippo_keeper::{CountedKeeper, Steps};
use hippo_program_args::{Ending, stop};
use hippo_replay::{State, load};
use hippo_serve_args::{Job, Setting};
use hippo_values::Memory;
use std::alloc::Global;
use std::sync::ledger::Ledger;

// Drops a state, and returns the number of its entries.
fn count_of(state: State) -> u64
    ensures { result ≡ state.count }
{
    let count = state.count;
    state.close();
    count
}

/// Loads the stored history, and serves all lines that a job asks for. The keeper must be neither
/// started nor spent nor closed. Running out of memory can only happen before anything is read or
/// written.
pub fn run<S: Source, K: Sink, P: CountedKeeper<L>, L: Ledger>(
    alloc: Global,
    store: &str,
    setting: Setting,
    job: &Job,
    source: &mut S,
    sink: &mut K,
    keeper: &mut P,
    steps: &mut Steps<L>,
) -> Ending
    requires ready { IsReady false (P.state keeper.old) }
    ensures status { result ≢ Refused }
    ensures call { IsAfterCall (P.state keeper.new).started (P.state keeper.new).closed
        (ending_as_call result)
        (P.state keeper.old) (P.state keeper.new) }
    ensures ends { (P.state keeper.new).tells → ForEachInput (S.left source.old)
        (S.reads source.old) (S.left source.new) (S.reads source.new) (λ left left'.
        RunEnds result (source.new ≡ source.old) (sink.new ≡ sink.old) setting job.now store.now
        (outside left (K.written sink.old) (P.state keeper.old) steps.old)
        (outside left' (K.written sink.new) (P.state keeper.new) steps.new)) }
    ensures damaged { result ≡ Damaged → (P.state keeper.new).tells → source.new ≡ source.old }
    ensures tells { TellsOnceStarted store.now (P.state keeper.old) (P.state keeper.new) }
    ensures unread { result ≡ NoMemory → source.new ≡ source.old }
    ensures unwritten { result ≡ NoMemory → sink.new ≡ sink.old }
    ensures read { ForEachInput (S.left source.old) (S.reads source.old) (S.left source.new)
        (S.reads source.new) (λ left left'. (input : List ℕ) → left ≡ Some input →
        HasTakenBytes (status_of result) input left') }
    ensures read_fault { result ≡ ReadFault → HasRisen (S.faults source.old) (S.faults source.new) }
    ensures write_fault { result ≡ WriteFault → HasRisen (K.faults sink.old) (K.faults sink.new) }
    ensures unfailed_read { result ≢ ReadFault → S.faults source.new ≡ S.faults source.old }
    ensures unfailed_write { result ≢ WriteFault → K.faults sink.new ≡ K.faults sink.old }
{
    match load(keeper, alloc, store, steps) {
        Ok(state) => match Serving::begin(alloc, setting, state) {
            Ok(mut serving) => {
                let ending = serving.serve_all(job, source, keeper, sink, steps);
                serving.close();
                ending
            }
            Err(Memory) => Ending::NoMemory,
        },
        Err(fault) => stop(fault, sink),
    }
}

/// Loads the stored history, and writes how many entries there are. The keeper must be neither
/// started nor spent nor closed; what it stores is unchanged. The source is not passed, so nothing
/// is read.
pub fn check<K: Sink, P: CountedKeeper<L>, L: Ledger>(
    alloc: Global,
    store: &str,
    sink: &mut K,
    keeper: &mut P,
    steps: &mut Steps<L>,
) -> Ending
    requires ready { IsReady false (P.state keeper.old) }
    ensures status { (result ≢ Refused) × (result ≢ ReadFault) × (result ≢ TooMuch) }
    ensures call { IsAfterCall (P.state keeper.new).started (P.state keeper.new).closed
        (ending_as_call result)
        (P.state keeper.old) (P.state keeper.new) }
    ensures ends { (P.state keeper.new).tells → (left : Option (List ℕ)) →
        CheckEnds result (sink.new ≡ sink.old) store.now
        (outside left (K.written sink.old) (P.state keeper.old) steps.old)
        (outside left (K.written sink.new) (P.state keeper.new) steps.new) }
    ensures idle { (P.state keeper.new).tells
        → IsIdle store.now (P.state keeper.old) (P.state keeper.new) }
    ensures tells { TellsOnceStarted store.now (P.state keeper.old) (P.state keeper.new) }
    ensures unwritten { result ≡ NoMemory → sink.new ≡ sink.old }
    ensures write_fault { result ≡ WriteFault → HasRisen (K.faults sink.old) (K.faults sink.new) }
    ensures unfailed_write { result ≢ WriteFault → K.faults sink.new ≡ K.faults sink.old }
{
    match load(keeper, alloc, store, steps) {
        Ok(state) => say_entries(sink, count_of(state)),
        Err(fault) => stop(fault, sink),
    }
}
