//! The top function: it does what the words ask for, over a keeper, and returns the exit status.
ghost use Rattle.std.specs.Prelude.{◌≡◌, ◌≢◌, ◌⊎◌, ℕ, List, Some, None, true, false, Any};
ghost use Rattle.hippo_io.specs.Faults.{HasRisen};
ghost use Rattle.hippo_io.specs.Inputs.{ForEachInput};
ghost use Rattle.hippo_io.specs.Told.{Appends, AppendsFront};
ghost use Rattle.hippo_keeper.specs.Keeping.{IsReady};
ghost use Rattle.hippo_keeper.specs.Telling.{TellsOnceStarted};
ghost use Rattle.hippo_program_args.specs.Starting.{IsIdle, SaysDamaged};
ghost use Rattle.hippo_serve_args.specs.CommandLine.{call_of};
ghost use Rattle.hippo_serve_args.specs.declared.calls.Setting.{Setting};
ghost use Rattle.hippo_serve_args.specs.declared.calls.Job.{Job};
ghost use Rattle.hippo_serve_args.specs.declared.calls.Job.TheVariants.{Check, Drill};
ghost use Rattle.hippo_serve_jobs.specs.Drilling.{summary};
ghost use Rattle.hippo_serve_jobs.specs.Endings.{statuses};
ghost use Rattle.hippo_serve_jobs.specs.Outcomes.{RunEnds, CheckEnds};
ghost use Rattle.hippo_serve_jobs.specs.Outside.{outside};
ghost use Rattle.hippo_serve_jobs.specs.Runs.{HasTakenBytes};
ghost use Rattle.hippo_serve_jobs.specs.Saying.{usage};
ghost use Rattle.hippo_serve.specs.Asking.{job_of, store_of, AskToServe, EndsAs};

use hippo_io::{Sink, Source};
use hippo_keeper::{CountedKeeper, Steps};
use hippo_program_args::Ending;
use hippo_serve_args::{Job, call_of};
use hippo_serve_jobs::{check, drill, refuse, run};
use hippo_values::Txt;
use std::alloc::Global;
use std::sync::ledger::Ledger;

/// Runs the program and returns its exit status. `words` are the words after the program's name,
/// `source` is its input, and `sink` its output. `keeper` stores the history, in the store that the
/// words name or in memory; it must be neither started nor spent nor closed.
///
/// - 0: the job is done. For `run`, the input was read to its end, and every line has its reply.
///   For `load`, the line that sets the clock has its reply, and so has, for each line of the
///   input, the line that loads its text as a record. For `check`, the line `entries N` is written;
///   N is the number of stored entries. For `drill`, five lines report the results of the script.
/// - 2: the words are not those of a call (see [`call_of`]). The usage line is written, and nothing
///   is read. If the usage line cannot be written, the status is 5 or 7 instead.
/// - 3: the keeper failed. The lines before have their replies; the next line's entry may or may
///   not be stored.
/// - 4: the source failed. Exactly the lines that were read whole have their replies, and in a load
///   the line that sets the clock.
/// - 5: the sink failed. What was written is a prefix of what was to be written.
/// - 6: the stored entries are those of no valid history. The line `damaged PLACE` is written.
///   PLACE, counted from 1, is that of the first entry for which the entries up to and including it
///   are those of no valid history. Nothing is read. In a store whose contents are not known, a
///   line may also come upon such an entry; `damaged NUMBER` is then written after the replies to
///   the lines before.
/// - 7: memory ran out before the first byte was read, or in a drill. Nothing was read or written.
/// - 8: more than 2^40 bytes were read. Exactly the lines that end within the first 2^40 bytes have
///   their replies, and in a load the line that sets the clock.
///
/// Over an empty store:
///
/// ```text
/// words    run --store clinic.db
/// input    at 2024-01-02T08:00:00Z
///          0 CREATE PURPOSE treatment
///          0 CREATE PURPOSE treatment
/// output   - ok
///          0 ok 1
///          0 no 36 AlreadyThere treatment
/// answer   0
/// ```
pub fn hippo_top<S: Source, K: Sink, P: CountedKeeper<L>, L: Ledger>(
    alloc: Global,
    words: &[Txt],
    source: &mut S,
    sink: &mut K,
    keeper: &mut P,
    steps: &mut Steps<L>,
) -> u8
    requires ready { IsReady false (P.state keeper.old) }

    // Words that ask for nothing are refused, and nothing is read or stored.
    ensures refused { call_of words.now ≡ None → ((result ≡ 2) ⊎ (result ≡ 5) ⊎ (result ≡ 7))
        × (source.new ≡ source.old) × (keeper.new ≡ keeper.old) × (steps.new ≡ steps.old) }
    ensures accepted { call_of words.now ≢ None → result ≢ 2 }
    ensures usage { result ≡ 2 → Appends (K.written sink.old) (K.written sink.new) usage }
    ensures usage_cut { call_of words.now ≡ None → result ≡ 5 →
        AppendsFront (K.written sink.old) (K.written sink.new) usage }

    // Once the keeper is started, its store's contents are known: on a clean disk, if all that a
    // start may find is nothing or a history; and always in memory.
    ensures tells { TellsOnceStarted (store_of words.now) (P.state keeper.old)
        (P.state keeper.new) }

    // For a run or a load, when the store's contents are known: what each status means, starting
    // from what a start may find. When the input and the output are known too, this includes which
    // lines were read and what is written.
    ensures served { (job : Job) (setting : Setting) → AskToServe words.now job setting →
        (P.state keeper.new).tells → ForEachInput (S.left source.old) (S.reads source.old)
        (S.left source.new) (S.reads source.new) (λ left left'. EndsAs (λ ending. RunEnds ending
        (source.new ≡ source.old) (sink.new ≡ sink.old) setting job (store_of words.now)
        (outside left (K.written sink.old) (P.state keeper.old) steps.old)
        (outside left' (K.written sink.new) (P.state keeper.new) steps.new)) result) }

    // When the input is known: a run or a load that ends with 0 has taken all of it, and it ends
    // with 8 exactly when it has taken more bytes than the limit. This holds for any keeper.
    ensures taken { (job : Job) (setting : Setting) → AskToServe words.now job setting
        → ForEachInput (S.left source.old) (S.reads source.old) (S.left source.new)
        (S.reads source.new) (λ left left'. (input : List ℕ) →
        left ≡ Some input → HasTakenBytes result input left') }

    // A check reads nothing, and stores what it finds unchanged.
    ensures counted { job_of words.now ≡ Some Check → (P.state keeper.new).tells →
        EndsAs (λ ending. CheckEnds ending (sink.new ≡ sink.old) (store_of words.now)
        (outside (S.left source.old) (K.written sink.old) (P.state keeper.old) steps.old)
        (outside (S.left source.new) (K.written sink.new) (P.state keeper.new) steps.new)) result }
    ensures uncut { job_of words.now ≡ Some Check → (result ≢ 4) × (result ≢ 8) }
    ensures unread { job_of words.now ≡ Some Check → source.new ≡ source.old }
    ensures same { job_of words.now ≡ Some Check → (P.state keeper.new).tells
        → IsIdle (store_of words.now) (P.state keeper.old) (P.state keeper.new) }

    // A drill writes the results of its script under the rules. It reads nothing and stores
    // nothing.
    ensures drilled { (size number : ℕ) → job_of words.now ≡ Some (Drill size number) → result ≡ 0 →
        Appends (K.written sink.old) (K.written sink.new) (summary size number) }
    ensures drill_cut { (size number : ℕ) → job_of words.now ≡ Some (Drill size number)
        → result ≡ 5 →
        AppendsFront (K.written sink.old) (K.written sink.new) (summary size number) }
    ensures apart { (size number : ℕ) → job_of words.now ≡ Some (Drill size number) →
        ((result ≡ 0) ⊎ (result ≡ 5) ⊎ (result ≡ 7))
        × (source.new ≡ source.old) × (keeper.new ≡ keeper.old) × (steps.new ≡ steps.old) }

    // Any job finds damage, if the store's contents are known, or runs out of memory, before it
    // reads.
    ensures damaged { result ≡ 6 → (P.state keeper.new).tells →
        (source.new ≡ source.old)
        × SaysDamaged (store_of words.now) (P.state keeper.old) (P.state keeper.new)
        (K.written sink.old) (K.written sink.new) }
    ensures nothing { result ≡ 7 → (source.new ≡ source.old) × (sink.new ≡ sink.old)
        × ((P.state keeper.new).tells
        → IsIdle (store_of words.now) (P.state keeper.old) (P.state keeper.new)) }

    // A status for a fault is returned only when the count of the object that failed rose.
    ensures keeper_fault { result ≡ 3 → HasRisen (P.state keeper.old).faults
        (P.state keeper.new).faults
        × ((P.state keeper.new).spent ≡ true) }
    ensures read_fault { result ≡ 4 → HasRisen (S.faults source.old) (S.faults source.new) }
    ensures write_fault { result ≡ 5 → HasRisen (K.faults sink.old) (K.faults sink.new) }
    ensures unfailed_keeper { result ≢ 3
        → ((P.state keeper.new).faults ≡ (P.state keeper.old).faults)
        × ((P.state keeper.new).spent ≡ false) }
    ensures unfailed_read { result ≢ 4 → S.faults source.new ≡ S.faults source.old }
    ensures unfailed_write { result ≢ 5 → K.faults sink.new ≡ K.faults sink.old }

    // These are all the statuses.
    ensures status { Any (λ status. result ≡ status) statuses }
{
    let Ok(asked) = call_of(alloc, words) else {
        return Ending::NoMemory.status();
    };
    let Some(call) = asked else {
        return refuse(sink).status();
    };
    let store = call.store.as_str();
    match &call.job {
        Job::Run(setting) | Job::Load { setting, .. } => {
            let job = &call.job;
            run(alloc, store, *setting, job, source, sink, keeper, steps).status()
        }
        Job::Check => check(alloc, store, sink, keeper, steps).status(),
        Job::Drill { size, number } => drill(alloc, *size, *number, sink).status(),
    }
}
