//! Serves the lines of the input, one after another, each with its reply.
ghost use Rattle.std.specs.Prelude.{◌≡◌, ◌≢◌, ℕ, ◌+◌, ◌<◌, ◌≤◌, List, [], Some, None, option_map, IfNone, IfOk, IsTrue, IsFalse, MatchOption, true, false};
ghost use Rattle.hippo_io.specs.Faults.{HasRisen};
ghost use Rattle.hippo_io.specs.HandingOut.{at_beginning, bytes_handed_out, input_limit, HasHandedOut};
ghost use Rattle.hippo_io.specs.Inputs.{ForEachInput, ForEachReading, ReadsMore};
ghost use Rattle.hippo_io.specs.LineTexts.{line_text};
ghost use Rattle.hippo_model.specs.Terms.{History};
ghost use Rattle.hippo_model.specs.Versions.{versions};
ghost use Rattle.hippo_keeper.specs.Keeping.{IsAfterCall};
ghost use Rattle.hippo_stmt_lines.specs.Commands.{input_command};
ghost use Rattle.hippo_engine_world.specs.Holding.{world_of};
ghost use Rattle.hippo_engine_sessions.specs.Worlds.{opening};
ghost use Rattle.hippo_engine.specs.Carrying.{Holds, AtWork};
ghost use Rattle.hippo_serve_args.specs.declared.calls.Setting.{Setting};
ghost use Rattle.hippo_program_args.specs.declared.endings.Ending.TheVariants.{Served, Refused, ReadFault, WriteFault, NoMemory};
ghost use Rattle.hippo_program_args.specs.Endings.{status_of, ending_as_call, part_as_call};
ghost use Rattle.hippo_serve_jobs.specs.Endings.{EndsUnread};
ghost use Rattle.hippo_serve_jobs.specs.Keeping.{KeepsHistory};
ghost use Rattle.hippo_serve_jobs.specs.Loads.{asked_line, asked_lines, counted_line};
ghost use Rattle.hippo_serve_jobs.specs.Outside.{Told, telling, outside};
ghost use Rattle.hippo_serve_jobs.specs.Runs.{opening_after, HasTakenBytes, IsHandingOut, LinesEnd, HasReplied, HasServed, Turn};

use crate::loads::{MadeText, make_clock, make_load};
use hippo_engine::Engine;
use hippo_engine_lines::carry_out_line;
use hippo_engine_rules::EngineFault;
use hippo_io::{Line, LineFault, LineReader, Sink, Source};
use hippo_keeper::{CountedKeeper, Steps};
use hippo_program_args::{Ending, say_damaged};
use hippo_replay::State;
use hippo_serve_args::{Job, Setting};
use hippo_values::{LINE_LIMIT, Memory};
use std::alloc::Global;
use std::sync::ledger::Ledger;

// Carries out a line and writes its reply. Returns how the run ends, if it ends here.
fn carry_out<K: Sink, P: CountedKeeper<L>, L: Ledger>(
    alloc: Global,
    engine: &mut Engine,
    line: Line<'_>,
    keeper: &mut P,
    sink: &mut K,
    steps: &mut Steps<L>,
) -> Option<Ending>
    requires at_work { AtWork engine.old (P.state keeper.old) }
    ensures line { line_text line.entry ≢ None →
        Turn result (input_command (line_text line.entry)) engine.old engine.new
        (P.state keeper.old)
        (P.state keeper.new)
        (K.written sink.old) (K.written sink.new) steps.old steps.new }
    ensures end { line_text line.entry ≡ None →
        (result ≡ Some Served) × (engine.new ≡ engine.old) × (keeper.new ≡ keeper.old)
        × (sink.new ≡ sink.old)
        × (steps.new ≡ steps.old) }
    ensures write_fault { result ≡ Some WriteFault
        → HasRisen (K.faults sink.old) (K.faults sink.new) }
    ensures unfailed_write { result ≢ Some WriteFault → K.faults sink.new ≡ K.faults sink.old }
{
    if line == Line::End {
        return Some(Ending::Served);
    }
    match carry_out_line(engine, alloc, line, keeper, sink, steps) {
        Ok(()) => None,
        Err(EngineFault::Keeper) => Some(Ending::KeeperFault),
        Err(EngineFault::Write) => Some(Ending::WriteFault),
        Err(EngineFault::Damaged(number)) => Some(say_damaged(sink, number)),
    }
}

// The line that a job asks for when it reads this one. A text that is longer than a line may be is
// not a record.
fn asked<'t>(job: &Job, line: Line<'t>, made: &'t mut MadeText) -> Line<'t>
    ensures { line_text result ≡ option_map (asked_line job.now)
        (option_map (counted_line job.now) (line_text line.entry)) }
{
    match (job, line) {
        (Job::Load { table, .. }, Line::Text(fields)) => {
            if fields.len() > LINE_LIMIT {
                return Line::TooLong;
            }
            make_load(table, fields, made);
            Line::Text(made.as_str())
        }
        (_, other) => other,
    }
}

// An engine over a state.
fn open(alloc: Global, setting: Setting, state: State) -> Result<Engine, Memory>
    ensures state { IfOk result (λ engine. engine.state ≡ state) }
    ensures world { IfOk result (λ engine.
        world_of engine.world ≡ opening state.last setting.limit setting.format) }
{
    Engine::new(alloc, state, setting.limit, setting.format)
}

/// A job in progress: an engine, the reader of the input's lines, and the text of the line that the
/// job makes from one of them.
#[derive(Drop)]
pub struct Serving {
    pub alloc: Global,
    pub engine: Engine,
    pub reader: LineReader,
    pub made: MadeText,
}

impl Serving {
    /// Begins a job over a state that was loaded. Reads nothing yet.
    pub fn begin(alloc: Global, setting: Setting, state: State) -> Result<Serving, Memory>
        ensures state { IfOk result (λ serving. serving.engine.state ≡ state) }
        ensures world { IfOk result (λ serving. world_of serving.engine.world
            ≡ opening state.last setting.limit setting.format) }
        ensures reader { IfOk result (λ serving. serving.reader ≡ at_beginning) }
        ensures handed { IfOk result (λ serving.
            (input : List ℕ) → HasHandedOut input [] serving.reader (Some input)) }
    {
        let Ok(reader) = LineReader::new(alloc) else {
            state.close();
            return Err(Memory);
        };
        let Ok(made) = MadeText::with_room(alloc) else {
            state.close();
            return Err(Memory);
        };
        let engine = open(alloc, setting, state)?;
        Ok(Serving {
            alloc,
            engine,
            reader,
            made,
        })
    }

    /// Drops everything that it holds.
    pub fn close(self) {
        let Serving { engine, .. } = self;
        engine.close();
    }

    // Sets the clock if the job begins with that. Returns how the run ends, if it ends here. Reads
    // nothing.
    fn serve_first<K: Sink, P: CountedKeeper<L>, L: Ledger>(
        &mut self,
        job: &Job,
        keeper: &mut P,
        sink: &mut K,
        steps: &mut Steps<L>,
    ) -> Option<Ending>
        requires at_work { AtWork self.old.engine (P.state keeper.old) }
        ensures reader { self.new.reader ≡ self.old.reader }
        ensures status { MatchOption result (AtWork self.new.engine (P.state keeper.new))
            EndsUnread }
        ensures call { IsAfterCall true false (part_as_call result) (P.state keeper.old)
            (P.state keeper.new) }
        ensures served { (P.state keeper.new).tells
            → (setting : Setting) (history : History) (before : Told) →
            HasReplied setting history [] before self.old.engine
            (outside before.left (K.written sink.old) (P.state keeper.old) steps.old) →
            MatchOption result
            (HasReplied setting history (asked_lines job.now []) before self.new.engine
            (outside before.left (K.written sink.new) (P.state keeper.new) steps.new))
            (λ ending. LinesEnd ending setting job.now history before
            (outside before.left (K.written sink.new) (P.state keeper.new) steps.new)) }
        ensures write_fault { result ≡ Some WriteFault
            → HasRisen (K.faults sink.old) (K.faults sink.new) }
        ensures unfailed_write { result ≢ Some WriteFault → K.faults sink.new ≡ K.faults sink.old }
    {
        match job {
            Job::Load { moment, .. } => {
                make_clock(*moment, &mut self.made);
                carry_out(
                    self.alloc,
                    &mut self.engine,
                    Line::Text(self.made.as_str()),
                    keeper,
                    sink,
                    steps,
                )
            }
            _ => None,
        }
    }

    // Reads the next line and carries out what the job asks for. Returns how the run ends, if it
    // ends here.
    fn serve_line<S: Source, K: Sink, P: CountedKeeper<L>, L: Ledger>(
        &mut self,
        job: &Job,
        source: &mut S,
        keeper: &mut P,
        sink: &mut K,
        steps: &mut Steps<L>,
    ) -> Option<Ending>
        requires reader { self.old.reader.failure ≡ None }
        requires at_work { AtWork self.old.engine (P.state keeper.old) }
        ensures status { (result ≢ Some Refused) × (result ≢ Some NoMemory) }
        ensures goes_on { IfNone result ((self.new.reader.failure ≡ None)
            × (bytes_handed_out self.old.reader < bytes_handed_out self.new.reader)
            × (self.new.reader.taken ≤ input_limit)) }
        ensures at_work { IfNone result (AtWork self.new.engine (P.state keeper.new)) }
        ensures call { IsAfterCall true false (part_as_call result) (P.state keeper.old)
            (P.state keeper.new) }
        ensures read { ForEachReading self.old.reader.ended (S.left source.old)
            (S.reads source.old) (S.left source.new) (S.reads source.new)
            (λ left left'. (input : List ℕ) → IsHandingOut input self.old.reader left →
            MatchOption result (IsHandingOut input self.new.reader left')
            (λ ending. HasTakenBytes (status_of ending) input left')) }
        ensures served { (P.state keeper.new).tells → ForEachReading self.old.reader.ended
            (S.left source.old) (S.reads source.old) (S.left source.new) (S.reads source.new)
            (λ left left'. (setting : Setting) (history : History) (before : Told) →
            HasServed setting job.now history before self.old.reader self.old.engine
            (outside left (K.written sink.old) (P.state keeper.old) steps.old) →
            MatchOption result
            (HasServed setting job.now history before self.new.reader self.new.engine
            (outside left' (K.written sink.new) (P.state keeper.new) steps.new))
            (λ ending. LinesEnd ending setting job.now history before
            (outside left' (K.written sink.new) (P.state keeper.new) steps.new))) }
        ensures on { ReadsMore (S.reads source.old) (S.reads source.new) }
        ensures still { IsTrue self.old.reader.ended → (S.reads source.new ≡ S.reads source.old)
            × (self.new.reader ≡ self.old.reader) }
        ensures going { IfNone result (IsFalse self.new.reader.ended
            → (S.reads source.new).ended ≡ (S.reads source.old).ended) }
        ensures read_fault { result ≡ Some ReadFault
            → HasRisen (S.faults source.old) (S.faults source.new) }
        ensures write_fault { result ≡ Some WriteFault
            → HasRisen (K.faults sink.old) (K.faults sink.new) }
        ensures unfailed_read { result ≢ Some ReadFault
            → S.faults source.new ≡ S.faults source.old }
        ensures unfailed_write { result ≢ Some WriteFault → K.faults sink.new ≡ K.faults sink.old }
    {
        match self.reader.next_line(source) {
            Ok(line) => carry_out(
                self.alloc,
                &mut self.engine,
                asked(job, line, &mut self.made),
                keeper,
                sink,
                steps,
            ),
            Err(LineFault::Read) => Some(Ending::ReadFault),
            Err(LineFault::TooMuch) => Some(Ending::TooMuch),
        }
    }

    /// Serves the line with which the job begins, if there is one, and then the lines of the input,
    /// until the input ends or a fault stops it.
    pub fn serve_all<S: Source, K: Sink, P: CountedKeeper<L>, L: Ledger>(
        &mut self,
        job: &Job,
        source: &mut S,
        keeper: &mut P,
        sink: &mut K,
        steps: &mut Steps<L>,
    ) -> Ending
        requires reader { self.old.reader ≡ at_beginning }
        requires handed { (input : List ℕ) → HasHandedOut input [] self.old.reader (Some input) }
        requires at_work { AtWork self.old.engine (P.state keeper.old) }
        ensures status { (result ≢ Refused) × (result ≢ NoMemory) }
        ensures call { IsAfterCall true false (ending_as_call result) (P.state keeper.old)
            (P.state keeper.new) }
        ensures read { ForEachInput (S.left source.old) (S.reads source.old) (S.left source.new)
            (S.reads source.new) (λ left left'. (input : List ℕ) → left ≡ Some input →
            HasTakenBytes (status_of result) input left') }
        ensures ends { (P.state keeper.new).tells → ForEachInput (S.left source.old)
            (S.reads source.old) (S.left source.new) (S.reads source.new)
            (λ left left'. (setting : Setting) (history : History) →
            Holds history self.old.engine (P.state keeper.old) →
            world_of self.old.engine.world ≡ opening_after setting history
            → KeepsHistory history (P.state keeper.old) →
            (start : ℕ) → steps.old ≡ start + versions history →
            LinesEnd result setting job.now history
            (telling left (K.written sink.old) start)
            (outside left' (K.written sink.new) (P.state keeper.new) steps.new)) }
        ensures read_fault { result ≡ ReadFault
            → HasRisen (S.faults source.old) (S.faults source.new) }
        ensures write_fault { result ≡ WriteFault
            → HasRisen (K.faults sink.old) (K.faults sink.new) }
        ensures unfailed_read { result ≢ ReadFault → S.faults source.new ≡ S.faults source.old }
        ensures unfailed_write { result ≢ WriteFault → K.faults sink.new ≡ K.faults sink.old }
    {
        if let Some(ending) = self.serve_first(job, keeper, sink, steps) {
            return ending;
        }
        loop {
            if let Some(ending) = self.serve_line(job, source, keeper, sink, steps) {
                return ending;
            }
        }
    }
}
