//! The drill: runs a script over a keeper in memory, and counts its replies.
ghost use Rattle.std.specs.Prelude.{◌≡◌, ◌≢◌, ℕ, ◌<◌, [], true, false, Ok, length, string_bytes, IfOk, OnOk};
ghost use Rattle.hippo_io.specs.Lines.{text_line};
ghost use Rattle.hippo_model.specs.Terms.{History};
ghost use Rattle.hippo_keeper.specs.Keeping.{IsReady};
ghost use Rattle.hippo_keeper.specs.MemoryKeeping.{memory_keeper_state};
ghost use Rattle.hippo_report.specs.declared.speaker.Speaker.{Speaker};
ghost use Rattle.hippo_report.specs.declared.format.Format.TheVariants.{Text};
ghost use Rattle.hippo_report.specs.declared.refusal.Refusal.TheVariants.{Memory as WantsMemory};
ghost use Rattle.hippo_report.specs.Refusals.{refusal_line};
ghost use Rattle.hippo_replay.specs.Standing.{latest_moment, Represents};
ghost use Rattle.hippo_engine_world.specs.Holding.{world_of};
ghost use Rattle.hippo_engine_sessions.specs.Worlds.{opening};
ghost use Rattle.hippo_stmt_lines.specs.Commands.{command_of};
ghost use Rattle.hippo_engine.specs.Carrying.{Holds, AtWork};
ghost use Rattle.hippo_engine_rules.specs.Effects.{effect_of};
ghost use Rattle.hippo_program_args.specs.Saying.{Says};
ghost use Rattle.hippo_program_args.specs.declared.endings.Ending.TheVariants.{Served, WriteFault, NoMemory};
ghost use Rattle.hippo_serve_jobs.specs.Drilling.{drill_limit, summary, HasDone, HasDrilled};

use hippo_drill::{Counts, Drill};
use hippo_engine::Engine;
use hippo_engine_lines::answer_line;
use hippo_io::{Failed, Line, Sink, write_whole};
use hippo_keeper::{Keeper, KeeperFails, MemoryKeeper, Steps};
use hippo_program_args::Ending;
use hippo_replay::State;
use hippo_report::Format;
use hippo_values::{Memory, Txt};
use std::alloc::Global;
use std::marker::Brand;
use std::sync::ledger::{Blank, Ledger};

// The highest number of entries in a drill's history.
const ENTRY_LIMIT: u32 = 4_000_000;

// The end of every reply that reports that memory ran out.
const SHORT_REPLY: &str = " no 90 Memory\n";

/// A drill in progress: the remaining lines, an engine over a keeper in memory, and the counts of
/// the replies so far.
#[derive(Drop)]
pub struct Drilling {
    pub left: Drill,
    pub engine: Engine,
    pub keeper: MemoryKeeper,
    pub counts: Counts,
}

// A started keeper in memory. None of its calls is to fail.
fn start(alloc: Global) -> Result<MemoryKeeper, Memory>
    ensures empty { IfOk result (λ keeper. keeper.kept ≡ []) }
    ensures ready { IfOk result (λ keeper. IsReady true (memory_keeper_state keeper)) }
{
    let mut keeper = MemoryKeeper::new(alloc, KeeperFails::new(alloc));
    match keeper.start(alloc, "") {
        Ok(()) => Ok(keeper),
        Err(_) => Err(Memory),
    }
}

// An engine over the empty history.
fn open(alloc: Global) -> Result<Engine, Memory>
    ensures stands { IfOk result (λ engine. Represents engine.state []) }
    ensures world { IfOk result (λ engine. world_of engine.world
        ≡ opening (latest_moment []) drill_limit Text) }
{
    Engine::new(alloc, State::new(alloc), ENTRY_LIMIT, Format::Text)
}

// Refuses a reply that reports that memory ran out.
fn accept(reply: &str) -> Result<(), Memory>
    ensures { OnOk result ((who : Speaker) → reply.now ≢ refusal_line who WantsMemory) }
{
    if reply.ends_with(SHORT_REPLY) {
        return Err(Memory);
    }
    Ok(())
}

// Makes the reply to a line. A keeper in memory that is to fail at no call can only run out of
// memory.
fn answer<L: Ledger>(
    alloc: Global,
    line: &str,
    engine: &mut Engine,
    keeper: &mut MemoryKeeper,
    steps: &mut Steps<L>,
) -> Result<(), Memory>
    requires at_work { AtWork engine.old (memory_keeper_state keeper.old) }
    ensures at_work { OnOk result (AtWork engine.new (memory_keeper_state keeper.new)) }
    ensures done { OnOk result ((history : History)
        → Holds history engine.old (memory_keeper_state keeper.old) →
        HasDone history (effect_of history (world_of engine.old.world)
        (command_of (text_line line.now)))
        engine.new (memory_keeper_state keeper.new)) }
{
    match answer_line(engine, alloc, Line::Text(line), keeper, steps) {
        Ok(()) => accept(engine.reply()),
        Err(_) => Err(Memory),
    }
}

impl Drilling {
    // A drill with all lines of a script remaining.
    fn begin(alloc: Global, size: u32, number: u32) -> Result<Drilling, Memory>
        ensures drilled { IfOk result (λ drilling. HasDrilled size number drilling) }
        ensures at_work { IfOk result (λ drilling. AtWork drilling.engine
            (memory_keeper_state drilling.keeper)) }
    {
        let keeper = start(alloc)?;
        let engine = open(alloc)?;
        Ok(Drilling {
            left: Drill::new(u64::from(size), u64::from(number)),
            engine,
            keeper,
            counts: Counts::new(),
        })
    }

    // Makes the reply to the next line and counts it. Returns false if no line remains.
    fn go_on<L: Ledger>(&mut self, alloc: Global, steps: &mut Steps<L>) -> Result<bool, Memory>
        requires at_work { AtWork self.old.engine (memory_keeper_state self.old.keeper) }
        ensures at_work { OnOk result (AtWork self.new.engine
            (memory_keeper_state self.new.keeper)) }
        ensures drilled { OnOk result ((size number : ℕ) → HasDrilled size number self.old
            → HasDrilled size number self.new) }
        ensures end { result ≡ Ok false → self.new.left ≡ [] }
        ensures shorter { result ≡ Ok true → length self.new.left < length self.old.left }
    {
        let mut line = Txt::new(alloc);
        if !self.left.next_line(alloc, &mut line)? {
            return Ok(false);
        }
        answer(
            alloc,
            line.as_str(),
            &mut self.engine,
            &mut self.keeper,
            steps,
        )?;
        self.counts = self.counts.with(self.engine.reply())?;
        Ok(true)
    }

    // Runs all remaining lines.
    fn finish<L: Ledger>(&mut self, alloc: Global, steps: &mut Steps<L>) -> Result<(), Memory>
        requires at_work { AtWork self.old.engine (memory_keeper_state self.old.keeper) }
        ensures drilled { OnOk result ((size number : ℕ) → HasDrilled size number self.old
            → HasDrilled size number self.new) }
        ensures end { OnOk result (self.new.left ≡ []) }
    {
        loop {
            match self.go_on(alloc, steps) {
                Ok(true) => {}
                Ok(false) => return Ok(()),
                Err(Memory) => return Err(Memory),
            }
        }
    }

    // The summary that the drill writes at the end.
    fn summary(&self, alloc: Global) -> Result<String, Memory>
        requires end { self.now.left ≡ [] }
        ensures { IfOk result (λ text. (size number : ℕ) → HasDrilled size number self.now
            → string_bytes text ≡ summary size number) }
    {
        Ok(self.counts.summary(alloc, self.engine.state.count)?)
    }

    // Runs all remaining lines, and returns the summary.
    fn say_all<L: Ledger>(&mut self, alloc: Global, steps: &mut Steps<L>) -> Result<String, Memory>
        requires at_work { AtWork self.old.engine (memory_keeper_state self.old.keeper) }
        ensures { IfOk result (λ text. (size number : ℕ) → HasDrilled size number self.old
            → string_bytes text ≡ summary size number) }
    {
        self.finish(alloc, steps)?;
        self.summary(alloc)
    }
}

// The summary of a script's replies. Its steps are counted on a ledger of their own.
fn run_script<L: Ledger>(
    alloc: Global,
    size: u32,
    number: u32,
    blank: Blank,
) -> Result<String, Memory>
    requires name { blank.name ≡ L.name }
    requires parts { blank.parts ≡ L.parts }
    requires some { 0 < blank.parts }
    ensures { IfOk result (λ text. string_bytes text ≡ summary size number) }
{
    let mut steps = Steps::<L>::new(blank);
    match Drilling::begin(alloc, size, number) {
        Ok(mut drilling) => {
            let said = drilling.say_all(alloc, &mut steps);
            let Drilling { engine, .. } = drilling;
            engine.close();
            said
        }
        Err(Memory) => Err(Memory),
    }
}

/// Runs the script of this size and number, line by line, over a keeper in memory of its own.
/// Writes how many lines, entries, rows, flags and refusals there were. If memory runs out for a
/// line or its reply, nothing is written.
pub fn drill<K: Sink>(alloc: Global, size: u32, number: u32, sink: &mut K) -> Ending
    ensures says { result ≢ NoMemory → Says Served (summary size number) WriteFault result
        (K.written sink.old) (K.written sink.new) (K.faults sink.old) (K.faults sink.new) }
    ensures unwritten { result ≡ NoMemory → sink.new ≡ sink.old }
{
    let Ok(text) = run_script::<Brand>(alloc, size, number, Blank::new(1)) else {
        return Ending::NoMemory;
    };
    match write_whole(sink, text.as_bytes()) {
        Ok(()) => Ending::Served,
        Err(Failed) => Ending::WriteFault,
    }
}
