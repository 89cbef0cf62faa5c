//! Runs worked examples through the top function. Standard input holds cases, one order a line:
//!
//! - `word W` adds a word to the command.
//! - `line TEXT` adds a line to the input, `part TEXT` the text alone, and `times N TEXT` the text
//!   N times. `numbered N TEXT` adds the line N times, with the numbers from 0 in place of its `#`.
//!   `bytes N ..` adds bytes by their numbers, and `clinic` the lines of a small clinic.
//! - `reads N` and `writes N` make that call of the source or the sink fail. `fails N` and `keeps
//!   N` make that call of the keeper fail; with `keeps`, it stores its entry nevertheless. `room N`
//!   is how many bytes the sink takes.
//! - `call` calls the program over an empty store, `again` over what the last call left. The output
//!   is written, and then `status N`. With `brief`, consecutive lines that begin with the same two
//!   words are shortened to their number and the last one (`brief.rt`).
//! - Between calls, `remove N` removes the entry at place N from what is stored, `put N ENTRY`
//!   inserts one there (`store.rt`), and `kept` writes all entries.
//! - A line that begins with `# ` says what a case shows. An empty line is skipped. Any other line
//!   ends the program with a fault.
#![tactic(auto)]

ghost use Rattle.std.specs.Prelude.{◌≡◌, ◌<◌, false};
ghost use Rattle.hippo_keeper.specs.Keeping.{IsReady};
ghost use Rattle.hippo_keeper.specs.MemoryKeeping.{memory_keeper_state};

mod brief;
mod cases;
mod store;

use crate::brief::brief;
use crate::cases::Case;
use crate::store::{all_written, keeper_of, with, without};
use hippo_entry_hex::first_word;
use hippo_io::{MemorySink, MemorySource};
use hippo_keeper::{KeeperFails, MemoryKeeper, Steps};
use hippo_model::StoredList;
use hippo_serve::hippo_top;
use hippo_values::{Duplicate, Memory, Txt};
use std::alloc::Global;
use std::io::{self, Write};
use std::marker::Brand;
use std::mem;
use std::sync::ledger::{Blank, Ledger};

// Calls the program, with its steps counted on a ledger that nothing else uses.
fn counted<L: Ledger>(
    alloc: Global,
    words: &[Txt],
    source: &mut MemorySource,
    sink: &mut MemorySink,
    keeper: &mut MemoryKeeper,
    blank: Blank,
) -> u8
    requires ready { IsReady false (memory_keeper_state keeper.old) }
    requires name { blank.name ≡ L.name }
    requires parts { blank.parts ≡ L.parts }
    requires some { 0 < blank.parts }
{
    let mut steps = Steps::<L>::new(blank);
    hippo_top(alloc, words, source, sink, keeper, &mut steps)
}

fn called(
    alloc: Global,
    words: &[Txt],
    source: &mut MemorySource,
    sink: &mut MemorySink,
    keeper: &mut MemoryKeeper,
) -> u8
    requires ready { IsReady false (memory_keeper_state keeper.old) }
{
    counted::<Brand>(alloc, words, source, sink, keeper, Blank::new(1))
}

// The program's output, in the form that the case asks for, and its exit status.
fn said(alloc: Global, output: &[u8], is_brief: bool, status: u8) -> Result<String, Memory> {
    let output = str::from_utf8(output).unwrap_or("");
    if is_brief {
        let output = brief(alloc, output)?;
        return Ok(format!(in alloc; "{output}status {status}\n")?);
    }
    Ok(format!(in alloc; "{output}status {status}\n")?)
}

// What the program writes with this source, sink and keeper, in the form that the case asks for,
// and its exit status.
fn said_over(
    alloc: Global,
    case: &Case,
    source: &mut MemorySource,
    sink: &mut MemorySink,
    keeper: &mut MemoryKeeper,
) -> Result<String, Memory>
    requires ready { IsReady false (memory_keeper_state keeper.old) }
{
    let status = called(alloc, case.words.as_slice(), source, sink, keeper);
    said(alloc, sink.bytes(), case.is_brief, status)
}

// The result of a case over a keeper.
fn outcome(alloc: Global, case: &mut Case, keeper: &mut MemoryKeeper) -> Result<String, Memory>
    requires ready { IsReady false (memory_keeper_state keeper.old) }
{
    let mut source = case.take_source(alloc);
    let mut sink = case.take_sink(alloc)?;
    said_over(alloc, &*case, &mut source, &mut sink, keeper)
}

// The entries that a keeper left.
fn left(alloc: Global, keeper: MemoryKeeper) -> Result<StoredList, Memory> {
    keeper.restart().kept(alloc)
}

// The case that is being built, and the entries that the last call left.
#[derive(Drop)]
struct Rows {
    case: Case,
    kept: StoredList,
}

impl Rows {
    fn new(alloc: Global) -> Rows {
        Rows {
            case: Case::new(alloc),
            kept: StoredList::new(alloc),
        }
    }

    // Calls the program over these entries. `None` if their numbers do not rise.
    fn call(&mut self, alloc: Global, kept: StoredList) -> Result<Option<String>, Memory> {
        let failing = mem::replace(&mut self.case.failing, KeeperFails::new(alloc));
        let Some(mut keeper) = keeper_of(alloc, &kept, failing)? else {
            return Ok(None);
        };
        let said = outcome(alloc, &mut self.case, &mut keeper)?;
        self.case = Case::new(alloc);
        self.kept = left(alloc, keeper)?;
        Ok(Some(said))
    }

    fn call_again(&mut self, alloc: Global) -> Result<Option<String>, Memory> {
        let kept = self.kept.copy(alloc)?;
        self.call(alloc, kept)
    }

    // Changes what is stored, or the case. `None` if there is no such order.
    fn change(&mut self, alloc: Global, word: &str, text: &str) -> Result<Option<String>, Memory> {
        match word {
            "put" => self.kept = with(alloc, self.kept.as_slice(), text)?,
            "remove" => self.kept = without(alloc, self.kept.as_slice(), text)?,
            _ => {
                if !self.case.take(alloc, word, text)? {
                    return Ok(None);
                }
            }
        }
        Ok(Some(String::new(alloc)))
    }

    // Does what a line asks for, and returns the text to write. `None` if the line asks for nothing
    // that exists.
    fn carry_out(&mut self, alloc: Global, line: &str) -> Result<Option<String>, Memory> {
        let (word, text) = first_word(line);
        match word {
            "call" => self.call(alloc, StoredList::new(alloc)),
            "again" => self.call_again(alloc),
            "kept" => Ok(Some(all_written(alloc, self.kept.as_slice())?)),
            _ => self.change(alloc, word, text),
        }
    }
}

// Does what a line asks for, and returns the text to write.
fn written(alloc: Global, rows: &mut Rows, line: &str) -> io::Result<String> {
    let written = rows
        .carry_out(alloc, line)
        .map_err(|_| io::ErrorKind::OutOfMemory)?;
    match written {
        Some(text) => Ok(text),
        None => Err(io::ErrorKind::InvalidInput.into()),
    }
}

// Does what each line of standard input asks for.
fn carry_out_all(rt: HostRuntime, rows: &mut Rows) -> io::Result<()> {
    for line in rt.lines(rt.alloc()) {
        let text = written(rt.alloc(), rows, line?.as_str())?;
        rt.stdout().write_all(text.as_bytes())?;
    }
    Ok(())
}

fn main(rt: HostRuntime) -> io::Result<()> {
    let mut rows = Rows::new(rt.alloc());
    carry_out_all(rt, &mut rows)
}
