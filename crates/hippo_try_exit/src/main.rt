//! A program that begins and ends as the others do. It writes each of its words on a line. Its exit
//! status is the number of the words, or 255 if a write fails.
#![tactic(auto)]

ghost use Rattle.std.specs.Prelude.{◌≡◌, ◌⊎◌, ◌<◌, IfOk, false, length, min};
ghost use Rattle.hippo_keeper.specs.Keeping.{IsReady};
ghost use Rattle.hippo_keeper.specs.MemoryKeeping.{memory_keeper_state};

use hippo_io::{Failed, Sink, Source, write_whole};
use hippo_keeper::{CountedKeeper, KeeperFails, MemoryKeeper};
use hippo_program_start::{Ended, Host, Program, start};
use hippo_values::Txt;
use std::marker::Brand;
use std::rt::HostRuntime;
use std::sync::ledger::{Blank, Ledger};

// Writes each word on a line, and returns how many there are.
fn say_words<K: Sink>(words: &[Txt], sink: &mut K) -> Result<u8, Failed>
    ensures count { IfOk result (λ count. count ≡ min 255 (length words.now)) }
{
    let mut count: u8 = 0;
    for word in words {
        write_whole(sink, word.as_str().as_bytes())?;
        write_whole(sink, b"\n")?;
        count = count.saturating_add(1);
    }
    Ok(count)
}

#[derive(Clone, Copy)]
struct Echo;

impl Program for Echo {
    ghost Answers = { λ echo words status before after.
        (status ≡ min 255 (length words)) ⊎ (status ≡ 255) };

    fn call<S: Source, K: Sink, P: CountedKeeper<L>, L: Ledger>(
        &self,
        words: &[Txt],
        host: &mut Host<S, K, P, L>,
    ) -> u8 {
        say_words(words, &mut host.sink).unwrap_or(u8::MAX)
    }
}

// The program counts its steps in a ledger that nothing else uses.
fn begin<L: Ledger>(rt: HostRuntime, keeper: MemoryKeeper, blank: Blank) -> Ended<MemoryKeeper>
    requires ready { IsReady false (memory_keeper_state keeper) }
    requires name { blank.name ≡ L.name }
    requires parts { blank.parts ≡ L.parts }
    requires some { 0 < blank.parts }
{
    start::<Echo, MemoryKeeper, L>(rt, &Echo, keeper, blank)
}

fn main(rt: HostRuntime) -> Ended<MemoryKeeper> {
    let keeper = MemoryKeeper::new(rt.alloc(), KeeperFails::new(rt.alloc()));
    begin::<Brand>(rt, keeper, Blank::new(1))
}
