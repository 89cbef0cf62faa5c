//! The line that a program writes as it ends.
ghost use Rattle.std.specs.Prelude.{◌≡◌, ◌≢◌};
ghost use Rattle.hippo_program_args.specs.declared.endings.Ending.TheVariants.{Served, Refused, ReadFault, WriteFault, Damaged, TooMuch};
ghost use Rattle.hippo_program_args.specs.Endings.{stop_ending};
ghost use Rattle.hippo_program_args.specs.Lines.{damaged_line, numbered_line};
ghost use Rattle.hippo_program_args.specs.Saying.{Says};
ghost use Rattle.hippo_program_args.specs.Starting.{Stops};

use crate::endings::Ending;
use crate::lines::write_numbered;
use hippo_io::{Failed, Sink, write_whole};
use hippo_replay::LoadFault;

/// Writes a text and returns `ending`, or `WriteFault` if the sink fails.
pub fn say<K: Sink>(sink: &mut K, text: &str, ending: Ending) -> Ending
    ensures says { Says ending text.now WriteFault result
        (K.written sink.old) (K.written sink.new) (K.faults sink.old) (K.faults sink.new) }
{
    match write_whole(sink, text.as_bytes()) {
        Ok(()) => ending,
        Err(Failed) => Ending::WriteFault,
    }
}

/// Writes a line of words and a number. Returns `ending`, or `WriteFault` if the sink fails.
pub fn say_numbered<K: Sink>(sink: &mut K, words: &str, number: u64, ending: Ending) -> Ending
    ensures says { Says ending (numbered_line words.now number) WriteFault result
        (K.written sink.old) (K.written sink.new) (K.faults sink.old) (K.faults sink.new) }
{
    match write_numbered(sink, words, number) {
        Ok(()) => ending,
        Err(Failed) => Ending::WriteFault,
    }
}

/// Writes the place at which the stored entries are damaged.
pub fn say_damaged<K: Sink>(sink: &mut K, place: u64) -> Ending
    ensures says { Says Damaged (damaged_line place) WriteFault result
        (K.written sink.old) (K.written sink.new) (K.faults sink.old) (K.faults sink.new) }
{
    say_numbered(sink, "damaged ", place, Ending::Damaged)
}

/// Ends a program whose stored history was not loaded: returns its ending, and writes the place of
/// any damage.
pub fn stop<K: Sink>(fault: LoadFault, sink: &mut K) -> Ending
    ensures status { (result ≢ Served) × (result ≢ Refused) × (result ≢ ReadFault)
        × (result ≢ TooMuch) }
    ensures stops { Stops stop_ending WriteFault fault result (sink.new ≡ sink.old)
        (K.written sink.old) (K.written sink.new) (K.faults sink.old) (K.faults sink.new) }
{
    match fault {
        LoadFault::Keeper => Ending::KeeperFault,
        LoadFault::Damaged(place) => say_damaged(sink, place),
        LoadFault::Memory => Ending::NoMemory,
    }
}
