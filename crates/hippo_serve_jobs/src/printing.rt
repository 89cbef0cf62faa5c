//! The lines that the program writes besides its replies.
ghost use Rattle.hippo_program_args.specs.Saying.{Says};
ghost use Rattle.hippo_program_args.specs.declared.endings.Ending.TheVariants.{Served, Refused, WriteFault};
ghost use Rattle.hippo_serve_jobs.specs.Saying.{usage, entries_line};

use hippo_io::Sink;
use hippo_program_args::{Ending, say, say_numbered};

const USAGE: &str =
    "usage: hippo run|check|drill|load [--store NAME] [--history N] [--size N] [--number N] \
      [--format text|json|csv] [--table NAME] [--moment MOMENT]\n";

/// Writes the usage line.
#[tactic(auto, unfolding(crate::specs::Saying::usage))]
pub fn refuse<K: Sink>(sink: &mut K) -> Ending
    ensures says { Says Refused usage WriteFault result
        (K.written sink.old) (K.written sink.new) (K.faults sink.old) (K.faults sink.new) }
{
    say(sink, USAGE, Ending::Refused)
}

/// Writes how many entries are stored.
pub fn say_entries<K: Sink>(sink: &mut K, count: u64) -> Ending
    ensures says { Says Served (entries_line count) WriteFault result
        (K.written sink.old) (K.written sink.new) (K.faults sink.old) (K.faults sink.new) }
{
    say_numbered(sink, "entries ", count, Ending::Served)
}
