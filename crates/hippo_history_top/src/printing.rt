//! The lines that the program writes besides what it shows, and the write of a text.
ghost use Rattle.hippo_program_args.specs.Saying.{Says};
ghost use Rattle.hippo_program_args.specs.declared.endings.Ending.TheVariants.{Refused, KeeperFault, WriteFault};
ghost use Rattle.hippo_history_top.specs.Saying.{showing_usage as usage, missing_line, Writes};

use hippo_io::{Failed, Sink, write_whole};
use hippo_program_args::{Ending, say};

const USAGE: &str =
    "usage: hippo_history --store NAME [--entry N | --at N|MOMENT | [--from N|MOMENT] [--to N|MOMENT]] [--table NAME] \
     [--rules | --users | --digest | --patient N | --carry | [--tables] [--script]] \
     [--format text|json|csv|html]\n";

const MISSING: &str = "there is no store with this name\n";

/// Writes the usage line.
#[tactic(auto, unfolding(crate::specs::Saying::showing_usage))]
pub(crate) fn refuse<K: Sink>(sink: &mut K) -> Ending
    ensures says { Says Refused usage WriteFault result
        (K.written sink.old) (K.written sink.new) (K.faults sink.old) (K.faults sink.new) }
{
    say(sink, USAGE, Ending::Refused)
}

/// Reports that there is no store with the name in the words.
#[tactic(auto, unfolding(crate::specs::Saying::missing_line))]
pub(crate) fn miss<K: Sink>(sink: &mut K) -> Ending
    ensures says { Says KeeperFault missing_line WriteFault result
        (K.written sink.old) (K.written sink.new) (K.faults sink.old) (K.faults sink.new) }
{
    say(sink, MISSING, Ending::KeeperFault)
}

/// Writes the lines of an entry.
pub(crate) fn write_lines<K: Sink>(sink: &mut K, lines: &str) -> Option<Ending>
    ensures writes { Writes lines.now result
        (K.written sink.old) (K.written sink.new) (K.faults sink.old) (K.faults sink.new) }
{
    match write_whole(sink, lines.as_bytes()) {
        Ok(()) => None,
        Err(Failed) => Some(Ending::WriteFault),
    }
}
