//! A line of words and a number.
ghost use Rattle.std.specs.Prelude.{◌≡◌, OnOk, OnErr};
ghost use Rattle.hippo_io.specs.Faults.{HasRisen};
ghost use Rattle.hippo_io.specs.Told.{Appends, AppendsFront};
ghost use Rattle.hippo_program_args.specs.Lines.{numbered_line};

use hippo_io::{Failed, Sink, write_whole};
use itoa::Buffer;

/// Writes words, a number and a line feed. If the sink fails, a prefix of them is written.
pub fn write_numbered<K: Sink>(sink: &mut K, words: &str, number: u64) -> Result<(), Failed>
    ensures ok { OnOk result (Appends (K.written sink.old) (K.written sink.new)
        (numbered_line words.now number)) }
    ensures failed { OnErr result
        (AppendsFront (K.written sink.old) (K.written sink.new) (numbered_line words.now number)) }
    ensures cause { OnErr result (HasRisen (K.faults sink.old) (K.faults sink.new)) }
    ensures unfailed { OnOk result (K.faults sink.new ≡ K.faults sink.old) }
{
    write_whole(sink, words.as_bytes())?;
    write_whole(sink, Buffer::new().format(number).as_bytes())?;
    write_whole(sink, b"\n")
}
