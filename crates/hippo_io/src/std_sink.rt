//! Any writer of std as a sink.
ghost use Rattle.std.specs.Prelude.{◌≡◌, ◌<◌, ◌≤◌, Some, length, take, IfOk, OnOk, OnErr};
ghost use Rattle.hippo_io.specs.Adapters.{stream_of, stream_faults, stream_accepted};
ghost use Rattle.hippo_io.specs.Faults.{HasRisen, next_count};
ghost use Rattle.hippo_io.specs.Told.{Keeps, Appends};

use crate::counts::one_more;
use crate::sink::Sink;
use crate::source::Failed;
use crate::std_stream::StdStream;
use std::io::Write;

/// A sink over any writer. It counts as a fault each error of the writer, and each write of a
/// non-empty piece that writes nothing.
pub type StdSink<W> = StdStream<W>;

impl<W: Write> Sink for StdStream<W> {
    // All bytes that the writer accepted, whatever writer it is.
    ghost written = { λ sink. Some (stream_accepted sink) };

    ghost faults = { stream_faults };

    fn write(&mut self, piece: &[u8]) -> Result<usize, Failed>
        ensures count { IfOk result (λ n. n ≤ length piece.now) }
        ensures some { IfOk result (λ n. 0 < length piece.now → 0 < n) }
        ensures appended { IfOk result
            (λ n. Appends (Some (stream_accepted self.old)) (Some (stream_accepted self.new))
            (take n piece.now)) }
        ensures failed { OnErr result (Keeps (Some (stream_accepted self.old))
            (Some (stream_accepted self.new))) }
        ensures contents { IfOk result
            (λ n. Appends (W.contents (stream_of self.old)) (W.contents (stream_of self.new))
            (take n piece.now)) }
        ensures kept { OnErr result (Keeps (W.contents (stream_of self.old))
            (W.contents (stream_of self.new))) }
        ensures cause { OnErr result (HasRisen (stream_faults self.old) (stream_faults self.new)) }
        ensures unfailed { OnOk result (stream_faults self.new ≡ stream_faults self.old) }
        ensures faults { stream_faults self.old ≤ stream_faults self.new }
        ensures counted { OnErr result (stream_faults self.new
            ≡ next_count (stream_faults self.old)) }
    {
        match self.inner.write(piece) {
            Ok(n) if n > 0 || piece.is_empty() => {
                self.accepted.note(&piece[..n]);
                Ok(n)
            }
            _ => {
                self.faults = one_more(self.faults);
                Err(Failed)
            }
        }
    }
}
