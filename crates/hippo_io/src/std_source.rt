//! Any reader of std as a source.
ghost use Rattle.std.specs.Prelude.{◌≡◌, ◌<◌, ◌≤◌, length, IfOk, OnOk, OnErr};
ghost use Rattle.hippo_io.specs.Adapters.{stream_of, stream_faults, stream_reads};
ghost use Rattle.hippo_io.specs.Faults.{HasRisen, next_count};
ghost use Rattle.hippo_io.specs.Inputs.{after_read};
ghost use Rattle.hippo_io.specs.Told.{Keeps, Takes, IsAtEnd};

use crate::counts::one_more;
use crate::source::{Failed, Source, has_ended};
use crate::std_stream::StdStream;
use std::io::Read;

/// A source over any reader. It counts each error of the reader as a fault, and does not retry.
pub type StdSource<R> = StdStream<R>;

impl<R: Read> Source for StdStream<R> {
    ghost left = { λ source. R.remaining (stream_of source) };

    ghost reads = { stream_reads };

    ghost faults = { stream_faults };

    fn read(&mut self, buffer: &mut [u8]) -> Result<usize, Failed>
        ensures count { IfOk result (λ n. n ≤ length buffer.old) }
        ensures taken { IfOk result
            (λ n. Takes (R.remaining (stream_of self.old)) (R.remaining (stream_of self.new)) n
            buffer.new) }
        ensures end { IfOk result (λ n. n ≡ 0 → 0 < length buffer.old
            → IsAtEnd (R.remaining (stream_of self.old))) }
        ensures failed { OnErr result (Keeps (R.remaining (stream_of self.old))
            (R.remaining (stream_of self.new))) }
        ensures returned { IfOk result (λ n. stream_reads self.new
            ≡ after_read (stream_reads self.old) n buffer.new) }
        ensures unread { OnErr result (stream_reads self.new ≡ stream_reads self.old) }
        ensures cause { OnErr result (HasRisen (stream_faults self.old) (stream_faults self.new)) }
        ensures unfailed { OnOk result (stream_faults self.new ≡ stream_faults self.old) }
        ensures faults { stream_faults self.old ≤ stream_faults self.new }
        ensures counted { OnErr result (stream_faults self.new ≡ next_count (stream_faults self.old)) }
    {
        match self.inner.read(buffer) {
            Ok(n) => {
                self.returned.note(&buffer[..n]);
                self.ended = has_ended(self.ended, n, buffer);
                Ok(n)
            }
            Err(_) => {
                self.faults = one_more(self.faults);
                Err(Failed)
            }
        }
    }
}
