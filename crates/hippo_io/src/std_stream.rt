//! Wraps a stream of std and counts its faults.
ghost use Rattle.std.specs.Prelude.{◌≡◌, []};
ghost use Rattle.hippo_io.specs.Adapters.{stream_of, stream_faults, stream_reads, stream_accepted};
ghost use Rattle.hippo_io.specs.Inputs.{unread};

use crate::trace::Trace;

/// A source over a reader of std, or a sink over a writer.
#[derive(Drop)]
pub struct StdStream<T> {
    pub(crate) inner: T,
    pub(crate) faults: u64,
    // What reads returned, and whether one found the end.
    pub(crate) returned: Trace,
    pub(crate) ended: bool,
    // What writes accepted.
    pub(crate) accepted: Trace,
}

impl<T> StdStream<T> {
    /// A source of the reader's bytes, or a sink that writes to the writer at once and never
    /// flushes it.
    pub fn new(inner: T) -> StdStream<T>
        ensures stream { stream_of result ≡ inner }
        ensures faults { stream_faults result ≡ 0 }
        ensures reads { stream_reads result ≡ unread }
        ensures accepted { stream_accepted result ≡ [] }
    {
        StdStream {
            inner,
            faults: 0,
            returned: Trace::new(),
            ended: false,
            accepted: Trace::new(),
        }
    }
}
