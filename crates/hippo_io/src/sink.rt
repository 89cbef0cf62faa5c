//! Where bytes are written.
ghost use Rattle.std.specs.Prelude.{◌≡◌, ℕ, ◌<◌, ◌≤◌, List, Option, length, take, IfOk, OnOk, OnErr};
ghost use Rattle.hippo_io.specs.Faults.{HasRisen};
ghost use Rattle.hippo_io.specs.Told.{Keeps, Appends, AppendsFront};

use crate::source::Failed;

/// Where bytes are written.
pub trait Sink {
    // The bytes written so far, if they are known to the proof.
    ghost written: { Self → Option (List ℕ) };

    // How often a write failed; the count saturates at its largest value.
    ghost faults: { Self → ℕ };

    /// Writes a prefix of the piece and returns its length, which is 0 only if the piece is empty.
    /// A failed write writes nothing. The fault count rises exactly when the write fails.
    fn write(&mut self, piece: &[u8]) -> Result<usize, Failed>
        ensures count { IfOk result (λ n. n ≤ length piece.now) }
        ensures some { IfOk result (λ n. 0 < length piece.now → 0 < n) }
        ensures appended { IfOk result (λ n. Appends (written self.old) (written self.new)
            (take n piece.now)) }
        ensures failed { OnErr result (Keeps (written self.old) (written self.new)) }
        ensures cause { OnErr result (HasRisen (faults self.old) (faults self.new)) }
        ensures unfailed { OnOk result (faults self.new ≡ faults self.old) }
        ensures faults { faults self.old ≤ faults self.new };
}

/// Writes all bytes. If a write fails, only the bytes before it are written.
pub fn write_whole<K: Sink>(sink: &mut K, bytes: &[u8]) -> Result<(), Failed>
    ensures ok { OnOk result (Appends (K.written sink.old) (K.written sink.new) bytes.now) }
    ensures failed { OnErr result (AppendsFront (K.written sink.old) (K.written sink.new)
        bytes.now) }
    ensures cause { OnErr result (HasRisen (K.faults sink.old) (K.faults sink.new)) }
    ensures unfailed { OnOk result (K.faults sink.new ≡ K.faults sink.old) }
    ensures faults { K.faults sink.old ≤ K.faults sink.new }
{
    let mut done = 0;
    while done < bytes.len() {
        done += sink.write(&bytes[done..])?;
    }
    Ok(())
}
