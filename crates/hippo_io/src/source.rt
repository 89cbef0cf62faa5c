//! Where bytes are read.
ghost use Rattle.std.specs.Prelude.{◌≡◌, ℕ, ◌<◌, ◌≤◌, ◌&&◌, ◌||◌, ◌==◌, nat_lt, List, Option, length, IfOk, OnOk, OnErr};
ghost use Rattle.hippo_io.specs.Faults.{HasRisen};
ghost use Rattle.hippo_io.specs.Inputs.{ReadSoFar, after_read};
ghost use Rattle.hippo_io.specs.Told.{Keeps, Takes, IsAtEnd};

/// A read or a write failed.
#[derive(Clone, Copy, Debug, PartialEq, Eq)]
pub struct Failed;

/// Where bytes are read.
pub trait Source {
    // The bytes still to come, if they are known to the proof.
    ghost left: { Self → Option (List ℕ) };

    // What its reads have returned so far. This is always known.
    ghost reads: { Self → ReadSoFar };

    // How often a read failed; the count saturates at its largest value.
    ghost faults: { Self → ℕ };

    /// Reads the next bytes into the front of the buffer and returns how many; 0 only at the end or
    /// if the buffer has length 0. The rest of the buffer may hold anything. A failed read takes no
    /// bytes. The fault count rises exactly when the read fails.
    fn read(&mut self, buffer: &mut [u8]) -> Result<usize, Failed>
        ensures count { IfOk result (λ n. n ≤ length buffer.old) }
        ensures taken { IfOk result (λ n. Takes (left self.old) (left self.new) n buffer.new) }
        ensures end { IfOk result (λ n. n ≡ 0 → 0 < length buffer.old → IsAtEnd (left self.old)) }
        ensures failed { OnErr result (Keeps (left self.old) (left self.new)) }
        ensures returned { IfOk result (λ n. reads self.new ≡ after_read (reads self.old) n buffer.new) }
        ensures unread { OnErr result (reads self.new ≡ reads self.old) }
        ensures cause { OnErr result (HasRisen (faults self.old) (faults self.new)) }
        ensures unfailed { OnOk result (faults self.new ≡ faults self.old) }
        ensures faults { faults self.old ≤ faults self.new };
}

// Whether a source has ended once a read has returned `n` bytes in a buffer.
pub(crate) fn has_ended(ended: bool, n: usize, buffer: &[u8]) -> bool
    ensures { result ≡ (ended || (n == 0 && nat_lt 0 (length buffer.now))) }
{
    ended || n == 0 && !buffer.is_empty()
}
