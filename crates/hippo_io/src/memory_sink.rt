//! A sink in memory that exposes what was written, and fails at chosen calls.
ghost use Rattle.std.specs.Prelude.{◌≡◌, ◌<◌, ◌≤◌, [], Some, length, take, IfOk, OnOk, OnErr, is_err};
ghost use Rattle.hippo_io.specs.Faults.{HasRisen};
ghost use Rattle.hippo_io.specs.Playback.{new_tally, write_fails, tally_after};
ghost use Rattle.hippo_io.specs.Told.{Keeps, Appends};

use crate::counts::CallCounter;
use crate::sink::Sink;
use crate::source::Failed;
use hippo_values::{Calls, Memory};
use std::alloc::Global;
use std::marker::Model;

/// A sink that keeps bytes in memory and fails at chosen calls. All its memory is allocated when it
/// is made.
#[derive(Drop)]
pub struct MemorySink {
    bytes: Vec<u8>,
    room: usize,
    counter: CallCounter,
}

impl Model for MemorySink {
    ghost use Rattle.std.specs.Prelude.{◌≤◌, vec_len, vec_capacity};
    ghost use Rattle.hippo_io.specs.Playback.{Recording};

    ghost Value = { Recording };

    ghost view = { λ a. record { written = a.bytes.items; room = a.room; tally = a.counter } };

    ghost invariant = { λ a. (vec_len a.bytes ≤ a.room) × (a.room ≤ vec_capacity a.bytes) };
}

impl MemorySink {
    /// An empty sink with room for `room` bytes. The calls of `write` whose numbers, counted from
    /// 1, are in `failing` fail, and so does a write that does not fit. Fails only when out of
    /// memory.
    pub fn new(alloc: Global, room: usize, failing: Calls) -> Result<MemorySink, Memory>
        ensures written { IfOk result (λ sink. sink.written ≡ []) }
        ensures room { IfOk result (λ sink. sink.room ≡ room) }
        ensures tally { IfOk result (λ sink. sink.tally ≡ new_tally failing) }
    {
        Ok(MemorySink {
            bytes: Vec::with_capacity(alloc, room)?,
            room,
            counter: CallCounter::new(failing),
        })
    }

    /// The bytes written so far.
    pub fn bytes(&self) -> &[u8]
        ensures { result.now ≡ self.now.written }
    {
        self.bytes.as_slice()
    }
}

impl Sink for MemorySink {
    ghost written = { λ sink. Some sink.written };

    ghost faults = { λ sink. sink.tally.faults };

    fn write(&mut self, piece: &[u8]) -> Result<usize, Failed>
        ensures count { IfOk result (λ n. n ≤ length piece.now) }
        ensures some { IfOk result (λ n. 0 < length piece.now → 0 < n) }
        ensures appended { IfOk result
            (λ n. Appends (Some self.old.written) (Some self.new.written) (take n piece.now)) }
        ensures failed { OnErr result (Keeps (Some self.old.written) (Some self.new.written)) }
        ensures cause { OnErr result (HasRisen self.old.tally.faults self.new.tally.faults) }
        ensures unfailed { OnOk result (self.new.tally.faults ≡ self.old.tally.faults) }
        ensures faults { self.old.tally.faults ≤ self.new.tally.faults }
        ensures fails { is_err result ≡ write_fails self.old (length piece.now) }
        ensures all { IfOk result (λ n. n ≡ length piece.now) }
        ensures room { self.new.room ≡ self.old.room }
        ensures tally { self.new.tally ≡ tally_after (is_err result) self.old.tally }
    {
        let fits = piece.len() <= self.room - self.bytes.len();
        if self.counter.begin_call() || !fits {
            self.counter.count_fault();
            return Err(Failed);
        }
        self.bytes.extend_from_slice(piece).unwrap();
        Ok(piece.len())
    }
}
