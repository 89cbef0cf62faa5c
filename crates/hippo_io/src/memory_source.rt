//! A source in memory that exposes the bytes that are left, and fails at chosen calls.
ghost use Rattle.std.specs.Prelude.{◌≡◌, ◌<◌, ◌≤◌, Some, length, min, take, IfOk, OnOk, OnErr, is_err};
ghost use Rattle.hippo_io.specs.Faults.{HasRisen};
ghost use Rattle.hippo_io.specs.Inputs.{after_read, unread};
ghost use Rattle.hippo_io.specs.Playback.{new_tally, fails_next, tally_after};
ghost use Rattle.hippo_io.specs.Told.{Keeps, Takes, IsAtEnd};

use crate::counts::CallCounter;
use crate::source::{Failed, Source, has_ended};
use hippo_values::{Bytes, Calls};
use std::marker::Model;

/// A source that reads from memory and fails at chosen calls.
#[derive(Drop)]
pub struct MemorySource {
    bytes: Bytes,
    place: usize,
    ended: bool,
    counter: CallCounter,
}

impl Model for MemorySource {
    ghost use Rattle.std.specs.Prelude.{◌≤◌, length, take, drop};
    ghost use Rattle.hippo_io.specs.Playback.{Playback};

    ghost Value = { Playback };

    ghost view = { λ a. record {
      left = drop a.place a.bytes;
      reads = record { bytes = take a.place a.bytes; ended = a.ended };
      tally = a.counter;
    } };

    ghost invariant = { λ a. a.place ≤ length a.bytes };
}

impl MemorySource {
    /// A source of these bytes. The calls of `read` whose numbers, counted from 1, are in `failing`
    /// fail.
    pub fn new(bytes: Bytes, failing: Calls) -> MemorySource
        ensures left { result.left ≡ bytes }
        ensures reads { result.reads ≡ unread }
        ensures tally { result.tally ≡ new_tally failing }
    {
        MemorySource {
            bytes,
            place: 0,
            ended: false,
            counter: CallCounter::new(failing),
        }
    }
}

// Copies as many bytes as fit, and returns how many.
fn copy_front(from: &[u8], to: &mut [u8]) -> usize
    ensures count { result ≡ min (length from.now) (length to.old) }
    ensures bytes { take result to.new ≡ take result from.now }
{
    let n = from.len().min(to.len());
    to[..n].copy_from_slice(&from[..n]);
    n
}

impl Source for MemorySource {
    ghost left = { λ source. Some source.left };

    ghost reads = { λ source. source.reads };

    ghost faults = { λ source. source.tally.faults };

    fn read(&mut self, buffer: &mut [u8]) -> Result<usize, Failed>
        ensures count { IfOk result (λ n. n ≤ length buffer.old) }
        ensures taken { IfOk result (λ n. Takes (Some self.old.left) (Some self.new.left) n
            buffer.new) }
        ensures end { IfOk result (λ n. n ≡ 0 → 0 < length buffer.old
            → IsAtEnd (Some self.old.left)) }
        ensures failed { OnErr result (Keeps (Some self.old.left) (Some self.new.left)) }
        ensures returned { IfOk result (λ n. self.new.reads ≡ after_read self.old.reads n buffer.new) }
        ensures unread { OnErr result (self.new.reads ≡ self.old.reads) }
        ensures cause { OnErr result (HasRisen self.old.tally.faults self.new.tally.faults) }
        ensures unfailed { OnOk result (self.new.tally.faults ≡ self.old.tally.faults) }
        ensures faults { self.old.tally.faults ≤ self.new.tally.faults }
        ensures fails { is_err result ≡ fails_next self.old.tally }
        ensures tally { self.new.tally ≡ tally_after (is_err result) self.old.tally }
    {
        if self.counter.begin_call() {
            self.counter.count_fault();
            return Err(Failed);
        }
        let left = &self.bytes.as_slice()[self.place..];
        let n = copy_front(left, buffer);
        self.place += n;
        self.ended = has_ended(self.ended, n, buffer);
        Ok(n)
    }
}
