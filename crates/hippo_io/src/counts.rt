//! Fault counts, and the lists of calls that must fail.
ghost use Rattle.std.specs.Prelude.{◌≡◌, ◌≤◌};
ghost use Rattle.hippo_io.specs.Faults.{next_count};
ghost use Rattle.hippo_io.specs.Playback.{new_tally, fails_next, after_call, after_fault};

use hippo_values::Calls;
use std::marker::Model;

/// Counts calls and faults, and knows the numbers of the calls that must fail.
#[derive(Drop)]
pub(crate) struct CallCounter {
    failing: Calls,
    made: u64,
    faults: u64,
}

impl Model for CallCounter {
    ghost use Rattle.hippo_io.specs.Playback.{Tally};

    ghost Value = { Tally };

    ghost view = { λ a. record { failing = a.failing; made = a.made; faults = a.faults } };
}

// Adds one to a count, which saturates at its largest value.
pub(crate) fn one_more(count: u64) -> u64
    ensures { result ≡ next_count count }
{
    count.saturating_add(1)
}

impl CallCounter {
    pub(crate) fn new(failing: Calls) -> CallCounter
        ensures { result ≡ new_tally failing }
    {
        CallCounter {
            failing,
            made: 0,
            faults: 0,
        }
    }

    /// Counts a call and returns whether it must fail.
    pub(crate) fn begin_call(&mut self) -> bool
        ensures fails { result ≡ fails_next self.old }
        ensures counted { self.new ≡ after_call self.old }
    {
        self.made = one_more(self.made);
        let number = self.made;
        self.failing.as_slice().iter().any(|call| *call == number)
    }

    pub(crate) fn count_fault(&mut self)
        ensures counted { self.new ≡ after_fault self.old }
        ensures rises { self.old.faults ≤ self.new.faults }
    {
        self.faults = one_more(self.faults);
    }
}
