//! Which calls may be made on a keeper, and how many calls have failed.
ghost use Rattle.std.specs.Prelude.{◌≡◌, ◌≤◌};
ghost use Rattle.hippo_keeper.specs.Standings.{new_standing, after_answer, after_start};

use crate::faults::KeeperFault;

/// What is known of the calls made on a keeper so far.
#[derive(Clone, Copy)]
pub struct Standing {
    pub started: bool,
    /// A start ran out of memory.
    pub closed: bool,
    /// A call failed.
    pub spent: bool,
    /// How many calls failed. The count stops at its highest value.
    pub faults: u64,
}

impl Standing {
    /// No call has been made yet.
    pub fn new() -> Standing
        ensures { result ≡ new_standing }
    {
        Standing {
            started: false,
            closed: false,
            spent: false,
            faults: 0,
        }
    }

    /// Counts a failure, and returns the answer unchanged.
    pub fn settle<T>(&mut self, answer: Result<T, KeeperFault>) -> Result<T, KeeperFault>
        ensures same { result ≡ answer }
        ensures counted { self.new ≡ after_answer answer self.old }
        ensures rises { self.old.faults ≤ self.new.faults }
    {
        if let Err(KeeperFault::Failed) = &answer {
            self.faults = self.faults.saturating_add(1);
            self.spent = true;
        }
        answer
    }

    /// Records what a start answered, counts its failure, and returns the answer unchanged.
    pub fn settle_start(&mut self, answer: Result<(), KeeperFault>) -> Result<(), KeeperFault>
        ensures same { result ≡ answer }
        ensures counted { self.new ≡ after_start answer self.old }
        ensures rises { self.old.faults ≤ self.new.faults }
    {
        match answer {
            Ok(()) => self.started = true,
            Err(KeeperFault::Memory) => self.closed = true,
            Err(KeeperFault::Failed) => {}
        }
        self.settle(answer)
    }
}
