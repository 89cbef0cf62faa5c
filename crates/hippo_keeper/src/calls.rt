//! The calls made on a keeper in memory.
ghost use Rattle.std.specs.Prelude.{◌≡◌, []};
ghost use Rattle.hippo_keeper.specs.MemoryKeeping.{no_calls, next_failure, one_more_call};

use crate::faults::KeeperFails;
use crate::standing::Standing;

/// The calls made on a keeper so far, and the calls that are to fail.
#[derive(Drop)]
pub(crate) struct KeeperCalls {
    failing: KeeperFails,
    made: u64,
    pub(crate) standing: Standing,
}

impl KeeperCalls {
    /// No call has been made yet.
    pub(crate) fn new(failing: KeeperFails) -> KeeperCalls
        ensures { result ≡ no_calls failing }
    {
        KeeperCalls {
            failing,
            made: 0,
            standing: Standing::new(),
        }
    }

    /// Counts a call. Returns `Some` when the call is to fail; the flag says whether a failing
    /// append still keeps its entry.
    pub(crate) fn begin_call(&mut self) -> Option<bool>
        ensures failure { result ≡ next_failure self.old }
        ensures counted { self.new ≡ one_more_call self.old }
    {
        self.made = self.made.saturating_add(1);
        let number = self.made;
        let failure = self
            .failing
            .as_slice()
            .iter()
            .find(|fail| fail.call == number);
        failure.map(|fail| fail.keeps)
    }

    /// Empties the list of failing calls and returns it.
    pub(crate) fn cleared(self) -> KeeperFails
        ensures { result ≡ [] }
    {
        let mut failing = self.failing;
        failing.clear();
        failing
    }
}
