//! Reasons for not reading the past.
ghost use Rattle.std.specs.Prelude.{◌≡◌};
ghost use Rattle.hippo_backlog.specs.Calls.{read_fault};

use hippo_keeper::KeeperFault;
use thiserror::Error;

/// Why past entries are not read, or not applied.
#[derive(Clone, Copy, Debug, PartialEq, Eq, Error)]
pub enum ReadFault {
    /// The keeper failed.
    #[error("the keeper failed")]
    Keeper,
    /// An entry that was handed over, with this number, does not fit the request.
    #[error("an entry does not fit what was asked for")]
    Damaged(u64),
    /// Out of memory.
    #[error("out of memory")]
    Memory,
}

/// A keeper's fault, as the fault of a read.
pub fn fault_of(fault: KeeperFault) -> ReadFault
    ensures { result ≡ read_fault fault }
{
    match fault {
        KeeperFault::Failed => ReadFault::Keeper,
        KeeperFault::Memory => ReadFault::Memory,
    }
}
