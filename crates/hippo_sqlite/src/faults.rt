//! How an error of `sqlite` becomes a keeper's fault.
ghost use Rattle.std.specs.Prelude.{◌≡◌};
ghost use Rattle.hippo_sqlite.specs.Standings.{fault_named};

use hippo_keeper::KeeperFault;
use sqlite::{Error, ErrorCode};

/// `Memory` if `sqlite` ran out of memory, `Failed` for every other error.
pub(crate) fn fault_of(error: Error) -> KeeperFault
    ensures { result ≡ fault_named error }
{
    match error {
        Error::SqliteFailure(ErrorCode::OutOfMemory) => KeeperFault::Memory,
        _ => KeeperFault::Failed,
    }
}
