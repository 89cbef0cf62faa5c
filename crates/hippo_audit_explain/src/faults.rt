//! Reasons for not listing denied cells.
ghost use Rattle.std.specs.Prelude.{◌≡◌};
ghost use Rattle.hippo_audit_explain.specs.Listing.{listing_fault};

use hippo_backlog::ReadFault;
use thiserror::Error;

/// Why the cells that were denied to a logged query are not listed.
#[derive(Clone, Copy, Debug, PartialEq, Eq, Error)]
pub enum DenialsFault {
    /// The store was not read, or memory ran out.
    #[error("the past was not read")]
    Read(ReadFault),
    /// There are more cells than the limit.
    #[error("too many cells were denied")]
    TooMany,
}

/// Why the denied cells of rows are not listed.
#[derive(Clone, Copy, Debug, PartialEq, Eq, Error)]
pub enum ListFault {
    #[error("too many cells were denied")]
    TooMany,
    /// Out of memory.
    #[error("out of memory")]
    Memory,
}

/// The fault of listing a logged query's denied cells, from the fault of listing those of its rows.
pub(crate) fn fault_of(fault: ListFault) -> DenialsFault
    ensures { result ≡ listing_fault fault }
{
    match fault {
        ListFault::TooMany => DenialsFault::TooMany,
        ListFault::Memory => DenialsFault::Read(ReadFault::Memory),
    }
}
