//! Why a history is not loaded.
use thiserror::Error;

/// Why a stored history is not loaded.
#[derive(Clone, Copy, Debug, PartialEq, Eq, Error)]
pub enum LoadFault {
    /// The keeper failed.
    #[error("the keeper failed")]
    Keeper,
    /// The stored history is damaged. The place, counted from 1, is that of the first entry for
    /// which the stored entries up to and including it are those of no valid history.
    #[error("the kept history is damaged")]
    Damaged(u64),
    /// The allocator refused to allocate.
    #[error("out of memory")]
    Memory,
}
