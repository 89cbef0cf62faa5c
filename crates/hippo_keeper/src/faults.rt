//! Why a call on a keeper failed, and which calls on a keeper in memory are to fail.
use hippo_values::Sequence;
use thiserror::Error;

/// Why a call on a keeper failed.
#[derive(Clone, Copy, Debug, PartialEq, Eq, Error)]
pub enum KeeperFault {
    /// The keeper failed. No further call may be made on it.
    #[error("the keeper failed")]
    Failed,
    /// The allocator refused to allocate.
    #[error("out of memory")]
    Memory,
}

/// A call on a keeper in memory that is to fail.
#[derive(Clone, Copy, PartialEq, Eq)]
pub struct KeeperFail {
    /// The number of the call, counted from 1 over all calls.
    pub call: u64,
    /// Whether an append that fails still keeps its entry.
    pub keeps: bool,
}

pub type KeeperFails = Sequence<KeeperFail>;
