//! Why a line was not carried out.
use thiserror::Error;

/// Why a line has no reply, or why its reply was not written in full.
#[derive(Clone, Copy, Debug, PartialEq, Eq, Error)]
pub enum EngineFault {
    /// The keeper failed.
    #[error("the keeper failed")]
    Keeper,
    /// The keeper returned something other than the entry that it kept with this number.
    #[error("the kept history is damaged")]
    Damaged(u64),
    /// The sink failed.
    #[error("the reply could not be written")]
    Write,
}
