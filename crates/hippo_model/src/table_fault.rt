//! Why a row cannot be changed.

/// Why a change does not fit the existing rows.
#[derive(Drop)]
pub enum TableFault {
    /// A row with the inserted key exists. The number is that of the last entry that names the key.
    KeyThere(u64),
    /// No row has the key to update or delete.
    KeyMissing,
    /// Out of memory.
    Memory,
}
