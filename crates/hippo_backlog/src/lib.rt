//! The rows of a table as they were after any number of entries, computed from the versions that a
//! keeper hands over.
#![tactic(auto)]

mod ahead;
mod changes;
mod faults;
mod laws;
mod snapshots;
mod versions;

pub use ahead::Ahead;
pub use faults::{ReadFault, fault_of};
pub use laws::{rows_are_those_of_versions, schemas_last, versions_fit};
pub use snapshots::snapshot;
pub use versions::Versions;
