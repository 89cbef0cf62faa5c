//! Where the history is stored: the trait of every keeper, and a keeper in memory.
#![tactic(auto)]

mod calls;
mod faults;
mod head;
mod keeper;
mod memory_keeper;
mod page;
mod pages;
mod selection;
mod standing;
mod steps;

pub use faults::{KeeperFail, KeeperFails, KeeperFault};
pub use keeper::{CountedKeeper, Keeper};
pub use memory_keeper::MemoryKeeper;
pub use selection::{ReadQuery, ReadResult, Selection, counted};
pub use standing::Standing;
pub use steps::Steps;
