//! What a call of the program asks for.
use hippo_report::Format;
use hippo_values::{Moment, Name, Txt};

/// The setting with which a run begins: how many entries the history may have, and how flags are
/// printed.
#[derive(Clone, Copy, PartialEq, Eq)]
pub struct Setting {
    pub limit: u32,
    pub format: Format,
}

/// A job, with the values that it takes from the command line.
#[derive(Drop)]
pub enum Job {
    /// Reads lines and replies to each.
    Run(Setting),
    /// Reads records of a table, and inserts all of them at one moment.
    Load {
        setting: Setting,
        table: Name,
        moment: Moment,
    },
    /// Counts the stored entries.
    Check,
    /// Runs a built-in script, of a size and with a number, over a store in memory.
    Drill {
        size: u32,
        number: u32,
    },
}

/// A job, and the name of its store. The empty name is a store in memory.
#[derive(Drop)]
pub struct Call {
    pub store: Txt,
    pub job: Job,
}
