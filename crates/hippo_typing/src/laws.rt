//! Laws on the names of a history, and on what statements mean after some entries. Each law is the
//! contract of a function that does nothing.
ghost use Rattle.hippo_typing.specs.ResolutionLaws.{SelectsKeepMeaning, AuditsKeepMeaning, NamesGrow, ValidNames, EntriesCreateAnew};

/// A select that is not refused means the same query after more entries.
pub fn selects_last()
    ensures { SelectsKeepMeaning }
{}

/// An audit expression that is not refused means the same audit after more entries.
pub fn audits_last()
    ensures { AuditsKeepMeaning }
{}

/// The names of a history are those of the history before its last entry, with what that entry
/// creates.
pub fn names_grow()
    ensures { NamesGrow }
{}

/// In a valid history, a catalog look-up finds what the history says of the name.
pub fn names_are_those_of_a_valid_history()
    ensures { ValidNames }
{}

/// An entry that may follow a valid history creates no name that already exists.
pub fn entries_create_anew()
    ensures { EntriesCreateAnew }
{}
