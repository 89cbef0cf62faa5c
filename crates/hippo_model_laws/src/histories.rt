//! Laws on valid histories.
ghost use Rattle.hippo_model_laws.specs.Histories.{InvariantHolds, ValidWithOneMore, FrontIsValid};
ghost use Rattle.hippo_model_laws.specs.Histories.{EntryHasItsNumber, EntriesBefore};

/// A property holds for each valid history if it holds for the empty history, and adding an entry
/// that may follow preserves it.
pub fn what_is_kept_holds()
    ensures { InvariantHolds }
{}

/// A history with one more entry is valid exactly when the history is valid and the entry may
/// follow it.
pub fn valid_with_one_more()
    ensures { ValidWithOneMore }
{}

/// A prefix of a valid history is a valid history.
pub fn front_is_valid()
    ensures { FrontIsValid }
{}

/// In a valid history the first entry has number 1, and each other entry has the next number.
pub fn entry_has_its_number()
    ensures { EntryHasItsNumber }
{}

/// The entries before one that may follow a history are that history, whatever entries come after
/// it.
pub fn entries_before()
    ensures { EntriesBefore }
{}
