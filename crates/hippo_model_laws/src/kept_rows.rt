//! Laws on kept rows.
ghost use Rattle.hippo_model_laws.specs.KeptRows.{ChangeIsThatOfHistory, OthersLeaveRows};

/// Applying a fitting version to the rows kept after a history gives the rows kept after the
/// history with that version. A version fits if it is an INSERT, UPDATE or DELETE of the table that
/// may follow the history. Applying any other entry gives nothing.
pub fn change_is_that_of_history()
    ensures { ChangeIsThatOfHistory }
{}

/// The kept rows of a table stay the same when an entry is added that is not an INSERT, UPDATE or
/// DELETE, or that is one of another table.
pub fn others_leave_rows()
    ensures { OthersLeaveRows }
{}
