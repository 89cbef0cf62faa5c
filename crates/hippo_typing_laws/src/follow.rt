//! Laws on the entries that statements make.
ghost use Rattle.hippo_typing_laws.specs.CommandLaws.{CommandsAreWritten};
ghost use Rattle.hippo_typing_laws.specs.FollowingLaws.{ChangesMayFollow};
ghost use Rattle.hippo_typing_laws.specs.QuestionLaws.{QuestionsMayFollow};
ghost use Rattle.hippo_typing_laws.specs.WrittenLaws.{StatementsAreWritten, TokensAreTyped};

/// If a changing statement passes its checks, its entry may follow the history: a valid history
/// stays valid, and nothing has to be tested again.
pub fn changes_may_follow()
    ensures { ChangesMayFollow }
{}

/// If a question passes its checks, its entry may follow the history: its text, read on its own, is
/// the question, so it means a query.
pub fn questions_may_follow()
    ensures { QuestionsMayFollow }
{}

/// What the grammar finds in tokens is well formed: names are in lower case, lists have members,
/// values fit their types, and days are within their limits.
pub fn statements_are_written()
    ensures { StatementsAreWritten }
{}

/// What each token of a text says fits its type: a name is in lower case, a number has 64 bits, a
/// text is UTF-8, and a day lies in the years 0001 to 9999.
pub fn tokens_are_typed()
    ensures { TokensAreTyped }
{}

/// The statement that a line commands is well formed, and is part of a UTF-8 text that is shorter
/// than the line. If it is a question, its part of that text can be read on its own.
pub fn commands_are_written()
    ensures { CommandsAreWritten }
{}
