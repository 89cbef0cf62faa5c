//! Laws on scripts: the script of a history makes the history again.
ghost use Rattle.hippo_history_laws.specs.ScriptLaws.{ScriptsAreLines, RunsBeginFree, ScriptsMakeHistories, ScriptsRunAgain, QuestionsAreBare};

/// The text that is shown as a script consists of script lines, each with its line feed: the lines
/// of the entries that are asked for.
pub fn scripts_are_lines()
    ensures { ScriptsAreLines }
{}

/// Session 1 is free in the world in which a run begins, whichever entries are to be made.
pub fn runs_begin_free()
    ensures { RunsBeginFree }
{}

/// The lines of a valid history's script make the history again under the rules. This holds if each
/// entry is shown as a statement, or is a question whose text is bare. The run must begin with no
/// entry, with room for all of them, and no later than the first of them. If there is a question,
/// nobody may be logged in at session 1. The three lines of a question log its user in, ask the
/// question and log the user out: they add only the question's entry, and leave the world as it
/// was.
pub fn scripts_make_histories()
    ensures { ScriptsMakeHistories }
{}

/// If all entries are asked for and no line of the script is longer than a line may be, the text
/// that is shown is cut into exactly these lines. So it makes the history again.
pub fn scripts_run_again()
    ensures { ScriptsRunAgain }
{}

/// The text of a question that is cut from a line without a line feed is bare. This covers the text
/// of each question that a run stores.
pub fn questions_are_bare()
    ensures { QuestionsAreBare }
{}
