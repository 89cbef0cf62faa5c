//! Laws on the texts of questions.
ghost use Rattle.hippo_typing_laws.specs.ReadingLaws.{QuestionsReadByThemselves, FoundQuestionsReadByThemselves};

/// If a text is a question by the grammar, the part of it that is the question's select, read on
/// its own, is that select, and means the query that the select means.
pub fn questions_read_by_themselves()
    ensures { QuestionsReadByThemselves }
{}

/// If the readers find a question in a text, in its tokens and as a statement, the part of it that
/// is the question's select, read on its own, is that select, and means the query that the select
/// means.
pub fn found_questions_read_by_themselves()
    ensures { FoundQuestionsReadByThemselves }
{}
