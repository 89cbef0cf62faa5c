//! Laws about audit jobs, and about what stays the same when entries are added to a history.
ghost use Rattle.hippo_audit_job.specs.JobLaws.{MeaningsLast, QuestionsMean, StretchesLast, NoQuestionsNoFlags};
ghost use Rattle.hippo_audit_job.specs.JobLaws.{UnrefusedAreAudits};

/// A text that means a query after some entries means the same query after more entries.
pub fn meanings_last()
    ensures { MeaningsLast }
{}

/// In a valid history the text of a logged query means some query, and the same one at its own time
/// as now.
pub fn questions_mean()
    ensures { QuestionsMean }
{}

/// The flags of a range of entry numbers of a valid history stay the same when entries are added.
pub fn stretches_last()
    ensures { StretchesLast }
{}

/// A range of entry numbers without a logged query in the audit's period has no flags.
pub fn no_questions_no_flags()
    ensures { NoQuestionsNoFlags }
{}

/// An audit expression that is not refused is an audit whose tables are distinct and created, and
/// whose columns belong to them. The same is true in each longer valid history.
pub fn unrefused_are_audits()
    ensures { UnrefusedAreAudits }
{}
