//! Laws on answers.
ghost use Rattle.hippo_model_laws.specs.Answers.{EqualViews};

/// If the views of a query's tables are equal in two histories and contexts, then the query's
/// answers are equal, whatever the entries, purposes, recipients and moments are. So an answer
/// depends on a denied cell only through the view.
pub fn equal_views()
    ensures { EqualViews }
{}
