//! Laws on the rows that match an audit's conditions on one table.
ghost use Rattle.hippo_model_laws.specs.Hits.{NoHitsNoFlags};

/// If no row of one of the audit's tables matches the audit's conditions on that table, then the
/// audit needs no virtual tuple, no virtual tuple serves, no query shares a tuple with the audit,
/// and no query that was asked of these rows is flagged.
pub fn no_hits_no_flags()
    ensures { NoHitsNoFlags }
{}
