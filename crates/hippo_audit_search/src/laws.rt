//! Laws that relate tuples shared over given rows to the definitions over a history.
ghost use Rattle.hippo_audit_search.specs.HistoryLaws.{TuplesAreThoseOfHistory, AuditNeedsWhatItHas};

use hippo_model_laws::audits::audit_needs;

/// Over the rows of a history's tables, the virtual tuples are those of the history.
pub fn tuples_are_those_of_history()
    ensures { TuplesAreThoseOfHistory }
{}

/// Over the rows of a history's tables, an audit expression needs a virtual tuple exactly when its
/// condition is true of some combination of its rows that has the tuple.
pub fn audit_needs_what_it_has()
    ensures { AuditNeedsWhatItHas }
{
    audit_needs();
}
