//! Laws on audits and denials.
ghost use Rattle.hippo_model_laws.specs.Audits.{FlagsLast, DenialsLast};
ghost use Rattle.hippo_model_laws.specs.Needs.{PlainQueryNeeds, AuditNeeds, BothNeeds};

/// The shared tuple of an entry of a valid history, and whether the entry is flagged, stay the same
/// when later entries are added.
pub fn flags_last()
    ensures { FlagsLast }
{}

/// The cells that were denied to an entry of a valid history stay the same when later entries are
/// added.
pub fn denials_last()
    ensures { DenialsLast }
{}

/// A plain query needs a virtual tuple exactly when its condition is true of some combination of
/// its view rows that has the tuple.
pub fn plain_query_needs()
    ensures { PlainQueryNeeds }
{}

/// An audit expression needs a virtual tuple exactly when its condition is true of some combination
/// of unmasked rows that has the tuple.
pub fn audit_needs()
    ensures { AuditNeeds }
{}

/// A plain query and an audit expression both need a virtual tuple exactly when two combinations
/// with the tuple's keys exist: one of the query's view rows, of which the query's condition is
/// true, and one of the audit's unmasked rows, of which the audit's condition is true.
pub fn both_needs()
    ensures { BothNeeds }
{
    plain_query_needs();
    audit_needs();
}
