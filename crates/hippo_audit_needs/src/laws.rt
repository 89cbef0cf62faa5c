//! Laws about shared tuples.
ghost use Rattle.hippo_audit_needs.specs.SharedLaws.{QueryNeedsOverRows, QueryNeedsWhatItHas, NeededServesFirst, SharedServesFirst};

use hippo_audit_search::laws::{audit_needs_what_it_has, tuples_are_those_of_history};
use hippo_rewrite::laws::{columns_show_verdicts, rewriting_answers};

/// A query of any form needs a virtual tuple exactly when the answer of its rewritten query changes
/// without the combinations that have the tuple. The rewritten query is that of the rules in force,
/// over the rows of the query's tables.
pub fn query_needs_over_rows()
    ensures { QueryNeedsOverRows }
{
    rewriting_answers();
}

/// A plain query needs a virtual tuple exactly when some combination has the tuple and makes a row
/// of the rewritten query. The rewritten query is that of the rules in force, over the rows of the
/// query's tables.
pub fn query_needs_what_it_has()
    ensures { QueryNeedsWhatItHas }
{
    query_needs_over_rows();
}

/// Over the rows of a valid history, with the query rewritten by the rules in force, the first
/// tuple that the query needs and the audit has is the first virtual tuple that serves. A tuple
/// serves if both need it and, when the audit asks for cells that were shown, its audited cells
/// were shown. The query must have each table that an audited column belongs to.
pub fn needed_serves_first()
    ensures { NeededServesFirst }
{
    query_needs_over_rows();
    audit_needs_what_it_has();
    tuples_are_those_of_history();
    columns_show_verdicts();
}

/// The first tuple that a plain query and an audit share is the first virtual tuple that serves, as
/// in the law above.
pub fn shared_serves_first()
    ensures { SharedServesFirst }
{
    needed_serves_first();
}
