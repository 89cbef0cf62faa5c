//! The first virtual tuple that a grouped query needs and an audit has.
ghost use Rattle.std.specs.Prelude.{◌≡◌, IfOk};
ghost use Rattle.hippo_model.specs.declared.query.Form.TheVariants.{Grouped};
ghost use Rattle.hippo_audit_search.specs.Comparing.{HaveRows, needed_between};

use crate::marking::marked_groups;
use hippo_audit_common::common_places;
use hippo_audit_search::{Compared, audit_has_any, first_of, know_order};
use hippo_model::{ChoiceView, Shape, SharedTuple};
use hippo_values::Memory;
use std::alloc::Global;

/// Returns the first virtual tuple that a grouped query (SQL's GROUP BY) needs and an audit has, or
/// `None` if there is none. A virtual tuple is a row of each table in both FROM lists, by its key,
/// in the audit's order. The query needs a tuple if its groups have other rows without the
/// combinations that have the tuple. The tuple must be in a combination of the query's rows that
/// counts and in which every expression of `seen` is a shown cell. It must also be in a combination
/// of the audit's rows of which the audit's condition is true.
///
/// The rows must be those of each side's tables, in the order of FROM. A table that both have must
/// have the same rows on both. The audit must not name a table twice.
///
/// The memory is proportional to the number of groups, apart from what `visit_by_plan` holds. The
/// time is that of the query's own answer, unless no combination of the audit's rows counts.
pub(crate) fn first_needed_by_groups<C: ChoiceView>(
    alloc: Global,
    shape: &Shape,
    compared: &Compared<'_, C>,
) -> Result<Option<SharedTuple>, Memory>
    requires { HaveRows compared.now }
    ensures { IfOk result (λ shared. shared
        ≡ needed_between C.choices (Grouped shape.now) compared.now) }
{
    if !audit_has_any(alloc, compared.audited)? {
        return Ok(None);
    }
    know_order(compared.audited.audit_sets);
    let tables = compared.audited.audit.tables.as_slice();
    let common = common_places(alloc, compared.query.tables.as_slice(), tables)?;
    let groups = marked_groups(
        alloc,
        compared.query,
        shape,
        compared.audited.query_sets,
        &common.query,
        compared.audited.choices,
    )?;
    let candidates = groups.candidates(alloc)?;
    first_of(alloc, candidates, compared)
}
