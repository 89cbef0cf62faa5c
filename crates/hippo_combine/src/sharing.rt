//! What a query and an audit share over the held rows.
ghost use Rattle.std.specs.Prelude.{◌≡◌, ◌&&◌, bytes_eq, take, IfOk};
ghost use Rattle.std.specs.List.{IsDistinct};
ghost use Rattle.hippo_model.specs.Terms.{History};
ghost use Rattle.hippo_audit_job.specs.Examining.{IsServing};
ghost use Rattle.hippo_combine.specs.Held.{are_held};
ghost use Rattle.hippo_combine.specs.Sharing.{HoldsBoth};

use crate::asked::rules_asked;
use crate::held::{have_rows, sets_of, tables_of};
use hippo_audit_needs::shared_of;
use hippo_intervals::LiveRows;
use hippo_model::{Audit, Entry, Query, SharedTuple};
use hippo_policy::PolicyBook;
use hippo_values::Memory;
use std::alloc::Global;

// Whether each table of an audit and of a query is held and has rows.
fn have_all_rows(tables: &[LiveRows], query: &Query, audit: &Audit) -> bool
    ensures { result ≡ (are_held tables.now audit.now.tables
        && are_held tables.now query.now.tables) }
{
    have_rows(tables, audit.tables.as_slice()) && have_rows(tables, query.tables.as_slice())
}

/// Returns the first virtual tuple that serves, for a logged query with this meaning and an audit,
/// over the rows before the entry. `None` if a table has no rows.
pub(crate) fn shared_with(
    alloc: Global,
    tables: &[LiveRows],
    book: &PolicyBook,
    number: u64,
    entry: &Entry,
    query: &Query,
    audit: &Audit,
) -> Result<Option<SharedTuple>, Memory>
    requires differ { IsDistinct bytes_eq audit.now.tables }
    ensures { IfOk result (λ shared. (history : History)
        → HoldsBoth book.now tables.now number history query.now audit.now
        → IsServing (take number history) audit.now entry.now query.now shared) }
{
    if !have_all_rows(tables, query, audit) {
        return Ok(None);
    }
    let lent = tables_of(alloc, tables, query.tables.as_slice())?;
    let found = rules_asked(alloc, book, number, entry, &lent.schemas)?;
    let Some(rules) = found else {
        return Ok(None);
    };
    let audit_sets = sets_of(alloc, tables, audit.tables.as_slice())?;
    let choices = book.choices_at(number);
    shared_of(
        alloc,
        query,
        audit,
        &rules,
        &lent.sets,
        &audit_sets,
        &choices,
    )
}
