//! The tuple that an audit shares with a question that is asked now.
ghost use Rattle.std.specs.Prelude.{◌≡◌, bytes_eq, IfOk};
ghost use Rattle.std.specs.List.{IsDistinct};
ghost use Rattle.hippo_model.specs.Audits.{is_candidate};
ghost use Rattle.hippo_model.specs.Verdicts.{context_of};
ghost use Rattle.hippo_tables.specs.Standing.{AreKeptTables};
ghost use Rattle.hippo_watch.specs.Alarms.{AreOfSome, ServesNow, SharesNext};

use crate::present::tables_exist;
use hippo_audit_job::{Past, in_period, is_exempt, names_all};
use hippo_audit_needs::shared_of;
use hippo_model::{Audit, Pair, Query, SharedTuple};
use hippo_tables::{Tables, schemas_of, sets_of};
use hippo_values::{Memory, Moment};
use std::alloc::Global;

/// A question that is asked now, as the next entry: what is known of the entries before it, the
/// tables that they make, the moment, the purpose and recipient, and the query that the question
/// means.
#[derive(Clone, Copy)]
pub struct AskedNow<'a> {
    pub past: Past<'a>,
    pub tables: &'a Tables,
    pub moment: Moment,
    pub pair: &'a Pair,
    pub query: &'a Query,
}

// Whether a question is asked in an audit's period, is not exempt, and names every audited column.
fn is_candidate(asked: &AskedNow<'_>, audit: &Audit) -> bool
    ensures { result ≡ is_candidate (context_of asked.now.pair.now asked.now.moment)
        asked.now.query.now audit.now }
{
    in_period(audit, asked.moment)
        && !is_exempt(audit, &asked.pair.purpose, &asked.pair.recipient)
        && names_all(asked.query, audit)
}

// The first virtual tuple that serves. All tables of the query and the audit must exist.
fn first_kept(
    alloc: Global,
    asked: &AskedNow<'_>,
    audit: &Audit,
) -> Result<Option<SharedTuple>, Memory>
    requires differ { IsDistinct bytes_eq audit.now.tables }
    requires query { AreKeptTables asked.now.tables.now asked.now.query.now.tables }
    requires audit { AreKeptTables asked.now.tables.now audit.now.tables }
    ensures { IfOk result (ServesNow asked.now audit.now) }
{
    let schemas = schemas_of(alloc, asked.tables, &asked.query.tables)?;
    let rules = asked.past.book.rules_in_force(
        alloc,
        asked.past.count,
        asked.moment,
        &asked.pair.purpose,
        &asked.pair.recipient,
        &schemas,
    )?;
    let query_sets = sets_of(alloc, asked.tables, &asked.query.tables)?;
    let audit_sets = sets_of(alloc, asked.tables, &audit.tables)?;
    let choices = asked.past.book.choices_at(asked.past.count);
    shared_of(
        alloc,
        asked.query,
        audit,
        &rules,
        &query_sets,
        &audit_sets,
        &choices,
    )
}

/// The tuple that an audit shares with a question that is asked now: the first virtual tuple that
/// serves, if the query is a candidate. Returns none exactly when the audit does not flag the
/// question. The audit must name no table twice. Fails when out of memory.
pub(crate) fn alarm(
    alloc: Global,
    asked: &AskedNow<'_>,
    audit: &Audit,
) -> Result<Option<SharedTuple>, Memory>
    requires some { AreOfSome asked.now.tables.now }
    requires differ { IsDistinct bytes_eq audit.now.tables }
    ensures { IfOk result (SharesNext asked.now audit.now) }
{
    if !is_candidate(asked, audit) {
        return Ok(None);
    }
    if !tables_exist(asked.tables, asked.query, audit) {
        return Ok(None);
    }
    first_kept(alloc, asked, audit)
}
