//! Audit expressions.
ghost use Rattle.std.specs.Prelude.{◌≡◌, flat_map, unwrap_or, Option};
ghost use Rattle.hippo_values.specs.Moments.{first_moment};
ghost use Rattle.hippo_values.specs.declared.moments.Moment.{Moment as Second};
ghost use Rattle.hippo_model.specs.declared.name_fault.NameFault.TheVariants.{PeriodBack};
ghost use Rattle.hippo_typing_catalog.specs.declared.period.Period.{Period as PeriodEnds};
ghost use Rattle.hippo_typing_catalog.specs.Catalogs.{schemas_of};
ghost use Rattle.hippo_typing_catalog.specs.Refusals.{Resolves, fault_if, unknown_pair};
ghost use Rattle.hippo_typing_catalog.specs.AuditExpressions.{goes_back, IsMomentIn, IsPeriodOf};
ghost use Rattle.hippo_typing_catalog.specs.AuditExpressions.{audit_parts_refused, period_refused, audit_refused, audit_of};
ghost use Rattle.hippo_typing.specs.FoundAudits.{tables_refused, audit_columns_refused, audit_found};
ghost use Rattle.hippo_typing.specs.FoundAudits.{judged_refused, head_of_audit};

use crate::conditions::found_condition;
use crate::pairs::paired;
use crate::parts::check_count;
use crate::tables::tables_of;
use crate::written::found_each;
use hippo_model::{Audit, CondOf, NameFault, Names, Operand, Pairs, Refs};
use hippo_stmt_ast::RawAudit;
use hippo_typing_catalog::{
    Catalog, Period, StatementTables, check_kinds, check_pair, check_repeats, check_texts,
};
use hippo_values::{Duplicate, FROM_LIMIT, ITEM_LIMIT, Moment, PAIR_LIMIT, Txt};
use hippo_values_text::read_moment;
use std::alloc::Global;

/// An audit expression with its columns resolved.
#[derive(Drop)]
pub struct FoundAudit {
    columns: Refs,
    cond: CondOf<Operand>,
}

/// The parts of an audit expression other than its columns and its condition.
#[derive(Drop)]
pub struct AuditHead {
    from: Moment,
    to: Moment,
    exempt: Pairs,
    tables: Names,
}

// The moment that a text writes, if it writes one.
fn read_end(text: &Txt) -> Option<Moment>
    ensures is { IsMomentIn text.now result }
    ensures only { (other : Option Second) → IsMomentIn text.now other → other ≡ result }
{
    read_moment(text.as_str())
}

// The ends of the period. An end is none if its text is not a moment.
fn read_period(audit: &RawAudit) -> Period
    ensures is { IsPeriodOf audit.now result }
    ensures only { (other : PeriodEnds) → IsPeriodOf audit.now other → other ≡ result }
{
    Period {
        from: read_end(&audit.from),
        to: read_end(&audit.to),
    }
}

// Checks that a period does not end before it begins.
fn check_ends(from: Moment, to: Moment) -> Result<(Moment, Moment), NameFault>
    ensures { Resolves (fault_if (goes_back from to) PeriodBack) (from, to) result }
{
    if from <= to {
        return Ok((from, to));
    }
    Err(NameFault::PeriodBack)
}

// The two ends of a period. Both texts must be moments, and the end must not be before the
// beginning.
fn check_period(period: &Period) -> Result<(Moment, Moment), NameFault>
    ensures { Resolves (period_refused period.now)
        (unwrap_or period.now.from first_moment, unwrap_or period.now.to first_moment) result }
{
    match (period.from, period.to) {
        (Some(from), Some(to)) => check_ends(from, to),
        _ => Err(NameFault::BadMoment),
    }
}

fn check_parts(audit: &RawAudit) -> Result<(), NameFault>
    ensures { Resolves (audit_parts_refused audit.now) tt result }
{
    check_count(FROM_LIMIT, audit.tables.len())?;
    check_count(ITEM_LIMIT, audit.columns.len())?;
    check_count(PAIR_LIMIT, audit.exempt.len())
}

// Checks that the purposes and recipients of exempt pairs exist.
fn check_pairs(alloc: Global, catalog: &Catalog, pairs: &Pairs) -> Result<(), NameFault>
    ensures { Resolves (flat_map (λ pair. unknown_pair catalog.now.names pair.purpose
        pair.recipient) pairs.now)
        tt result }
{
    for pair in pairs.as_slice() {
        check_pair(alloc, catalog, &pair.purpose, &pair.recipient)?;
    }
    Ok(())
}

// The tables of an audit. Each must exist and be named once. Also checks the exempt pairs.
fn audit_tables<'a>(
    alloc: Global,
    catalog: &'a Catalog,
    audit: &RawAudit,
) -> Result<StatementTables<'a>, NameFault>
    ensures { Resolves (tables_refused catalog.now.names audit.now)
        (schemas_of catalog.now.names audit.now.tables) result }
{
    let tables = tables_of(alloc, catalog, audit.tables.as_slice())?;
    check_pairs(alloc, catalog, &audit.exempt)?;
    check_repeats(alloc, audit.tables.as_slice())?;
    Ok(tables)
}

// An audit with its columns resolved. Each column must belong to exactly one of the audit's tables.
fn found_audit(
    alloc: Global,
    tables: &StatementTables<'_>,
    audit: &RawAudit,
) -> Result<FoundAudit, NameFault>
    ensures { Resolves (audit_columns_refused tables.now audit.now)
        (audit_found tables.now audit.now) result }
{
    let columns = found_each(alloc, tables, audit.columns.as_slice())?;
    let cond = found_condition(alloc, tables, &audit.cond)?;
    Ok(FoundAudit { columns, cond })
}

// The parts of an audit other than its columns and its condition, if it is not refused.
fn checked_audit(
    alloc: Global,
    tables: &StatementTables<'_>,
    audit: &RawAudit,
    cond: &CondOf<Operand>,
    period: &Period,
) -> Result<AuditHead, NameFault>
    ensures { Resolves (judged_refused tables.now audit.now cond.now period.now)
        (head_of_audit audit.now period.now) result }
{
    check_kinds(tables, cond)?;
    check_texts(cond)?;
    check_parts(audit)?;
    let (from, to) = check_period(period)?;
    let exempt = audit.exempt.copy(alloc)?;
    let tables = audit.tables.copy(alloc)?;
    Ok(AuditHead {
        from,
        to,
        exempt,
        tables,
    })
}

fn audit_of(found: FoundAudit, head: AuditHead, shown: bool) -> Audit
    ensures { result ≡ record {
      from = head.from;
      to = head.to;
      exempt = head.exempt;
      shown = shown;
      columns = found.columns;
      tables = head.tables;
      cond = found.cond;
    } }
{
    Audit {
        from: head.from,
        to: head.to,
        exempt: head.exempt,
        shown,
        columns: found.columns,
        tables: head.tables,
        cond: found.cond,
    }
}

// Resolves an audit whose period has been read.
fn resolve_over(
    alloc: Global,
    catalog: &Catalog,
    audit: &RawAudit,
    period: &Period,
) -> Result<Audit, NameFault>
    ensures { Resolves (audit_refused catalog.now.names period.now audit.now)
        (audit_of catalog.now.names period.now audit.now) result }
{
    let tables = audit_tables(alloc, catalog, audit)?;
    let found = found_audit(alloc, &tables, audit)?;
    let head = checked_audit(alloc, &tables, audit, &found.cond, period);
    let (found, head) = paired(found, head)?;
    Ok(audit_of(found, head, audit.shown))
}

/// The audit that an audit expression means, or why it is refused. Each of its columns is resolved
/// to one table of the FROM list. The ends of its period are the moments that its texts write.
pub fn resolve_audit(alloc: Global, catalog: &Catalog, audit: &RawAudit) -> Result<Audit, NameFault>
    ensures period { (period : PeriodEnds) × IsPeriodOf audit.now period }
    ensures resolved { (period : PeriodEnds) → IsPeriodOf audit.now period
        → Resolves (audit_refused catalog.now.names period audit.now)
        (audit_of catalog.now.names period audit.now) result }
{
    let period = read_period(audit);
    resolve_over(alloc, catalog, audit, &period)
}
