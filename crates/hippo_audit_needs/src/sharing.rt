//! The first virtual tuple that serves, over given rows.
ghost use Rattle.std.specs.Prelude.{◌≡◌, IfOk, map};
ghost use Rattle.hippo_join_implied.specs.Implied.{query_with_implied};
ghost use Rattle.hippo_rewrite.specs.Rewriting.{rewritten_query};
ghost use Rattle.hippo_audit_search.specs.Audited.{HasRowsFor};
ghost use Rattle.hippo_audit_search.specs.Comparing.{HaveRows, needed_between};
ghost use Rattle.hippo_audit_needs.specs.Seen.{column_in_query, required_shown};
ghost use Rattle.hippo_audit_needs.specs.Examining.{ServesFirst};

use crate::alone::first_alone;
use crate::changing::first_needed_by_groups;
use crate::laws::needed_serves_first;
use hippo_audit_common::place_in;
use hippo_audit_search::{Audited, Compared, first_shared};
use hippo_join_implied::add_implied;
use hippo_model::{
    Audit, ChoiceView, Exprs, Form, Masked, Query, Ref, Refs, RulesInForce, SharedTuple,
};
use hippo_rewrite::{mask_columns, rewrite};
use hippo_tables_rows::Sets;
use hippo_values::{Memory, Name, Sequence};
use std::alloc::Global;

// An audited column, with the place of its table in the query.
fn column_in(query: &[Name], audit: &[Name], column: Ref) -> Ref
    ensures { result ≡ column_in_query query.now audit.now column }
{
    let table = match audit.get(column.table) {
        Some(table) => place_in(query, table),
        None => query.len(),
    };
    Ref {
        table,
        column: column.column,
    }
}

fn columns_in(alloc: Global, query: &[Name], audit: &Audit) -> Result<Refs, Memory>
    ensures { IfOk result (λ columns. columns
        ≡ map (column_in_query query.now audit.now.tables) audit.now.columns) }
{
    let tables = audit.tables.as_slice();
    let mut columns = Sequence::new(alloc);
    for column in audit.columns.as_slice() {
        columns.push(column_in(query, tables, *column))?;
    }
    Ok(columns)
}

/// Returns the expressions that must be shown to the query: one for each audited column, by the
/// rules in force, if the audit asks for cells that were shown; otherwise none.
pub fn required_shown(
    alloc: Global,
    query: &Query,
    audit: &Audit,
    rules: &RulesInForce,
) -> Result<Exprs, Memory>
    ensures { IfOk result (λ seen. seen ≡ required_shown rules.now query.now audit.now) }
{
    if !audit.shown {
        return Ok(Sequence::new(alloc));
    }
    let columns = columns_in(alloc, query.tables.as_slice(), audit)?;
    mask_columns(alloc, &columns, rules)
}

// The query with the rules written into it, and with what its condition then implies.
fn rewritten(alloc: Global, query: &Query, rules: &RulesInForce) -> Result<Masked, Memory>
    ensures { IfOk result (λ made. made
        ≡ query_with_implied (rewritten_query rules.now query.now)) }
{
    let mut masked = rewrite(alloc, query, rules)?;
    add_implied(alloc, &mut masked.cond)?;
    Ok(masked)
}

// The first tuple that a query of this form needs and the audit has.
fn first_needed<C: ChoiceView>(
    alloc: Global,
    form: &Form,
    compared: &Compared<'_, C>,
) -> Result<Option<SharedTuple>, Memory>
    requires { HaveRows compared.now }
    ensures { IfOk result (λ shared. shared ≡ needed_between C.choices form.now compared.now) }
{
    match form {
        Form::Plain => first_shared(alloc, compared),
        Form::Distinct => first_alone(alloc, compared),
        Form::Grouped(shape) => first_needed_by_groups(alloc, shape, compared),
    }
}

/// Returns the first virtual tuple that serves, or `None` if none serves. A virtual tuple is a row
/// of each table in both FROM lists, by its key, in the audit's order. It serves if the query (over
/// its view under the rules in force) and the audit both need it and, when the audit asks for cells
/// that were shown, its audited cells were shown. The caller must check that the query is a
/// candidate.
///
/// The rules must be those in force for the query's tables. The rows must be those of each side's
/// tables, in the order of FROM. A table that both have must have the same rows on both. The audit
/// must not name a table twice.
pub fn shared_of<C: ChoiceView>(
    alloc: Global,
    query: &Query,
    audit: &Audit,
    rules: &RulesInForce,
    query_sets: &Sets<'_>,
    audit_sets: &Sets<'_>,
    choices: &C,
) -> Result<Option<SharedTuple>, Memory>
    requires { HasRowsFor query.now.tables
        (record {
          audit = audit;
          query_sets = query_sets;
          audit_sets = audit_sets;
          choices = choices;
        }) }
    ensures { IfOk result (λ shared. let choices = C.choices choices.now in
        ServesFirst query.now audit.now rules.now query_sets.now audit_sets.now choices shared) }
{
    needed_serves_first();
    let audited = Audited {
        audit: &*audit,
        query_sets: &*query_sets,
        audit_sets: &*audit_sets,
        choices: &*choices,
    };
    let seen = required_shown(alloc, query, audit, rules)?;
    let masked = rewritten(alloc, query, rules)?;
    let compared = Compared {
        query: &masked,
        seen: &seen,
        audited: &audited,
    };
    let shared = first_needed(alloc, &query.form, &compared);
    drop(masked);
    drop(seen);
    shared
}
