//! Selects.
ghost use Rattle.std.specs.Prelude.{◌≡◌, ◌+◌, ◌≤◌, [], map, flat_map, length, IfOk};
ghost use Rattle.hippo_model.specs.declared.query.Form.TheVariants.{Grouped};
ghost use Rattle.hippo_typing_catalog.specs.Refusals.{Resolves};
ghost use Rattle.hippo_typing_catalog.specs.WrittenColumns.{column_refused};
ghost use Rattle.hippo_typing_catalog.specs.Selects.{column_in, item_refused, item_columns, outs_of, by_of};
ghost use Rattle.hippo_typing_catalog.specs.Selects.{list_refused, columns_refused, select_parts_refused};
ghost use Rattle.hippo_typing_catalog.specs.Selects.{select_refused, query_of};
ghost use Rattle.hippo_typing.specs.Found.{with_out, shown_found};
ghost use Rattle.hippo_typing.specs.FoundSelects.{list_found, select_found, head_refused};
ghost use Rattle.hippo_typing.specs.FoundSelects.{head_of, own_items, form_found, query_with};

use crate::columns::found_columns;
use crate::conditions::found_condition;
use crate::found::{FoundColumns, FoundOuts};
use crate::groups::{check_groups, found_outs, grouped_items, shown_outs};
use crate::items::found_items;
use crate::pairs::paired;
use crate::parts::check_count;
use crate::tables::found_tables;
use hippo_model::{CondOf, Form, NameFault, Names, Operand, Query, Refs, Shape};
use hippo_stmt_ast::{RawColumn, RawForm, RawOut, RawOuts, RawSelect};
use hippo_typing_catalog::{Catalog, StatementTables, check_kinds, check_texts};
use hippo_values::{Duplicate, FROM_LIMIT, ITEM_LIMIT, Memory, Sequence};
use std::alloc::Global;

/// The columns of a select's list: the columns of its items or, for a grouped select, its members
/// with their columns.
#[derive(Drop)]
pub struct FoundList<'a> {
    items: Refs,
    outs: FoundOuts<'a>,
}

/// A select with its columns resolved.
#[derive(Drop)]
pub struct FoundSelect<'a> {
    list: FoundList<'a>,
    cond: CondOf<Operand>,
    by: FoundColumns<'a>,
}

/// The parts of a query that are added to the resolved select: tables, form and, for a grouped
/// select, its items.
#[derive(Drop)]
pub struct QueryHead {
    own_items: Option<Refs>,
    tables: Names,
    form: Form,
}

fn by_of(form: &RawForm) -> &[RawColumn]
    ensures { result.now ≡ by_of form.now }
{
    match form {
        RawForm::Plain => &[],
        RawForm::Distinct => &[],
        RawForm::Grouped { by, .. } => by.as_slice(),
    }
}

fn plain_list<'a>(
    alloc: Global,
    tables: &StatementTables<'_>,
    select: &'a RawSelect,
) -> Result<FoundList<'a>, NameFault>
    ensures { Resolves (flat_map (item_refused tables.now) select.now.items)
        (record { items = flat_map (item_columns tables.now) select.now.items; outs = [] }) result }
{
    let items = found_items(alloc, tables, select.items.as_slice())?;
    Ok(FoundList {
        items,
        outs: Sequence::new(alloc),
    })
}

fn grouped_list<'a>(
    alloc: Global,
    tables: &StatementTables<'_>,
    outs: &'a RawOuts,
) -> Result<FoundList<'a>, NameFault>
    ensures { Resolves (flat_map (λ out. column_refused tables.now (column_in out)) outs.now)
        (record { items = []; outs = map (with_out tables.now) outs.now }) result }
{
    let outs = found_outs(alloc, tables, outs.as_slice())?;
    Ok(FoundList {
        items: Sequence::new(alloc),
        outs,
    })
}

fn found_list<'a>(
    alloc: Global,
    tables: &StatementTables<'_>,
    select: &'a RawSelect,
) -> Result<FoundList<'a>, NameFault>
    ensures { Resolves (list_refused tables.now select.now.items select.now.form)
        (list_found tables.now select.now.items select.now.form) result }
{
    match &select.form {
        RawForm::Plain | RawForm::Distinct => plain_list(alloc, tables, select),
        RawForm::Grouped { outs, .. } => grouped_list(alloc, tables, outs),
    }
}

// A select with its columns resolved. Each must belong to exactly one of its tables.
fn found_select<'a>(
    alloc: Global,
    tables: &StatementTables<'_>,
    select: &'a RawSelect,
) -> Result<FoundSelect<'a>, NameFault>
    ensures { Resolves (columns_refused tables.now select.now) (select_found tables.now select.now)
        result }
{
    let list = found_list(alloc, tables, select)?;
    let cond = found_condition(alloc, tables, &select.cond)?;
    let by = found_columns(alloc, tables, by_of(&select.form));
    let (cond, by) = paired(cond, by)?;
    Ok(FoundSelect { list, cond, by })
}

fn outs_of(form: &RawForm) -> &[RawOut]
    ensures { result.now ≡ outs_of form.now }
{
    match form {
        RawForm::Plain => &[],
        RawForm::Distinct => &[],
        RawForm::Grouped { outs, .. } => outs.as_slice(),
    }
}

fn check_parts(select: &RawSelect) -> Result<(), NameFault>
    ensures { Resolves (select_parts_refused select.now) tt result }
{
    check_count(FROM_LIMIT, select.tables.len())?;
    check_count(ITEM_LIMIT, select.items.len())?;
    check_count(ITEM_LIMIT, outs_of(&select.form).len())?;
    check_count(ITEM_LIMIT, by_of(&select.form).len())
}

// Checks a select whose columns are resolved: its grouping, kinds, texts and number of parts.
fn check_select(
    alloc: Global,
    tables: &StatementTables<'_>,
    select: &RawSelect,
    found: &FoundSelect<'_>,
) -> Result<(), NameFault>
    ensures { Resolves (head_refused tables.now select.now found.now) tt result }
{
    check_groups(alloc, &found.list.outs, &found.by)?;
    check_kinds(tables, &found.cond)?;
    check_texts(&found.cond)?;
    check_parts(select)
}

fn own_items(alloc: Global, form: &RawForm, found: &FoundSelect<'_>) -> Result<Option<Refs>, Memory>
    ensures { IfOk result (λ own. own ≡ own_items form.now found.now) }
{
    match form {
        RawForm::Plain => Ok(None),
        RawForm::Distinct => Ok(None),
        RawForm::Grouped { .. } => {
            let items = grouped_items(alloc, &found.list.outs, &found.by)?;
            Ok(Some(items))
        }
    }
}

fn grouped_form(alloc: Global, found: &FoundSelect<'_>) -> Result<Form, Memory>
    requires { length found.now.by + length found.now.list.outs ≤ 256 }
    ensures { IfOk result (λ form. form ≡ Grouped (record {
      keys = length found.now.by;
      outs = shown_found found.now.by (length found.now.by) found.now.list.outs;
    })) }
{
    let outs = shown_outs(alloc, &found.list.outs, &found.by)?;
    Ok(Form::Grouped(Shape {
        keys: found.by.len(),
        outs,
    }))
}

fn query_form(alloc: Global, form: &RawForm, found: &FoundSelect<'_>) -> Result<Form, Memory>
    requires { length found.now.by + length found.now.list.outs ≤ 256 }
    ensures { IfOk result (λ made. made ≡ form_found form.now found.now) }
{
    match form {
        RawForm::Plain => Ok(Form::Plain),
        RawForm::Distinct => Ok(Form::Distinct),
        RawForm::Grouped { .. } => grouped_form(alloc, found),
    }
}

fn query_head(
    alloc: Global,
    select: &RawSelect,
    found: &FoundSelect<'_>,
) -> Result<QueryHead, Memory>
    requires { length found.now.by + length found.now.list.outs ≤ 256 }
    ensures { IfOk result (λ head. head ≡ head_of select.now found.now) }
{
    let own_items = own_items(alloc, &select.form, found)?;
    let tables = select.tables.copy(alloc)?;
    let form = query_form(alloc, &select.form, found)?;
    Ok(QueryHead {
        own_items,
        tables,
        form,
    })
}

// The parts of a query other than its condition, if the select is not refused.
fn checked_head(
    alloc: Global,
    tables: &StatementTables<'_>,
    select: &RawSelect,
    found: &FoundSelect<'_>,
) -> Result<QueryHead, NameFault>
    requires { found.now ≡ select_found tables.now select.now }
    ensures { Resolves (head_refused tables.now select.now found.now) (head_of select.now found.now)
        result }
{
    check_select(alloc, tables, select, found)?;
    Ok(query_head(alloc, select, found)?)
}

fn query(found: FoundSelect<'_>, head: QueryHead) -> Query
    ensures { result ≡ query_with head found.entry }
{
    let FoundSelect { list, cond, by: _ } = found;
    let FoundList { items, outs: _ } = list;
    let QueryHead {
        own_items,
        tables,
        form,
    } = head;
    Query {
        items: own_items.unwrap_or(items),
        tables,
        cond,
        form,
    }
}

/// The query that a select means, or why it is refused. Each of its columns is resolved to one
/// table of its FROM list.
///
/// Over `patient (pid, name)` and `visit (vno, pid)`:
///
/// ```text
/// SELECT name FROM patient            the second column of the first table
/// SELECT nam FROM patient             UnknownColumn nam
/// SELECT pid FROM patient, visit      AmbiguousColumn pid
/// SELECT vno FROM visit, visit        RepeatedName visit
/// ```
pub fn resolve_select(
    alloc: Global,
    catalog: &Catalog,
    select: &RawSelect,
) -> Result<Query, NameFault>
    ensures { Resolves (select_refused catalog.now.names select.now)
        (query_of catalog.now.names select.now) result }
{
    let tables = found_tables(alloc, catalog, &select.tables)?;
    let found = found_select(alloc, &tables, select)?;
    let head = checked_head(alloc, &tables, select, &found);
    let (found, head) = paired(found, head)?;
    Ok(query(found, head))
}
