//! The list and the GROUP BY columns of a grouped select.
ghost use Rattle.std.specs.Prelude.{◌≡◌, ◌+◌, ◌≤◌, ◌++◌, map, filter_map, flat_map};
ghost use Rattle.std.specs.Prelude.{length, option_to_list, is_some, IfOk, OnOk};
ghost use Rattle.std.specs.List.{list_any, position_or_len};
ghost use Rattle.hippo_typing_catalog.specs.Refusals.{Resolves};
ghost use Rattle.hippo_typing_catalog.specs.WrittenColumns.{column_refused};
ghost use Rattle.hippo_typing_catalog.specs.Selects.{column_in, same_reference};
ghost use Rattle.hippo_typing.specs.Found.{with_out, plain_found, argument_found, lone_found};
ghost use Rattle.hippo_typing.specs.Found.{groups_found_refused, out_found, shown_found};

use crate::columns::found_column;
use crate::found::{Found, FoundColumn, FoundColumns, FoundOut, FoundOuts};
use hippo_model::{NameFault, Out, Outs, Ref, Refs};
use hippo_stmt_ast::{RawColumn, RawOut};
use hippo_typing_catalog::{StatementTables, column_faults};
use hippo_values::{Memory, Sequence};
use std::alloc::Global;

// The column that a member shows, or whose least or greatest value it shows.
fn column_in(out: &RawOut) -> &RawColumn
    ensures { result.now ≡ column_in out.now }
{
    match out {
        RawOut::Column(written) => written,
        RawOut::Min(argument) => argument,
        RawOut::Max(argument) => argument,
    }
}

/// The members of a list with their columns. Each column must belong to exactly one of the
/// statement's tables.
pub fn found_outs<'a>(
    alloc: Global,
    tables: &StatementTables<'_>,
    outs: &'a [RawOut],
) -> Result<FoundOuts<'a>, NameFault>
    ensures { Resolves (flat_map (λ out. column_refused tables.now (column_in out)) outs.now)
        (map (with_out tables.now) outs.now) result }
{
    let mut found = Sequence::with_capacity(alloc, outs.len())?;
    for out in outs {
        let column = found_column(alloc, tables, column_in(out))?;
        found.push(Found {
            written: out,
            column,
        })?;
    }
    Ok(found)
}

fn same_reference(a: &Ref, b: &Ref) -> bool
    ensures { result ≡ same_reference a.now b.now }
{
    a.table == b.table && a.column == b.column
}

// The place of a column in a list, or the length of the list if it is not there.
fn place_among(column: &Ref, others: &FoundColumns<'_>) -> usize
    ensures { result ≡ position_or_len (λ other. same_reference column.now other.1) others.now }
{
    let mut place = 0;
    for other in others.as_slice() {
        if same_reference(column, &other.column) {
            return place;
        }
        place += 1;
    }
    place
}

fn is_among(column: &Ref, others: &FoundColumns<'_>) -> bool
    ensures { result ≡ list_any (λ other. same_reference column.now other.1) others.now }
{
    for other in others.as_slice() {
        if same_reference(column, &other.column) {
            return true;
        }
    }
    false
}

// Refuses a column that is not in the other list.
fn check_column(
    alloc: Global,
    found: &FoundColumn<'_>,
    others: &FoundColumns<'_>,
) -> Result<(), NameFault>
    ensures { Resolves (lone_found others.now found.now) tt result }
{
    if is_among(&found.column, others) {
        return Ok(());
    }
    Err(column_faults::not_grouped(alloc, &found.written.column))
}

// Refuses columns that are not all in the other list.
fn check_among(
    alloc: Global,
    columns: &FoundColumns<'_>,
    others: &FoundColumns<'_>,
) -> Result<(), NameFault>
    ensures { Resolves (flat_map (lone_found others.now) columns.now) tt result }
{
    for found in columns.as_slice() {
        check_column(alloc, found, others)?;
    }
    Ok(())
}

// Adds a member's column, if the member shows the column itself.
fn push_plain<'a>(columns: &mut FoundColumns<'a>, found: &FoundOut<'a>) -> Result<(), Memory>
    ensures { OnOk result (columns.new ≡ columns.old ++ option_to_list (plain_found found.now)) }
{
    if let RawOut::Column(written) = found.written {
        columns.push(Found {
            written,
            column: found.column,
        })?;
    }
    Ok(())
}

// The columns of the members that show a column itself.
fn plain_columns<'a>(alloc: Global, outs: &FoundOuts<'a>) -> Result<FoundColumns<'a>, Memory>
    ensures { IfOk result (λ columns. columns ≡ filter_map plain_found outs.now) }
{
    let mut columns = Sequence::new(alloc);
    for found in outs.as_slice() {
        push_plain(&mut columns, found)?;
    }
    Ok(columns)
}

/// Refuses a list whose columns are not those of GROUP BY.
pub fn check_groups(
    alloc: Global,
    outs: &FoundOuts<'_>,
    by: &FoundColumns<'_>,
) -> Result<(), NameFault>
    ensures { Resolves (groups_found_refused outs.now by.now) tt result }
{
    let plain = plain_columns(alloc, outs)?;
    check_among(alloc, &plain, by)?;
    check_among(alloc, by, &plain)
}

fn push_argument(columns: &mut Refs, found: &FoundOut<'_>) -> Result<(), Memory>
    ensures { OnOk result (columns.new ≡ columns.old ++ option_to_list (argument_found found.now)) }
{
    match found.written {
        RawOut::Column(_) => Ok(()),
        RawOut::Min(_) => columns.push(found.column),
        RawOut::Max(_) => columns.push(found.column),
    }
}

fn push_arguments(columns: &mut Refs, outs: &FoundOuts<'_>) -> Result<(), Memory>
    ensures { OnOk result (columns.new ≡ columns.old ++ filter_map argument_found outs.now) }
{
    for found in outs.as_slice() {
        push_argument(columns, found)?;
    }
    Ok(())
}

fn push_by(columns: &mut Refs, by: &FoundColumns<'_>) -> Result<(), Memory>
    ensures { OnOk result (columns.new ≡ columns.old ++ map (λ found. found.1) by.now) }
{
    for found in by.as_slice() {
        columns.push(found.column)?;
    }
    Ok(())
}

/// The columns of GROUP BY, followed by the arguments of MIN and MAX.
pub fn grouped_items(
    alloc: Global,
    outs: &FoundOuts<'_>,
    by: &FoundColumns<'_>,
) -> Result<Refs, Memory>
    ensures { IfOk result (λ items. items
        ≡ map (λ found. found.1) by.now ++ filter_map argument_found outs.now) }
{
    let mut columns = Sequence::new(alloc);
    push_by(&mut columns, by)?;
    push_arguments(&mut columns, outs)?;
    Ok(columns)
}

// What a member shows, if the next argument has this place.
fn out_found(found: &FoundOut<'_>, by: &FoundColumns<'_>, next: usize) -> Out
    ensures { result ≡ out_found by.now next found.now }
{
    match found.written {
        RawOut::Column(_) => Out::Column(place_among(&found.column, by)),
        RawOut::Min(_) => Out::Min(next),
        RawOut::Max(_) => Out::Max(next),
    }
}

fn is_argument(found: &FoundOut<'_>) -> bool
    ensures { result ≡ is_some (argument_found found.now) }
{
    match found.written {
        RawOut::Column(_) => false,
        RawOut::Min(_) => true,
        RawOut::Max(_) => true,
    }
}

/// What the members show: the places of their columns in the columns of GROUP BY, followed by the
/// arguments.
pub fn shown_outs(
    alloc: Global,
    outs: &FoundOuts<'_>,
    by: &FoundColumns<'_>,
) -> Result<Outs, Memory>
    requires { length by.now + length outs.now ≤ 256 }
    ensures { IfOk result (λ shown. shown ≡ shown_found by.now (length by.now) outs.now) }
{
    let mut shown = Sequence::with_capacity(alloc, outs.len())?;
    let mut next = by.len();
    for found in outs.as_slice() {
        shown.push(out_found(found, by, next))?;
        if is_argument(found) {
            next += 1;
        }
    }
    Ok(shown)
}
