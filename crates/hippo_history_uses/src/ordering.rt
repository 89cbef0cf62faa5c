//! Indexes by which a patient's rows are found.
ghost use Rattle.hippo_tables.specs.Standing.{TablesAreAsBefore};

use crate::conditions::number_is;
use hippo_model::{Form, Query};
use hippo_tables::Tables;
use hippo_values::{Duplicate, Memory, Name, Sequence};
use std::alloc::Global;

// A query of a table's rows with a number in a column.
fn rows_with(alloc: Global, table: &Name, column: usize, number: &i64) -> Result<Query, Memory> {
    let mut tables = Sequence::new(alloc);
    tables.push(table.copy(alloc)?)?;
    Ok(Query {
        items: Sequence::new(alloc),
        tables,
        cond: number_is(column, number),
        form: Form::Plain,
    })
}

// Keeps an index of a table's rows by its SUBJECT, if it has one.
fn order_by_subject(
    tables: &mut Tables,
    alloc: Global,
    table: &Name,
    patient: &i64,
) -> Result<(), Memory>
    ensures { TablesAreAsBefore tables.old tables.new }
{
    let Some(schema) = tables.schema(table) else {
        return Ok(());
    };
    let Some(subject) = schema.subject else {
        return Ok(());
    };
    let query = rows_with(alloc, table, subject, patient)?;
    tables.order_for(alloc, &query);
    drop(query);
    Ok(())
}

// Keeps an index by SUBJECT of each of these tables that has one.
fn order_by_subjects(
    tables: &mut Tables,
    alloc: Global,
    names: &[Name],
    patient: &i64,
) -> Result<(), Memory>
    ensures { TablesAreAsBefore tables.old tables.new }
{
    for table in names {
        order_by_subject(tables, alloc, table, patient)?;
    }
    Ok(())
}

/// Keeps indexes of a query's tables, by the columns whose values its condition gives and by their
/// SUBJECTs.
pub(crate) fn order_for(
    tables: &mut Tables,
    alloc: Global,
    query: &Query,
    patient: &i64,
) -> Result<(), Memory>
    ensures { TablesAreAsBefore tables.old tables.new }
{
    tables.order_for(alloc, query);
    order_by_subjects(tables, alloc, query.tables.as_slice(), patient)
}
