//! Indexes of the rows of tables, by the columns whose values an audit or a query gives.
ghost use Rattle.std.specs.Prelude.{◌≡◌};

use crate::held::place_of;
use hippo_intervals::LiveRows;
use hippo_model::{Audit, CondOf, Names, Operand, Query, Ref};
use hippo_values::{CompareOp, Name};
use std::alloc::Global;

// Keeps an index of a table's rows by a column, if the table is held.
fn order_table(tables: &mut Vec<LiveRows>, alloc: Global, table: &Name, column: usize)
    ensures { tables.new.items ≡ tables.old.items }
{
    let place = place_of(tables.as_slice(), table);
    if place >= tables.len() {
        return;
    }
    tables[place].order_by(alloc, column);
}

// Keeps an index by a column of one of the tables with these names.
fn order_by(tables: &mut Vec<LiveRows>, alloc: Global, names: &Names, column: Ref)
    ensures { tables.new.items ≡ tables.old.items }
{
    if let Some(table) = names.as_slice().get(column.table) {
        order_table(tables, alloc, table, column.column);
    }
}

// Whether an operand gives a value for lookups in a table: a literal does, and so does a column of
// another table.
fn says_value(operand: &Operand, table: usize) -> bool {
    match operand {
        Operand::Column(column) => column.table != table,
        Operand::Literal(_) => true,
    }
}

// Keeps an index by the column on one side of an equality, if the other side gives its value.
fn order_beside(
    tables: &mut Vec<LiveRows>,
    alloc: Global,
    names: &Names,
    operand: &Operand,
    other: &Operand,
)
    ensures { tables.new.items ≡ tables.old.items }
{
    if let Operand::Column(column) = operand {
        if says_value(other, column.table) {
            order_by(tables, alloc, names, *column);
        }
    }
}

// Keeps indexes by the columns whose values a part of a condition gives.
fn order_for_part(tables: &mut Vec<LiveRows>, alloc: Global, names: &Names, part: &CondOf<Operand>)
    ensures { tables.new.items ≡ tables.old.items }
{
    if let CondOf::Compare {
        op: CompareOp::Eq,
        left,
        right,
    } = part
    {
        order_beside(tables, alloc, names, left, right);
        order_beside(tables, alloc, names, right, left);
    }
}

fn order_for_parts(
    tables: &mut Vec<LiveRows>,
    alloc: Global,
    names: &Names,
    parts: &[CondOf<Operand>],
)
    ensures { tables.new.items ≡ tables.old.items }
{
    for part in parts {
        order_for_part(tables, alloc, names, part);
    }
}

// Keeps indexes by the columns whose values the conjuncts of a condition give.
fn order_for_condition(
    tables: &mut Vec<LiveRows>,
    alloc: Global,
    names: &Names,
    condition: &CondOf<Operand>,
)
    ensures { tables.new.items ≡ tables.old.items }
{
    match condition {
        CondOf::All(parts) => order_for_parts(tables, alloc, names, parts.as_slice()),
        _ => order_for_part(tables, alloc, names, condition),
    }
}

/// Keeps indexes of the held rows from now on, by the columns that an audit and a query compare by
/// `=` with a literal or with a column of another table. The rows do not change.
pub(crate) fn order_for(tables: &mut Vec<LiveRows>, alloc: Global, query: &Query, audit: &Audit)
    ensures { tables.new.items ≡ tables.old.items }
{
    order_for_condition(tables, alloc, &audit.tables, &audit.cond);
    order_for_condition(tables, alloc, &query.tables, &query.cond);
}
