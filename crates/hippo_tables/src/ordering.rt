//! Secondary orders of tables, for the columns that a query's condition restricts.
ghost use Rattle.hippo_tables.specs.Standing.{TablesAreAsBefore};

use crate::narrow::outer_parts;
use crate::tables::Tables;
use hippo_model::{CondOf, Names, Operand, Query, Ref};
use hippo_values::{CompareOp, Name};
use std::alloc::Global;

// Whether an operand fixes a value when rows of a table are looked up: a literal does, and so does
// a column of another table.
fn says_value(operand: &Operand, table: usize) -> bool {
    match operand {
        Operand::Column(column) => column.table != table,
        Operand::Literal(_) => true,
    }
}

fn is_literal(operand: &Operand) -> bool {
    matches!(operand, Operand::Literal(_))
}

// Whether a comparison with an operand fixes a value of a table's rows, or bounds it by a literal.
fn says_some(op: CompareOp, operand: &Operand, table: usize) -> bool {
    match op {
        CompareOp::Ne => false,
        CompareOp::Eq => says_value(operand, table),
        _ => is_literal(operand),
    }
}

// The tables of a query, and for each whether it needs no secondary order.
#[derive(Clone, Copy)]
struct Asked<'a> {
    names: &'a Names,
    narrow: &'a [bool],
}

impl<'a> Asked<'a> {
    // The name of a table that a secondary order may help.
    fn wide_table(&self, table: usize) -> Option<&'a Name> {
        match self.narrow.get(table) {
            Some(false) => self.names.as_slice().get(table),
            _ => None,
        }
    }
}

impl Tables {
    // Orders a table by the column that an operand is.
    fn order_of(&mut self, alloc: Global, asked: Asked<'_>, column: Ref)
        ensures { TablesAreAsBefore self.old self.new }
    {
        if let Some(table) = asked.wide_table(column.table) {
            self.order_by(alloc, table, column.column);
        }
    }

    // Orders a table by the column on one side of a comparison, if the other side fixes its value
    // or bounds it.
    fn order_beside(
        &mut self,
        alloc: Global,
        asked: Asked<'_>,
        op: CompareOp,
        operand: &Operand,
        other: &Operand,
    )
        ensures { TablesAreAsBefore self.old self.new }
    {
        if let Operand::Column(column) = operand {
            if says_some(op, other, column.table) {
                self.order_of(alloc, asked, *column);
            }
        }
    }

    // Orders a table by the column of a BETWEEN, if one of its bounds is a literal.
    fn order_between(
        &mut self,
        alloc: Global,
        asked: Asked<'_>,
        operand: &Operand,
        low: &Operand,
        high: &Operand,
    )
        ensures { TablesAreAsBefore self.old self.new }
    {
        if let Operand::Column(column) = operand {
            if is_literal(low) || is_literal(high) {
                self.order_of(alloc, asked, *column);
            }
        }
    }

    // Orders a table by a column that has to be in a list of literals.
    fn order_among(&mut self, alloc: Global, asked: Asked<'_>, operand: &Operand, list: &[Operand])
        ensures { TablesAreAsBefore self.old self.new }
    {
        if let Operand::Column(column) = operand {
            if list.iter().all(|item| is_literal(item)) {
                self.order_of(alloc, asked, *column);
            }
        }
    }

    // Orders tables by the columns that a part of a condition fixes or bounds.
    fn order_for_part(&mut self, alloc: Global, asked: Asked<'_>, part: &CondOf<Operand>)
        ensures { TablesAreAsBefore self.old self.new }
    {
        match part {
            CondOf::Compare { op, left, right } => {
                self.order_beside(alloc, asked, *op, left, right);
                self.order_beside(alloc, asked, *op, right, left);
            }
            CondOf::Between { value, low, high } => {
                self.order_between(alloc, asked, value, low, high)
            }
            CondOf::Among { value, list } => {
                self.order_among(alloc, asked, value, list.as_slice())
            }
            _ => {}
        }
    }

    /// Creates secondary orders of the rows of a query's tables, and maintains them from now on, so
    /// that such rows are found by binary search. A column gets an order if the query compares it
    /// by `=` with a literal or with a column of another table, bounds it by a literal, or requires
    /// it to be in a list of literals. A table gets none if it has 256 rows or fewer, or if the key
    /// finds few of its rows: the query bounds the first column of the key by literals, directly or
    /// through equalities of columns, so that at most 256 rows are found, or a sixteenth. The
    /// contents of the tables, and so all answers, stay the same. Creates nothing when out of
    /// memory.
    pub fn order_for(&mut self, alloc: Global, query: &Query)
        ensures { TablesAreAsBefore self.old self.new }
    {
        let Ok(narrow) = self.narrow_tables(alloc, query) else {
            return;
        };
        let asked = Asked {
            names: &query.tables,
            narrow: narrow.as_slice(),
        };
        for part in outer_parts(&query.cond) {
            self.order_for_part(alloc, asked, part);
        }
    }
}
