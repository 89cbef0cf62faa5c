//! Tables of a query in which the first column of the key finds few rows.

use crate::tables::Tables;
use hippo_model::{CondOf, Operand, Query, Ref};
use hippo_tables_rows::{Bound, RowSet};
use hippo_values::{CompareOp, Memory, Value};
use std::alloc::Global;

// The most equalities of columns that lead from one column to others.
const EQUALITY_LIMIT: usize = 16;

// So many rows are few in every table.
const FEW_ROWS: usize = 256;

// In a large table, this part of its rows is few.
const FEW_OF: usize = 16;

/// The parts of a condition that all have to hold.
pub(crate) fn outer_parts(condition: &CondOf<Operand>) -> &[CondOf<Operand>] {
    match condition {
        CondOf::All(parts) => parts.as_slice(),
        _ => std::slice::from_ref(condition),
    }
}

fn is_column(operand: &Operand, column: Ref) -> bool {
    match operand {
        Operand::Column(own) => own.table == column.table && own.column == column.column,
        Operand::Literal(_) => false,
    }
}

fn is_among(operand: &Operand, columns: &[Ref]) -> bool {
    columns.iter().any(|column| is_column(operand, *column))
}

// The column of an operand, if some columns lack it.
fn column_beyond(operand: &Operand, columns: &[Ref]) -> Option<Ref> {
    match operand {
        Operand::Column(column) if !is_among(operand, columns) => Some(*column),
        _ => None,
    }
}

// The column that an equality of columns leads to from one of these.
fn beyond_part(part: &CondOf<Operand>, columns: &[Ref]) -> Option<Ref> {
    let CondOf::Compare {
        op: CompareOp::Eq,
        left,
        right,
    } = part
    else {
        return None;
    };
    if is_among(left, columns) {
        column_beyond(right, columns)
    } else if is_among(right, columns) {
        column_beyond(left, columns)
    } else {
        None
    }
}

fn next_beyond(parts: &[CondOf<Operand>], columns: &[Ref]) -> Option<Ref> {
    for part in parts {
        if let Some(column) = beyond_part(part, columns) {
            return Some(column);
        }
    }
    None
}

// A column, and those that equalities lead to from it.
fn equal_columns(
    alloc: Global,
    parts: &[CondOf<Operand>],
    column: Ref,
) -> Result<Vec<Ref>, Memory> {
    let mut columns = Vec::new(alloc);
    columns.push(column)?;
    for _ in 0..EQUALITY_LIMIT {
        match next_beyond(parts, columns.as_slice()) {
            None => return Ok(columns),
            Some(column) => columns.push(column)?,
        }
    }
    Ok(columns)
}

// The bounds that literals set to the value of a column.
#[derive(Drop)]
struct Bounds<'a> {
    low: Option<Bound<'a>>,
    high: Option<Bound<'a>>,
}

impl<'a> Bounds<'a> {
    fn raise(&mut self, operand: &'a Operand, strict: bool) {
        let Operand::Literal(value) = operand else {
            return;
        };
        match self.low {
            Some(low) if value.cmp(low.value).is_lt() => {}
            _ => self.low = Some(Bound { value, strict }),
        }
    }

    fn lower(&mut self, operand: &'a Operand, strict: bool) {
        let Operand::Literal(value) = operand else {
            return;
        };
        match self.high {
            Some(high) if value.cmp(high.value).is_gt() => {}
            _ => self.high = Some(Bound { value, strict }),
        }
    }

    // Takes in a comparison of the column with an operand on its right.
    fn compare(&mut self, op: CompareOp, operand: &'a Operand) {
        match op {
            CompareOp::Ne => {}
            CompareOp::Eq => {
                self.raise(operand, false);
                self.lower(operand, false);
            }
            CompareOp::Lt => self.lower(operand, true),
            CompareOp::Le => self.lower(operand, false),
            CompareOp::Gt => self.raise(operand, true),
            CompareOp::Ge => self.raise(operand, false),
        }
    }

    // Takes in a comparison of the column with an operand on its left.
    fn compare_mirrored(&mut self, op: CompareOp, operand: &'a Operand) {
        match op {
            CompareOp::Ne => {}
            CompareOp::Eq => self.compare(CompareOp::Eq, operand),
            CompareOp::Lt => self.compare(CompareOp::Gt, operand),
            CompareOp::Le => self.compare(CompareOp::Ge, operand),
            CompareOp::Gt => self.compare(CompareOp::Lt, operand),
            CompareOp::Ge => self.compare(CompareOp::Le, operand),
        }
    }

    fn take_in(&mut self, part: &'a CondOf<Operand>, columns: &[Ref]) {
        match part {
            CondOf::Compare { op, left, right } => {
                if is_among(left, columns) {
                    self.compare(*op, right);
                } else if is_among(right, columns) {
                    self.compare_mirrored(*op, left);
                }
            }
            CondOf::Between { value, low, high } => {
                if is_among(value, columns) {
                    self.raise(low, false);
                    self.lower(high, false);
                }
            }
            _ => {}
        }
    }
}

// The bounds that literals set to the value that some equal columns have.
fn bounds_of<'a>(parts: &'a [CondOf<Operand>], columns: &[Ref]) -> Bounds<'a> {
    let mut bounds = Bounds {
        low: None,
        high: None,
    };
    for part in parts {
        bounds.take_in(part, columns);
    }
    bounds
}

// Whether the first column of a table's key finds few rows. The table is at this place of FROM.
fn finds_few(
    alloc: Global,
    rows: &RowSet,
    parts: &[CondOf<Operand>],
    table: usize,
) -> Result<bool, Memory> {
    let Some(first) = rows.key().as_slice().first() else {
        return Ok(false);
    };
    let column = *first;
    let columns = equal_columns(alloc, parts, Ref { table, column })?;
    let bounds = bounds_of(parts, columns.as_slice());
    match rows.count_within(column, bounds.low, bounds.high) {
        None => Ok(false),
        Some(count) => Ok(count <= FEW_ROWS || count <= rows.len() / FEW_OF),
    }
}

impl Tables {
    /// For each table of a query, whether it needs no secondary order: it has few rows, or the
    /// query bounds the first column of its key by literals so that few rows are found. A bound
    /// counts for each column that equalities lead to.
    pub(crate) fn narrow_tables(&self, alloc: Global, query: &Query) -> Result<Vec<bool>, Memory> {
        let parts = outer_parts(&query.cond);
        let mut narrow = Vec::new(alloc);
        for (place, name) in query.tables.as_slice().iter().enumerate() {
            let is_narrow = match self.rows(name) {
                None => true,
                Some(rows) => finds_few(alloc, rows, parts, place)?,
            };
            narrow.push(is_narrow)?;
        }
        Ok(narrow)
    }
}
