//! Queries and conditions with resolved columns, before and after the policy is written into them.
ghost use Rattle.std.specs.Prelude.{◌≡◌, IfOk};
ghost use Rattle.hippo_model.specs.declared.query.Operand.TheVariants.{Literal};
ghost use Rattle.hippo_model.specs.declared.query.Form.TheVariants.{Grouped};

use crate::schema::Names;
use hippo_values::{Boxed, CompareOp, Duplicate, Memory, Name, Sequence, Value};
use std::alloc::Global;

/// A column of a statement's tables.
#[derive(Clone, Copy, PartialEq, Eq)]
pub struct Ref {
    /// The table's index in FROM, from 0.
    pub table: usize,
    /// The column's index in the table's schema, from 0.
    pub column: usize,
}

pub type Refs = Sequence<Ref>;

/// What a condition compares: a column's value in a row, or a literal.
#[derive(Drop)]
pub enum Operand {
    Column(Ref),
    Literal(Value),
}

pub type Operands = Sequence<Operand>;

/// A condition over operands of some type.
#[derive(Debug, Drop)]
pub enum CondOf<O> {
    All(Sequence<CondOf<O>>),
    Any(Sequence<CondOf<O>>),
    Not(Boxed<CondOf<O>>),
    Compare { op: CompareOp, left: O, right: O },
    Between { value: O, low: O, high: O },
    Among { value: O, list: Sequence<O> },
    /// SQL's IS NULL.
    Missing { value: O },
}

/// A cell of a group's row; each number is an index into the query's items.
#[derive(Clone, Copy, PartialEq, Eq)]
pub enum Out {
    Column(usize),
    Min(usize),
    Max(usize),
}

pub type Outs = Sequence<Out>;

/// How a grouped query makes its rows: the first `keys` items are the GROUP BY columns, the others
/// the arguments of MIN and MAX.
#[derive(Drop)]
pub struct Shape {
    pub keys: usize,
    /// The row's cells, in order.
    pub outs: Outs,
}

/// Which rows a query returns.
#[derive(Drop)]
pub enum Form {
    /// One row for each combination of rows.
    Plain,
    /// Equal rows once.
    Distinct,
    /// One row for each group.
    Grouped(Shape),
}

/// A select whose columns are resolved: each belongs to one table of its FROM list.
#[derive(Drop)]
pub struct Query {
    pub items: Refs,
    pub tables: Names,
    pub cond: CondOf<Operand>,
    pub form: Form,
}

/// What replaces a column reference when the policy's rules are written into a query.
#[derive(Drop)]
pub enum Expr {
    Keep(Ref),
    Null(u64),
    /// Shown in rows that were born after the second `after`.
    Aged {
        column: Ref,
        rule: u64,
        after: i64,
    },
    /// Shown if the patient's choice on an item agrees; with `after`, only in rows that were born
    /// after that second.
    Case {
        column: Ref,
        subject: Ref,
        item: Name,
        rule: u64,
        opt_in: bool,
        after: Option<i64>,
    },
    Literal(Value),
}

pub type Exprs = Sequence<Expr>;

/// A key cell that must be shown for its row to be used.
#[derive(Drop)]
pub struct Guard {
    /// The table's index in FROM.
    pub table: usize,
    pub expr: Expr,
}

pub type Guards = Sequence<Guard>;

/// A query with the policy's rules written into it, over unmasked rows.
#[derive(Drop)]
pub struct Masked {
    pub items: Exprs,
    pub tables: Names,
    pub guards: Guards,
    pub cond: CondOf<Expr>,
}

impl Duplicate for Ref {
    fn copy(&self, _alloc: Global) -> Result<Ref, Memory> {
        Ok(*self)
    }
}

impl Duplicate for Operand {
    fn copy(&self, alloc: Global) -> Result<Operand, Memory> {
        match self {
            Operand::Column(column) => Ok(Operand::Column(*column)),
            Operand::Literal(value) => copied_literal(alloc, value),
        }
    }
}

fn copied_literal(alloc: Global, value: &Value) -> Result<Operand, Memory>
    ensures { IfOk result (λ made. made ≡ Literal value.now) }
{
    Ok(Operand::Literal(value.copy(alloc)?))
}

impl Duplicate for Out {
    fn copy(&self, _alloc: Global) -> Result<Out, Memory> {
        Ok(*self)
    }
}

impl Duplicate for Shape {
    fn copy(&self, alloc: Global) -> Result<Shape, Memory> {
        let outs = self.outs.copy(alloc)?;
        Ok(Shape {
            keys: self.keys,
            outs,
        })
    }
}

fn copied_shape(alloc: Global, shape: &Shape) -> Result<Form, Memory>
    ensures { IfOk result (λ made. made ≡ Grouped shape.now) }
{
    Ok(Form::Grouped(shape.copy(alloc)?))
}

impl Duplicate for Form {
    fn copy(&self, alloc: Global) -> Result<Form, Memory> {
        match self {
            Form::Plain => Ok(Form::Plain),
            Form::Distinct => Ok(Form::Distinct),
            Form::Grouped(shape) => copied_shape(alloc, shape),
        }
    }
}

impl Duplicate for Query {
    fn copy(&self, alloc: Global) -> Result<Query, Memory> {
        let items = self.items.copy(alloc)?;
        let tables = self.tables.copy(alloc)?;
        let cond = self.cond.copy(alloc)?;
        let form = self.form.copy(alloc)?;
        Ok(Query {
            items,
            tables,
            cond,
            form,
        })
    }
}
