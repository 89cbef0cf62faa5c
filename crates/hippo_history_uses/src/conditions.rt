//! Audits of one table, which ask for a patient's rows or for the row with a key.
ghost use Rattle.std.specs.Prelude.{◌≡◌, [], ◌∷◌, IfOk};
ghost use Rattle.hippo_values.specs.declared.values.Value.TheVariants.{Int as IntValue};
ghost use Rattle.hippo_values.specs.declared.truths.CompareOp.TheVariants.{Eq as EqualTo};
ghost use Rattle.hippo_model.specs.declared.query.CondOf.TheVariants.{Compare, All as AllOf};
ghost use Rattle.hippo_model.specs.declared.query.Operand.TheVariants.{Column as ColumnOperand, Literal as LiteralOperand};
ghost use Rattle.hippo_history_uses.specs.Conditions.{own_column, column_is, key_is, audit_of_rows};

use hippo_model::{Audit, CondOf, Operand, Ref, Refs, Schema};
use hippo_values::{CompareOp, Duplicate, Memory, Moment, Name, Sequence, Value};
use std::alloc::Global;

fn own_column(column: usize) -> Ref
    ensures { result ≡ own_column column }
{
    Ref { table: 0, column }
}

// That a column is equal to a value.
fn equals(alloc: Global, column: usize, value: &Value) -> Result<CondOf<Operand>, Memory>
    ensures { IfOk result (λ made. made
        ≡ Compare EqualTo (ColumnOperand (own_column column)) (LiteralOperand value.now)) }
{
    let value = value.copy(alloc)?;
    Ok(CondOf::Compare {
        op: CompareOp::Eq,
        left: Operand::Column(own_column(column)),
        right: Operand::Literal(value),
    })
}

// That a column has a value, which may be null.
fn column_is(alloc: Global, column: usize, value: &Value) -> Result<CondOf<Operand>, Memory>
    ensures { IfOk result (λ made. made ≡ column_is column value.now) }
{
    match value {
        Value::Null => Ok(CondOf::Missing {
            value: Operand::Column(own_column(column)),
        }),
        Value::Int(_) => equals(alloc, column, value),
        Value::Text(_) => equals(alloc, column, value),
        Value::Day(_) => equals(alloc, column, value),
    }
}

/// That the columns of a table's key have the values of a row.
pub(crate) fn key_is(
    alloc: Global,
    schema: &Schema,
    row: &[Value],
) -> Result<CondOf<Operand>, Memory>
    ensures { IfOk result (λ made. made ≡ key_is schema.now.key row.now) }
{
    let mut parts = Sequence::new(alloc);
    for place in schema.key.as_slice() {
        let value = row.get(*place).unwrap_or(&Value::Null);
        parts.push(column_is(alloc, *place, value)?)?;
    }
    Ok(CondOf::All(parts))
}

/// That a column has a number.
pub(crate) fn number_is(column: usize, number: &i64) -> CondOf<Operand>
    ensures { result ≡ column_is column (IntValue number.now) }
{
    CondOf::Compare {
        op: CompareOp::Eq,
        left: Operand::Column(own_column(column)),
        right: Operand::Literal(Value::Int(*number)),
    }
}

/// Returns an audit of the rows of a table for which a condition is true.
pub(crate) fn audit_of_rows(
    alloc: Global,
    table: &Name,
    moment: Moment,
    columns: Refs,
    condition: CondOf<Operand>,
) -> Result<Audit, Memory>
    ensures { IfOk result (λ audit. audit ≡ audit_of_rows table.now moment columns condition) }
{
    let mut tables = Sequence::new(alloc);
    tables.push(table.copy(alloc)?)?;
    Ok(Audit {
        from: moment,
        to: moment,
        exempt: Sequence::new(alloc),
        shown: false,
        columns,
        tables,
        cond: condition,
    })
}
