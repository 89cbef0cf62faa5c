//! The values of cells, and their order.
ghost use Rattle.std.specs.Prelude.{◌≡◌, refl, Some, IfOk};
ghost use Rattle.hippo_values.specs.Order.{kind_rank, value_cmp};
ghost use Rattle.hippo_values.specs.OrderLaws.{value_total, value_ties, value_po};
ghost use Rattle.hippo_values.specs.declared.values.Value as Value;

use crate::cell_texts::CellText;
use crate::memory::{Duplicate, Memory};
use crate::moments::DayNumber;
use std::alloc::Global;
use std::cmp::Ordering;
use std::hash::Hash;

/// The value of a cell. Values are ordered by kind, in the order of the variants, and within a
/// kind: numbers and days by size, texts by their bytes.
#[derive(Debug, Drop, PartialEq, Eq, Hash)]
pub enum Value {
    Null,
    Int(i64),
    Text(CellText),
    Day(DayNumber),
}

fn kind_rank(value: &Value) -> u8
    ensures { result ≡ kind_rank value.now }
{
    match value {
        Value::Null => 0,
        Value::Int(_) => 1,
        Value::Text(_) => 2,
        Value::Day(_) => 3,
    }
}

impl PartialOrd for Value {
    ghost partial_cmp = { λ a b. Some (value_cmp a b) };

    ghost laws = { value_po };

    fn partial_cmp(&self, other: &Value) -> Option<Ordering> {
        Some(self.cmp(other))
    }
}

impl Ord for Value {
    ghost cmp = { value_cmp };

    ghost total = { value_total };

    ghost matches_partial_cmp = { λ a b. refl };

    ghost matches_eq = { value_ties };

    fn cmp(&self, other: &Value) -> Ordering {
        match (self, other) {
            (Value::Int(a), Value::Int(b)) => a.cmp(b),
            (Value::Text(a), Value::Text(b)) => a.cmp(b),
            (Value::Day(a), Value::Day(b)) => a.cmp(b),
            _ => kind_rank(self).cmp(&kind_rank(other)),
        }
    }
}

impl Duplicate for Value {
    fn copy(&self, alloc: Global) -> Result<Value, Memory> {
        match self {
            Value::Null => Ok(Value::Null),
            Value::Int(number) => Ok(Value::Int(*number)),
            Value::Text(text) => copied_text(alloc, text),
            Value::Day(day) => Ok(Value::Day(*day)),
        }
    }
}

fn copied_text(alloc: Global, text: &CellText) -> Result<Value, Memory>
    ensures { IfOk result (λ made. made ≡ Value.Text text.now) }
{
    Ok(Value::Text(text.copy(alloc)?))
}
