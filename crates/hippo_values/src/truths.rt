//! SQL's three truth values, and comparisons.
ghost use Rattle.std.specs.Prelude.{◌≡◌};
ghost use Rattle.hippo_values.specs.Truths.{truth_and, truth_or, truth_not, is_allowed, truth_of, comparison};

use crate::values::Value;
use std::cmp::Ordering;

/// SQL's three truth values, in ascending order.
#[derive(Clone, Copy, Debug, PartialEq, Eq, PartialOrd, Ord)]
pub enum Truth {
    False,
    Unknown,
    True,
}

#[derive(Clone, Copy, Debug, PartialEq, Eq)]
pub enum CompareOp {
    Eq,
    Ne,
    Lt,
    Le,
    Gt,
    Ge,
}

/// The lesser of two truth values (SQL's AND).
pub fn truth_and(a: Truth, b: Truth) -> Truth
    ensures { result ≡ truth_and a b }
{
    a.min(b)
}

/// The greater of two truth values (SQL's OR).
pub fn truth_or(a: Truth, b: Truth) -> Truth
    ensures { result ≡ truth_or a b }
{
    a.max(b)
}

/// The opposite truth value; unknown stays unknown (SQL's NOT).
pub fn truth_not(a: Truth) -> Truth
    ensures { result ≡ truth_not a }
{
    match a {
        Truth::False => Truth::True,
        Truth::Unknown => Truth::Unknown,
        Truth::True => Truth::False,
    }
}

/// Whether a comparison is true of two values in this order.
#[inline]
pub fn is_allowed(op: CompareOp, order: Ordering) -> bool
    ensures { result ≡ is_allowed op order }
{
    match op {
        CompareOp::Eq => order.is_eq(),
        CompareOp::Ne => order.is_ne(),
        CompareOp::Lt => order.is_lt(),
        CompareOp::Le => order.is_le(),
        CompareOp::Gt => order.is_gt(),
        CompareOp::Ge => order.is_ge(),
    }
}

fn decided(op: CompareOp, order: Ordering) -> Truth
    ensures { result ≡ truth_of (is_allowed op order) }
{
    if is_allowed(op, order) {
        Truth::True
    } else {
        Truth::False
    }
}

/// The result of a comparison of two values; unknown if either is null or their kinds differ.
pub fn compare(op: CompareOp, a: &Value, b: &Value) -> Truth
    ensures { result ≡ comparison op a.now b.now }
{
    match (a, b) {
        (Value::Int(x), Value::Int(y)) => decided(op, x.cmp(y)),
        (Value::Text(x), Value::Text(y)) => decided(op, x.cmp(y)),
        (Value::Day(x), Value::Day(y)) => decided(op, x.cmp(y)),
        _ => Truth::Unknown,
    }
}
