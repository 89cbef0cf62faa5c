//! The truth of a condition in one row.
ghost use Rattle.std.specs.Prelude.{◌≡◌, ◌↔◌, map, IsTrue, option_copied};
ghost use Rattle.hippo_values.specs.declared.truths.CompareOp.TheVariants.{Eq as Equal, Le as AtMost, Ge as AtLeast};
ghost use Rattle.hippo_values.specs.declared.truths.Truth.TheVariants.{False as Untrue, True as Truly};
ghost use Rattle.hippo_values.specs.Truths.{truth_and, truth_of, comparison};
ghost use Rattle.hippo_model.specs.Conditions.{least, greatest, is_null};
ghost use Rattle.hippo_model.specs.Hits.{value_in_row};
ghost use Rattle.hippo_eval.specs.LentCells.{or_null};
ghost use Rattle.hippo_watch_counts.specs.Rows.{row_truth};

use hippo_model::{Cells, CondOf, Operand, Operands};
use hippo_values::{CompareOp, Sequence, Truth, Value, compare, truth_and, truth_not, truth_or};

fn is_false(truth: Truth) -> bool
    ensures { IsTrue result ↔ (truth ≡ Untrue) }
{
    matches!(truth, Truth::False)
}

fn is_true(truth: Truth) -> bool
    ensures { IsTrue result ↔ (truth ≡ Truly) }
{
    matches!(truth, Truth::True)
}

// The value of an operand in a row; none, which means null, if the row has no value there.
fn value_in<'a>(operand: &'a Operand, row: &'a Cells) -> Option<&'a Value>
    ensures { or_null (option_copied result) ≡ value_in_row row.now operand.now }
{
    match operand {
        Operand::Column(column) => row.as_slice().get(column.column),
        Operand::Literal(value) => Some(value),
    }
}

// The truth of a comparison of two values.
fn compared(op: CompareOp, left: Option<&Value>, right: Option<&Value>) -> Truth
    ensures { result ≡ comparison op (or_null (option_copied left.entry))
        (or_null (option_copied right.entry)) }
{
    let left = left.unwrap_or(&Value::Null);
    compare(op, left, right.unwrap_or(&Value::Null))
}

// The truth of a comparison of a value with an operand.
fn compared_with(op: CompareOp, left: Option<&Value>, right: &Operand, row: &Cells) -> Truth
    ensures { result ≡ comparison op (or_null (option_copied left.entry))
        (value_in_row row.now right.now) }
{
    compared(op, left, value_in(right, row))
}

fn is_compared(op: CompareOp, left: &Operand, right: &Operand, row: &Cells) -> Truth
    ensures { result ≡ comparison op (value_in_row row.now left.now)
        (value_in_row row.now right.now) }
{
    compared_with(op, value_in(left, row), right, row)
}

fn is_between(value: &Operand, low: &Operand, high: &Operand, row: &Cells) -> Truth
    ensures { let value_of = value_in_row row.now in
        result ≡ truth_and (comparison AtLeast (value_of value.now) (value_of low.now))
        (comparison AtMost (value_of value.now) (value_of high.now)) }
{
    let above = is_compared(CompareOp::Ge, value, low, row);
    truth_and(above, is_compared(CompareOp::Le, value, high, row))
}

fn is_among(value: &Operand, list: &Operands, row: &Cells) -> Truth
    ensures { let value_of = value_in_row row.now in
        result ≡ greatest (map (λ member. comparison Equal (value_of value.now) (value_of member))
        list.now) }
{
    let mut so_far = Truth::False;
    for member in list.as_slice() {
        let equal = is_compared(CompareOp::Eq, value, member, row);
        so_far = truth_or(so_far, equal);
        if is_true(so_far) {
            return so_far;
        }
    }
    so_far
}

fn is_missing(value: &Operand, row: &Cells) -> Truth
    ensures { result ≡ truth_of (is_null (value_in_row row.now value.now)) }
{
    match value_in(value, row).unwrap_or(&Value::Null) {
        Value::Null => Truth::True,
        _ => Truth::False,
    }
}

#[cycle(truth)]
fn least(parts: &Sequence<CondOf<Operand>>, row: &Cells) -> Truth
    ensures { result ≡ least (map (row_truth row.now) parts.now) }
{
    let mut so_far = Truth::True;
    for part in parts.as_slice() {
        so_far = truth_and(so_far, truth_in(part, row));
        if is_false(so_far) {
            return so_far;
        }
    }
    so_far
}

#[cycle(truth)]
fn greatest(parts: &Sequence<CondOf<Operand>>, row: &Cells) -> Truth
    ensures { result ≡ greatest (map (row_truth row.now) parts.now) }
{
    let mut so_far = Truth::False;
    for part in parts.as_slice() {
        so_far = truth_or(so_far, truth_in(part, row));
        if is_true(so_far) {
            return so_far;
        }
    }
    so_far
}

#[cycle(truth)]
fn truth_in(condition: &CondOf<Operand>, row: &Cells) -> Truth
    ensures { result ≡ row_truth row.now condition.now }
{
    match condition {
        CondOf::All(parts) => least(parts, row),
        CondOf::Any(parts) => greatest(parts, row),
        CondOf::Not(part) => truth_not(truth_in(part.get(), row)),
        CondOf::Compare { op, left, right } => is_compared(*op, left, right, row),
        CondOf::Between { value, low, high } => is_between(value, low, high, row),
        CondOf::Among { value, list } => is_among(value, list, row),
        CondOf::Missing { value } => is_missing(value, row),
    }
}

/// Whether a condition is true of a row.
pub(crate) fn holds_in(condition: &CondOf<Operand>, row: &Cells) -> bool
    ensures { IsTrue result ↔ (row_truth row.now condition.now ≡ Truly) }
{
    is_true(truth_in(condition, row))
}
