//! The truth of a condition in a combination of rows.
ghost use Rattle.std.specs.Prelude.{◌≡◌, ◌↔◌, [], map, IsTrue};
ghost use Rattle.hippo_values.specs.declared.truths.CompareOp.TheVariants.{Eq as Equal, Le as AtMost, Ge as AtLeast};
ghost use Rattle.hippo_values.specs.declared.truths.Truth.TheVariants.{False as Untrue, True as Truly};
ghost use Rattle.hippo_values.specs.declared.values.Value.TheVariants.{Int};
ghost use Rattle.hippo_values.specs.Truths.{truth_and, truth_of, comparison};
ghost use Rattle.hippo_model.specs.Conditions.{greatest, is_null};
ghost use Rattle.hippo_model.specs.Forms.{value_in};
ghost use Rattle.hippo_eval.specs.LentCells.{lent_cell};
ghost use Rattle.hippo_eval.specs.PartTruths.{truth_of_both, truth_of_all};
ghost use Rattle.hippo_model.specs.MaskedTruth.{masked_value, masked_truth};

use crate::cells::{LentCell, cell, cell_by_rule, plain_value};
use hippo_model::{ChoiceView, Combo, CondOf, Expr, Exprs};
use hippo_values::{
    CompareOp, Sequence, Truth, Value, compare, is_allowed, truth_and, truth_not, truth_or,
};

#[inline(always)]
fn is_false(truth: Truth) -> bool
    ensures { IsTrue result ↔ (truth ≡ Untrue) }
{
    matches!(truth, Truth::False)
}

#[inline(always)]
fn is_true(truth: Truth) -> bool
    ensures { IsTrue result ↔ (truth ≡ Truly) }
{
    matches!(truth, Truth::True)
}

// The result of a comparison of two numbers.
#[inline(always)]
fn compared_numbers(op: CompareOp, left: &i64, right: &i64) -> Truth
    ensures { result ≡ comparison op (Int left.now) (Int right.now) }
{
    if is_allowed(op, left.cmp(right)) {
        Truth::True
    } else {
        Truth::False
    }
}

// The result of a comparison of two values. Numbers, the usual case, are compared without a call.
#[inline(always)]
fn compared_values(op: CompareOp, left: &Value, right: &Value) -> Truth
    ensures { result ≡ comparison op left.now right.now }
{
    match (left, right) {
        (Value::Int(left), Value::Int(right)) => compared_numbers(op, left, right),
        _ => compare(op, left, right),
    }
}

// The result of a comparison of two cells. A denied cell counts as null.
fn compared(op: CompareOp, left: &LentCell<'_>, right: &LentCell<'_>) -> Truth
    ensures { result ≡ comparison op (value_in (lent_cell left.now))
        (value_in (lent_cell right.now)) }
{
    let left = left.value().unwrap_or(&Value::Null);
    compared_values(op, left, right.value().unwrap_or(&Value::Null))
}

// The result of a comparison of a cell with an expression. Not inlined, so that `compared_exprs`
// compares unmasked values in few instructions.
#[inline(never)]
fn compared_with<C: ChoiceView>(
    op: CompareOp,
    left: &LentCell<'_>,
    right: &Expr,
    combo: &Combo<'_>,
    choices: &C,
) -> Truth
    ensures { result ≡ comparison op (value_in (lent_cell left.now))
        (masked_value (C.choices choices.now) combo.now right.now) }
{
    compared(op, left, &cell(right, combo, choices))
}

// The result of a comparison of two expressions.
#[inline(always)]
fn compared_exprs<C: ChoiceView>(
    op: CompareOp,
    left: &Expr,
    right: &Expr,
    combo: &Combo<'_>,
    choices: &C,
) -> Truth
    ensures { let value_of = masked_value (C.choices choices.now) combo.now in
        result ≡ comparison op (value_of left.now) (value_of right.now) }
{
    match (plain_value(left, combo), plain_value(right, combo)) {
        (Some(left), Some(right)) => compared_values(op, left, right),
        _ => {
            let left = cell_by_rule(left, combo, choices);
            compared_with(op, &left, right, combo, choices)
        }
    }
}

fn is_between<C: ChoiceView>(
    value: &LentCell<'_>,
    low: &Expr,
    high: &Expr,
    combo: &Combo<'_>,
    choices: &C,
) -> Truth
    ensures { let value = value_in (lent_cell value.now) in
        result ≡ truth_and
        (comparison AtLeast value (masked_value (C.choices choices.now) combo.now low.now))
        (comparison AtMost value (masked_value (C.choices choices.now) combo.now high.now)) }
{
    truth_and(
        compared_with(CompareOp::Ge, value, low, combo, choices),
        compared_with(CompareOp::Le, value, high, combo, choices),
    )
}

fn is_among<C: ChoiceView>(value: &Expr, list: &Exprs, combo: &Combo<'_>, choices: &C) -> Truth
    ensures { let value_of = masked_value (C.choices choices.now) combo.now in
        result ≡ greatest (map (λ member. comparison Equal (value_of value.now) (value_of member))
        list.now) }
{
    let value = cell(value, combo, choices);
    let mut so_far = Truth::False;
    for member in list.as_slice() {
        let equal = compared_with(CompareOp::Eq, &value, member, combo, choices);
        so_far = truth_or(so_far, equal);
        if is_true(so_far) {
            return so_far;
        }
    }
    so_far
}

fn is_missing<C: ChoiceView>(value: &Expr, combo: &Combo<'_>, choices: &C) -> Truth
    ensures { result ≡ truth_of (is_null
        (masked_value (C.choices choices.now) combo.now value.now)) }
{
    match cell(value, combo, choices).value().unwrap_or(&Value::Null) {
        Value::Null => Truth::True,
        _ => Truth::False,
    }
}

// The same as `test`, which is not inlined, but a comparison is evaluated without a call.
#[inline(always)]
#[cycle(truth)]
pub(crate) fn part_truth<C: ChoiceView>(
    part: &CondOf<Expr>,
    combo: &Combo<'_>,
    choices: &C,
) -> Truth
    ensures { result ≡ masked_truth (C.choices choices.now) combo.now part.now }
{
    match part {
        CondOf::Compare { op, left, right } => compared_exprs(*op, left, right, combo, choices),
        _ => test(part, combo, choices),
    }
}

// The lesser of two truths for All, the greater for Any.
#[inline(always)]
fn truth_of_both(all: bool, left: Truth, right: Truth) -> Truth
    ensures { result ≡ truth_of_both all left right }
{
    if all {
        truth_and(left, right)
    } else {
        truth_or(left, right)
    }
}

// The truth of an empty list of parts.
#[inline(always)]
fn truth_of_none(all: bool) -> Truth
    ensures { result ≡ truth_of_all all [] }
{
    if all { Truth::True } else { Truth::False }
}

// Whether no further part can change this truth.
#[inline(always)]
fn is_settled(all: bool, truth: Truth) -> bool
    ensures { IsTrue result → (other : _) → truth_of_both all truth other ≡ truth }
{
    if all { is_false(truth) } else { is_true(truth) }
}

// The least of the parts' truths for All, the greatest for Any.
#[inline(always)]
#[cycle(truth)]
fn truth_of_all<C: ChoiceView>(
    all: bool,
    parts: &Sequence<CondOf<Expr>>,
    combo: &Combo<'_>,
    choices: &C,
) -> Truth
    ensures { result
        ≡ truth_of_all all (map (masked_truth (C.choices choices.now) combo.now) parts.now) }
{
    let mut so_far = truth_of_none(all);
    for part in parts.as_slice() {
        so_far = truth_of_both(all, so_far, part_truth(part, combo, choices));
        if is_settled(all, so_far) {
            return so_far;
        }
    }
    so_far
}

/// The truth of a condition in a combination of rows, by SQL's three-valued logic. Each expression
/// has the value of its cell, and a denied cell counts as null. Allocates no memory.
#[cycle(truth)]
pub fn test<C: ChoiceView>(cond: &CondOf<Expr>, combo: &Combo<'_>, choices: &C) -> Truth
    ensures { result ≡ masked_truth (C.choices choices.now) combo.now cond.now }
{
    match cond {
        CondOf::All(parts) => truth_of_all(true, parts, combo, choices),
        CondOf::Any(parts) => truth_of_all(false, parts, combo, choices),
        CondOf::Not(part) => truth_not(test(part.get(), combo, choices)),
        CondOf::Compare { op, left, right } => { compared_exprs(*op, left, right, combo, choices) }
        CondOf::Between { value, low, high } => {
            let value = cell(&*value, &*combo, &*choices);
            is_between(&value, low, high, combo, choices)
        }
        CondOf::Among { value, list } => is_among(value, list, combo, choices),
        CondOf::Missing { value } => is_missing(value, combo, choices),
    }
}
