//! The operands of conditions: replacing them, and finding one.
ghost use Rattle.std.specs.Prelude.{◌≡◌, Bool, IfOk, map};
ghost use Rattle.std.specs.List.{list_any};
ghost use Rattle.hippo_model.specs.declared.query.CondOf.TheVariants.{Not, Compare, Between, Among, Missing};
ghost use Rattle.hippo_model.specs.Conditions.{changed_operands, operands};

use crate::query::CondOf;
use hippo_values::{Boxed, CompareOp, Duplicate, Memory, Sequence};
use std::alloc::Global;

/// A replacement for the operands of a condition.
pub trait Change<O, P> {
    /// The replacement of each operand.
    ghost to: { Self → O → P };

    fn change(&self, alloc: Global, operand: &O) -> Result<P, Memory>
        ensures { IfOk result (λ made. made ≡ to self.now operand.now) };
}

/// Copies a condition and replaces each operand.
#[cycle(changed_condition)]
pub fn changed_condition<O, P: Drop, C: Change<O, P>>(
    alloc: Global,
    condition: &CondOf<O>,
    change: &C,
) -> Result<CondOf<P>, Memory>
    ensures { IfOk result (λ made. made ≡ changed_operands (C.to change.now) condition.now) }
{
    match condition {
        CondOf::All(parts) => Ok(CondOf::All(changed_parts(alloc, parts, change)?)),
        CondOf::Any(parts) => Ok(CondOf::Any(changed_parts(alloc, parts, change)?)),
        CondOf::Not(part) => changed_not(alloc, part, change),
        CondOf::Compare { op, left, right } => changed_comparison(alloc, *op, left, right, change),
        CondOf::Between { value, low, high } => changed_between(alloc, value, low, high, change),
        CondOf::Among { value, list } => changed_among(alloc, value, list, change),
        CondOf::Missing { value } => changed_missing(alloc, value, change),
    }
}

#[cycle(changed_condition)]
fn changed_parts<O, P: Drop, C: Change<O, P>>(
    alloc: Global,
    parts: &Sequence<CondOf<O>>,
    change: &C,
) -> Result<Sequence<CondOf<P>>, Memory>
    ensures { IfOk result (λ made. made ≡ map (changed_operands (C.to change.now)) parts.now) }
{
    let mut made = Sequence::with_capacity(alloc, parts.len())?;
    for part in parts.as_slice() {
        made.push(changed_condition(alloc, part, change)?)?;
    }
    Ok(made)
}

#[cycle(changed_condition)]
fn changed_not<O, P: Drop, C: Change<O, P>>(
    alloc: Global,
    part: &Boxed<CondOf<O>>,
    change: &C,
) -> Result<CondOf<P>, Memory>
    ensures { IfOk result (λ made. made ≡ changed_operands (C.to change.now) (Not part.now)) }
{
    let part = changed_condition(alloc, part.get(), change)?;
    Ok(CondOf::Not(Boxed::new(alloc, part)?))
}

fn changed_comparison<O, P: Drop, C: Change<O, P>>(
    alloc: Global,
    op: CompareOp,
    left: &O,
    right: &O,
    change: &C,
) -> Result<CondOf<P>, Memory>
    ensures { IfOk result (λ made. made ≡ changed_operands (C.to change.now)
        (Compare op left.now right.now)) }
{
    let left = change.change(alloc, left)?;
    let right = change.change(alloc, right)?;
    Ok(CondOf::Compare { op, left, right })
}

fn changed_between<O, P: Drop, C: Change<O, P>>(
    alloc: Global,
    value: &O,
    low: &O,
    high: &O,
    change: &C,
) -> Result<CondOf<P>, Memory>
    ensures { IfOk result (λ made. made ≡ changed_operands (C.to change.now)
        (Between value.now low.now high.now)) }
{
    let value = change.change(alloc, value)?;
    let low = change.change(alloc, low)?;
    let high = change.change(alloc, high)?;
    Ok(CondOf::Between { value, low, high })
}

fn changed_list<O, P: Drop, C: Change<O, P>>(
    alloc: Global,
    list: &Sequence<O>,
    change: &C,
) -> Result<Sequence<P>, Memory>
    ensures { IfOk result (λ made. made ≡ map (C.to change.now) list.now) }
{
    let mut made = Sequence::new(alloc);
    for operand in list.as_slice() {
        made.push(change.change(alloc, operand)?)?;
    }
    Ok(made)
}

fn changed_among<O, P: Drop, C: Change<O, P>>(
    alloc: Global,
    value: &O,
    list: &Sequence<O>,
    change: &C,
) -> Result<CondOf<P>, Memory>
    ensures { IfOk result (λ made. made ≡ changed_operands (C.to change.now)
        (Among value.now list.now)) }
{
    let value = change.change(alloc, value)?;
    let list = changed_list(alloc, list, change)?;
    Ok(CondOf::Among { value, list })
}

fn changed_missing<O, P: Drop, C: Change<O, P>>(
    alloc: Global,
    value: &O,
    change: &C,
) -> Result<CondOf<P>, Memory>
    ensures { IfOk result (λ made. made ≡ changed_operands (C.to change.now) (Missing value.now)) }
{
    let value = change.change(alloc, value)?;
    Ok(CondOf::Missing { value })
}

// Replaces each operand by its copy.
struct Copies;

impl<O: Duplicate> Change<O, O> for Copies {
    ghost to = { λ _ operand. operand };

    fn change(&self, alloc: Global, operand: &O) -> Result<O, Memory> {
        operand.copy(alloc)
    }
}

impl<O: Duplicate + Drop> Duplicate for CondOf<O> {
    fn copy(&self, alloc: Global) -> Result<CondOf<O>, Memory> {
        changed_condition(alloc, self, &Copies)
    }
}

/// A test of the operands of a condition.
pub trait OperandTest<O> {
    /// Whether an operand passes.
    ghost passes: { Self → O → Bool };

    fn passes(&self, operand: &O) -> bool
        ensures { result ≡ passes self.now operand.now };
}

fn any_of_list<O, T: OperandTest<O>>(list: &Sequence<O>, test: &T) -> bool
    ensures { result ≡ list_any (T.passes test.now) list.now }
{
    for operand in list.as_slice() {
        if test.passes(operand) {
            return true;
        }
    }
    false
}

/// Whether an operand of a condition passes a test.
#[cycle(any_operand)]
#[tactic(auto, using(crate::proofs::NamedColumns::any_operands))]
pub fn any_operand<O, T: OperandTest<O>>(condition: &CondOf<O>, test: &T) -> bool
    ensures { result ≡ list_any (T.passes test.now) (operands condition.now) }
{
    match condition {
        CondOf::All(parts) => any_of_parts(parts, test),
        CondOf::Any(parts) => any_of_parts(parts, test),
        CondOf::Not(part) => any_operand(part.get(), test),
        CondOf::Compare { left, right, .. } => test.passes(left) || test.passes(right),
        CondOf::Between { value, low, high } => {
            test.passes(value) || (test.passes(low) || test.passes(high))
        }
        CondOf::Among { value, list } => test.passes(value) || any_of_list(list, test),
        CondOf::Missing { value } => test.passes(value),
    }
}

#[cycle(any_operand)]
fn any_of_parts<O, T: OperandTest<O>>(parts: &Sequence<CondOf<O>>, test: &T) -> bool
    ensures { result ≡ list_any (λ part. list_any (T.passes test.now) (operands part)) parts.now }
{
    for part in parts.as_slice() {
        if any_operand(part, test) {
            return true;
        }
    }
    false
}
