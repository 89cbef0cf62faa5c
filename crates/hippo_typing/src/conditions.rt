//! Conditions with their columns resolved.
ghost use Rattle.std.specs.Prelude.{◌∷◌, [], flat_map, map, if◌then◌else◌};
ghost use Rattle.hippo_model.specs.declared.query.CondOf.TheVariants.{All, Any, Not, Compare, Between, Among, Missing};
ghost use Rattle.hippo_typing_catalog.specs.Refusals.{Resolves};
ghost use Rattle.hippo_typing_catalog.specs.Comparisons.{operand_refused, operand_of, operands_refused, condition_of};

use crate::written::{Written, found_each};
use hippo_model::{CondOf, NameFault, Operand, Operands};
use hippo_stmt_ast::{RawCond, RawOperand};
use hippo_typing_catalog::StatementTables;
use hippo_values::{Boxed, CompareOp, Duplicate, Sequence};
use std::alloc::Global;

type RawOperands = Sequence<RawOperand>;

impl Written for RawOperand {
    type Found = Operand;

    ghost refused = { operand_refused };

    ghost meant = { operand_of };

    fn find(&self, alloc: Global, tables: &StatementTables<'_>) -> Result<Operand, NameFault> {
        match self {
            RawOperand::Column(written) => Ok(Operand::Column(written.get().find(alloc, tables)?)),
            RawOperand::Literal(value) => Ok(Operand::Literal(value.copy(alloc)?)),
        }
    }
}

fn found_list(
    alloc: Global,
    tables: &StatementTables<'_>,
    list: &RawOperands,
) -> Result<Operands, NameFault>
    ensures { Resolves (flat_map (operand_refused tables.now) list.now)
        (map (operand_of tables.now) list.now) result }
{
    found_each(alloc, tables, list.as_slice())
}

fn found_comparison(
    alloc: Global,
    tables: &StatementTables<'_>,
    op: CompareOp,
    left: &RawOperand,
    right: &RawOperand,
) -> Result<CondOf<Operand>, NameFault>
    ensures { Resolves (flat_map (operand_refused tables.now) (left.now ∷ right.now ∷ []))
        (Compare op (operand_of tables.now left.now) (operand_of tables.now right.now)) result }
{
    let left = left.find(alloc, tables)?;
    let right = right.find(alloc, tables)?;
    Ok(CondOf::Compare { op, left, right })
}

fn found_between(
    alloc: Global,
    tables: &StatementTables<'_>,
    value: &RawOperand,
    low: &RawOperand,
    high: &RawOperand,
) -> Result<CondOf<Operand>, NameFault>
    ensures { Resolves (flat_map (operand_refused tables.now) (value.now ∷ low.now ∷ high.now ∷ []))
        (Between (operand_of tables.now value.now) (operand_of tables.now low.now)
        (operand_of tables.now high.now))
        result }
{
    let value = value.find(alloc, tables)?;
    let low = low.find(alloc, tables)?;
    let high = high.find(alloc, tables)?;
    Ok(CondOf::Between { value, low, high })
}

fn found_among(
    alloc: Global,
    tables: &StatementTables<'_>,
    value: &RawOperand,
    list: &RawOperands,
) -> Result<CondOf<Operand>, NameFault>
    ensures { Resolves (flat_map (operand_refused tables.now) (value.now ∷ list.now))
        (Among (operand_of tables.now value.now) (map (operand_of tables.now) list.now)) result }
{
    let value = value.find(alloc, tables)?;
    let list = found_list(alloc, tables, list)?;
    Ok(CondOf::Among { value, list })
}

fn found_missing(
    alloc: Global,
    tables: &StatementTables<'_>,
    value: &RawOperand,
) -> Result<CondOf<Operand>, NameFault>
    ensures { Resolves (flat_map (operand_refused tables.now) (value.now ∷ []))
        (Missing (operand_of tables.now value.now)) result }
{
    let value = value.find(alloc, tables)?;
    Ok(CondOf::Missing { value })
}

/// A condition with its columns resolved. Each must belong to exactly one of the statement's
/// tables.
#[cycle(found_condition)]
pub fn found_condition(
    alloc: Global,
    tables: &StatementTables<'_>,
    condition: &RawCond,
) -> Result<CondOf<Operand>, NameFault>
    ensures { Resolves (operands_refused tables.now condition.now)
        (condition_of tables.now condition.now) result }
{
    match condition {
        CondOf::All(parts) => found_junction(alloc, tables, true, parts),
        CondOf::Any(parts) => found_junction(alloc, tables, false, parts),
        CondOf::Not(part) => found_not(alloc, tables, part),
        CondOf::Compare { op, left, right } => found_comparison(alloc, tables, *op, left, right),
        CondOf::Between { value, low, high } => found_between(alloc, tables, value, low, high),
        CondOf::Among { value, list } => found_among(alloc, tables, value, list),
        CondOf::Missing { value } => found_missing(alloc, tables, value),
    }
}

#[cycle(found_condition)]
fn found_parts(
    alloc: Global,
    tables: &StatementTables<'_>,
    parts: &Sequence<RawCond>,
) -> Result<Sequence<CondOf<Operand>>, NameFault>
    ensures { Resolves (flat_map (operands_refused tables.now) parts.now)
        (map (condition_of tables.now) parts.now) result }
{
    let mut found = Sequence::with_capacity(alloc, parts.len())?;
    for part in parts.as_slice() {
        found.push(found_condition(alloc, tables, part)?)?;
    }
    Ok(found)
}

// An AND or an OR of several parts.
#[cycle(found_condition)]
fn found_junction(
    alloc: Global,
    tables: &StatementTables<'_>,
    is_all: bool,
    parts: &Sequence<RawCond>,
) -> Result<CondOf<Operand>, NameFault>
    ensures { Resolves (flat_map (operands_refused tables.now) parts.now)
        (if is_all then All (map (condition_of tables.now) parts.now)
        else Any (map (condition_of tables.now) parts.now)) result }
{
    let parts = found_parts(alloc, tables, parts)?;
    if is_all {
        return Ok(CondOf::All(parts));
    }
    Ok(CondOf::Any(parts))
}

#[cycle(found_condition)]
fn found_not(
    alloc: Global,
    tables: &StatementTables<'_>,
    part: &Boxed<RawCond>,
) -> Result<CondOf<Operand>, NameFault>
    ensures { Resolves (operands_refused tables.now part.now)
        (Not (condition_of tables.now part.now)) result }
{
    let part = found_condition(alloc, tables, part.get())?;
    Ok(CondOf::Not(Boxed::new(alloc, part)?))
}
