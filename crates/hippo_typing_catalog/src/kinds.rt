//! Checks that compared operands have the same kind.
ghost use Rattle.std.specs.Prelude.{◌≡◌, ◌∷◌, [], ◌++◌, option_map, option_to_list};
ghost use Rattle.std.specs.List.{list_any};
ghost use Rattle.hippo_typing_catalog.specs.Refusals.{Resolves};
ghost use Rattle.hippo_typing_catalog.specs.Kinds.{kind_of, same_kind};
ghost use Rattle.hippo_typing_catalog.specs.WrittenColumns.{column_at};
ghost use Rattle.hippo_typing_catalog.specs.Comparisons.{comparisons, operand_kind, are_alike, mixes_kinds, kinds_refused};

use crate::indexed_table::StatementTables;
use hippo_model::{ColumnKind, CondOf, NameFault, Operand, Operands, Ref};
use hippo_values::{Sequence, Value};

fn kind_of(value: &Value) -> Option<ColumnKind>
    ensures { result ≡ kind_of value.now }
{
    match value {
        Value::Null => None,
        Value::Int(_) => Some(ColumnKind::Integer),
        Value::Text(_) => Some(ColumnKind::Text),
        Value::Day(_) => Some(ColumnKind::Date),
    }
}

fn column_kind(tables: &StatementTables<'_>, reference: &Ref) -> Option<ColumnKind>
    ensures { result ≡ option_map (λ column. column.kind) (column_at tables.now reference.now) }
{
    if reference.table >= tables.len() {
        return None;
    }
    let columns = tables.get(reference.table).schema().columns.as_slice();
    columns.get(reference.column).map(|column| column.kind)
}

fn operand_kind(tables: &StatementTables<'_>, operand: &Operand) -> Option<ColumnKind>
    ensures { result ≡ operand_kind tables.now operand.now }
{
    match operand {
        Operand::Column(reference) => column_kind(tables, reference),
        Operand::Literal(value) => kind_of(value),
    }
}

fn same_kind(a: ColumnKind, b: ColumnKind) -> bool
    ensures { result ≡ same_kind a b }
{
    a == b
}

// Whether two kinds are the same; true if one of them is missing.
fn agree(first: Option<ColumnKind>, kind: Option<ColumnKind>) -> bool
    ensures { result ≡ are_alike (option_to_list first ++ option_to_list kind) }
{
    match (first, kind) {
        (Some(first), Some(kind)) => same_kind(first, kind),
        _ => true,
    }
}

fn mixes_two(tables: &StatementTables<'_>, left: &Operand, right: &Operand) -> bool
    ensures { result ≡ mixes_kinds tables.now (left.now ∷ right.now ∷ []) }
{
    !agree(operand_kind(tables, left), operand_kind(tables, right))
}

fn mixes_three(tables: &StatementTables<'_>, value: &Operand, low: &Operand, high: &Operand) -> bool
    ensures { result ≡ mixes_kinds tables.now (value.now ∷ low.now ∷ high.now ∷ []) }
{
    let first = operand_kind(tables, value);
    let second = operand_kind(tables, low);
    !agree(first, second) || !agree(first.or(second), operand_kind(tables, high))
}

fn mixes_list(tables: &StatementTables<'_>, value: &Operand, list: &Operands) -> bool
    ensures { result ≡ mixes_kinds tables.now (value.now ∷ list.now) }
{
    let mut first = operand_kind(tables, value);
    for member in list.as_slice() {
        let kind = operand_kind(tables, member);
        if !agree(first, kind) {
            return true;
        }
        first = first.or(kind);
    }
    false
}

// Whether a condition compares operands of different kinds.
#[cycle(mixes_kinds)]
#[tactic(auto, using(crate::proofs::ComparedOperands::any_comparison))]
fn mixes_kinds(tables: &StatementTables<'_>, condition: &CondOf<Operand>) -> bool
    ensures { result ≡ list_any (mixes_kinds tables.now) (comparisons condition.now) }
{
    match condition {
        CondOf::All(parts) => any_mixes_kinds(tables, parts),
        CondOf::Any(parts) => any_mixes_kinds(tables, parts),
        CondOf::Not(part) => mixes_kinds(tables, part.get()),
        CondOf::Compare { left, right, .. } => mixes_two(tables, left, right),
        CondOf::Between { value, low, high } => mixes_three(tables, value, low, high),
        CondOf::Among { value, list } => mixes_list(tables, value, list),
        CondOf::Missing { .. } => false,
    }
}

#[cycle(mixes_kinds)]
fn any_mixes_kinds(tables: &StatementTables<'_>, parts: &Sequence<CondOf<Operand>>) -> bool
    ensures { result ≡ list_any (λ part. list_any (mixes_kinds tables.now) (comparisons part))
        parts.now }
{
    for part in parts.as_slice() {
        if mixes_kinds(tables, part) {
            return true;
        }
    }
    false
}

/// Refuses a condition that compares operands of different kinds.
pub fn check_kinds(
    tables: &StatementTables<'_>,
    condition: &CondOf<Operand>,
) -> Result<(), NameFault>
    ensures { Resolves (kinds_refused tables.now condition.now) tt result }
{
    if mixes_kinds(tables, condition) {
        return Err(NameFault::TypeMismatch);
    }
    Ok(())
}
