//! An audit's own conditions on one of its tables: those whose columns all belong to that table.
ghost use Rattle.std.specs.Prelude.{◌≡◌, ◌||◌, not, option_copied};
ghost use Rattle.std.specs.List.{list_all};
ghost use Rattle.hippo_model.specs.Columns.{columns_in, condition_columns};
ghost use Rattle.hippo_model.specs.Conditions.{is_true, outer_parts};
ghost use Rattle.hippo_model.specs.Hits.{own_conditions};
ghost use Rattle.hippo_watch_counts.specs.Rows.{are_of, row_truth, is_found, hit_of};

use crate::conditions::holds_in;
use hippo_model::{Audit, Cells, CondOf, Operand, Operands};
use hippo_values::Sequence;

fn operand_is_of(table: usize, operand: &Operand) -> bool
    ensures { result ≡ are_of table (columns_in operand.now) }
{
    match operand {
        Operand::Column(column) => column.table == table,
        Operand::Literal(_) => true,
    }
}

fn operands_are_of(table: usize, operands: &Operands) -> bool
    ensures { result ≡ list_all (λ operand. are_of table (columns_in operand)) operands.now }
{
    for operand in operands.as_slice() {
        if !operand_is_of(table, operand) {
            return false;
        }
    }
    true
}

// Whether a condition's columns all belong to a table.
#[cycle(is_of)]
#[tactic(auto, using(crate::proofs::OwnColumns::all_own))]
fn is_of(table: usize, condition: &CondOf<Operand>) -> bool
    ensures { result ≡ are_of table (condition_columns condition.now) }
{
    match condition {
        CondOf::All(parts) => all_are_of(table, parts),
        CondOf::Any(parts) => all_are_of(table, parts),
        CondOf::Not(part) => is_of(table, part.get()),
        CondOf::Compare { left, right, .. } => {
            operand_is_of(table, left) && operand_is_of(table, right)
        }
        CondOf::Between { value, low, high } => {
            operand_is_of(table, value) && operand_is_of(table, low) && operand_is_of(table, high)
        }
        CondOf::Among { value, list } => {
            operand_is_of(table, value) && operands_are_of(table, list)
        }
        CondOf::Missing { value } => operand_is_of(table, value),
    }
}

#[cycle(is_of)]
fn all_are_of(table: usize, parts: &Sequence<CondOf<Operand>>) -> bool
    ensures { result ≡ list_all (λ part. are_of table (condition_columns part)) parts.now }
{
    for part in parts.as_slice() {
        if !is_of(table, part) {
            return false;
        }
    }
    true
}

// The parts of a condition's outermost All.
fn outer_parts(condition: &CondOf<Operand>) -> &[CondOf<Operand>]
    ensures { result.now ≡ outer_parts condition.now }
{
    match condition {
        CondOf::All(parts) => parts.as_slice(),
        _ => std::slice::from_ref(condition),
    }
}

// Whether a condition is true of a row.
fn holds(condition: &CondOf<Operand>, row: &Cells) -> bool
    ensures { result ≡ is_true (row_truth row.now condition.now) }
{
    holds_in(condition, row)
}

// Whether a condition lets a row of a table pass: it is true of the row, or it is not one of the
// table's own conditions.
fn passes(table: usize, condition: &CondOf<Operand>, row: &Cells) -> bool
    ensures { result ≡ (not (are_of table (condition_columns condition.now))
        || is_true (row_truth row.now condition.now)) }
{
    !is_of(table, condition) || holds(condition, row)
}

fn all_pass(table: usize, conditions: &[CondOf<Operand>], row: &Cells) -> bool
    ensures { result ≡ list_all (λ condition. not (are_of table (condition_columns condition))
        || is_true (row_truth row.now condition)) conditions.now }
{
    for condition in conditions {
        if !passes(table, condition, row) {
            return false;
        }
    }
    true
}

/// Whether an audit's own conditions on the table at a place are all true of a row.
pub(crate) fn is_found(audit: &Audit, table: usize, row: &Cells) -> bool
    ensures { result ≡ is_found (own_conditions audit.now table) row.now }
{
    all_pass(table, outer_parts(&audit.cond), row)
}

/// 1 if an audit's own conditions on the table at a place find the row; 0 if they do not, or if
/// there is no row.
pub(crate) fn hit_of(audit: &Audit, table: usize, row: Option<&Cells>) -> u64
    ensures { result ≡ hit_of (own_conditions audit.now table) (option_copied row.entry) }
{
    match row {
        Some(row) => u64::from(is_found(audit, table, row)),
        None => 0,
    }
}
