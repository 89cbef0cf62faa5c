//! Masked expressions: what replaces a column reference under the rules in force.
ghost use Rattle.std.specs.Prelude.{◌≡◌, IfOk, Some, map};
ghost use Rattle.hippo_model.specs.declared.policy.Gate.TheVariants.{With};
ghost use Rattle.hippo_model.specs.declared.query.Expr.TheVariants.{Literal as LiteralExpr};
ghost use Rattle.hippo_rewrite.specs.Rewriting.{expr_by, column_expr, masked_column, masked_operand};

use hippo_model::{Expr, Exprs, Gate, Operand, Ref, Refs, RulesInForce, TableRules};
use hippo_values::{Duplicate, Memory, Name, Sequence, Value};
use std::alloc::Global;

// The expression of a column that a patient's choice shows. If the table's rows are not about
// patients, it is denied.
fn by_choice(
    alloc: Global,
    subject: Option<usize>,
    column: Ref,
    rule: u64,
    item: &Name,
    opt_in: bool,
    after: &Option<i64>,
) -> Result<Expr, Memory>
    ensures { IfOk result (λ made. made ≡ expr_by subject column
        (With rule item.now opt_in after.now)) }
{
    match subject {
        None => Ok(Expr::Null(rule)),
        Some(place) => {
            let item = item.copy(alloc)?;
            let subject = Ref {
                table: column.table,
                column: place,
            };
            Ok(Expr::Case {
                column,
                subject,
                item,
                rule,
                opt_in,
                after: *after,
            })
        }
    }
}

fn by_gate(alloc: Global, subject: Option<usize>, column: Ref, gate: &Gate) -> Result<Expr, Memory>
    ensures { IfOk result (λ made. made ≡ expr_by subject column gate.now) }
{
    match gate {
        Gate::Always => Ok(Expr::Keep(column)),
        Gate::Never(rule) => Ok(Expr::Null(*rule)),
        Gate::Aged { rule, after } => Ok(Expr::Aged {
            column,
            rule: *rule,
            after: *after,
        }),
        Gate::With {
            rule,
            item,
            opt_in,
            after,
        } => by_choice(alloc, subject, column, *rule, item, *opt_in, after),
    }
}

/// The masked expression of a column of a table with these rules. Fails when out of memory.
pub fn column_expr(alloc: Global, table: &TableRules, column: Ref) -> Result<Expr, Memory>
    ensures { IfOk result (λ made. made ≡ column_expr table.now column) }
{
    match table.gates.as_slice().get(column.column) {
        None => Ok(Expr::Null(0)),
        Some(gate) => by_gate(alloc, table.subject, column, gate),
    }
}

fn masked_column(alloc: Global, column: Ref, rules: &RulesInForce) -> Result<Expr, Memory>
    ensures { IfOk result (λ made. made ≡ masked_column rules.now column) }
{
    match rules.as_slice().get(column.table) {
        None => Ok(Expr::Null(0)),
        Some(table) => column_expr(alloc, table, column),
    }
}

fn literal(alloc: Global, value: &Value) -> Result<Expr, Memory>
    ensures { IfOk result (λ made. made ≡ LiteralExpr value.now) }
{
    Ok(Expr::Literal(value.copy(alloc)?))
}

/// The masked expression of an operand of a condition. Fails when out of memory.
pub fn masked_operand(
    alloc: Global,
    operand: &Operand,
    rules: &RulesInForce,
) -> Result<Expr, Memory>
    ensures { IfOk result (λ made. made ≡ masked_operand rules.now operand.now) }
{
    match operand {
        Operand::Column(column) => masked_column(alloc, *column, rules),
        Operand::Literal(value) => literal(alloc, value),
    }
}

/// For each column reference, its masked expression: the column itself, NULL with the rule that
/// denies it, or the column as its row's age and the patient's choice show it. A reference to no
/// column is never shown. Fails when out of memory.
pub fn mask_columns(alloc: Global, columns: &Refs, rules: &RulesInForce) -> Result<Exprs, Memory>
    ensures { IfOk result (λ exprs. exprs ≡ map (masked_column rules.now) columns.now) }
{
    let mut exprs = Sequence::new(alloc);
    for column in columns.as_slice() {
        exprs.push(masked_column(alloc, *column, rules)?)?;
    }
    Ok(exprs)
}
