//! Guards: the key cells that must be shown for a row to count.
ghost use Rattle.std.specs.Prelude.{◌≡◌, ◌++◌, IfOk, OnOk};
ghost use Rattle.hippo_rewrite.specs.Rewriting.{key_guard, table_guards, guards_from};

use crate::expressions::column_expr;
use hippo_model::{Guard, Guards, Ref, RulesInForce, TableRules};
use hippo_values::{Memory, Sequence};
use std::alloc::Global;

fn key_guard(
    alloc: Global,
    place: usize,
    table: &TableRules,
    column: usize,
) -> Result<Guard, Memory>
    ensures { IfOk result (λ made. made ≡ key_guard place table.now column) }
{
    let column = Ref {
        table: place,
        column,
    };
    let expr = column_expr(alloc, table, column)?;
    Ok(Guard { table: place, expr })
}

// Appends a guard for each key column of a table.
fn push_guards(
    alloc: Global,
    guards: &mut Guards,
    place: usize,
    table: &TableRules,
) -> Result<(), Memory>
    ensures { OnOk result (guards.new ≡ guards.old ++ table_guards place table.now) }
{
    for column in table.key.as_slice() {
        guards.push(key_guard(alloc, place, table, *column)?)?;
    }
    Ok(())
}

/// A guard for each key column of each table. Fails when out of memory.
pub fn guards(alloc: Global, rules: &RulesInForce) -> Result<Guards, Memory>
    ensures { IfOk result (λ made. made ≡ guards_from 0 rules.now) }
{
    let mut guards = Sequence::new(alloc);
    for (place, table) in rules.as_slice().iter().enumerate() {
        push_guards(alloc, &mut guards, place, table)?;
    }
    Ok(guards)
}
