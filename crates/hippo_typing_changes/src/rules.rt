//! ALLOW and REVOKE.
ghost use Rattle.std.specs.Prelude.{◌≡◌, IfOk};
ghost use Rattle.hippo_stmt_ast.specs.declared.statement.Stmt.TheVariants.{Revoke};
ghost use Rattle.hippo_typing_catalog.specs.Refusals.{Resolves};
ghost use Rattle.hippo_typing_catalog.specs.ChangesRefused.{rule_item_refused};
ghost use Rattle.hippo_typing_changes.specs.Checking.{Checks, ChecksRule, rule_act};

use crate::columns::distinct_places;
use crate::names::{check_item_if_any, known_table};
use hippo_model::{Act, NameFault, Names, Places, Schema, Wanted};
use hippo_typing_catalog::{Catalog, check_pair, name_faults};
use hippo_values::{Duplicate, Memory, Name};
use std::alloc::Global;

// Checks that a rule with an item is for a table with a SUBJECT.
fn check_subject(alloc: Global, schema: &Schema, item: &Option<Name>) -> Result<(), NameFault>
    ensures { Resolves (rule_item_refused item.now schema.now) tt result }
{
    if item.is_some() && schema.subject.is_none() {
        return Err(name_faults::no_subject(alloc, &schema.name));
    }
    Ok(())
}

fn copied_if_any(alloc: Global, name: &Option<Name>) -> Result<Option<Name>, Memory>
    ensures { IfOk result (λ made. made ≡ name.now) }
{
    match name {
        None => Ok(None),
        Some(name) => Ok(Some(name.copy(alloc)?)),
    }
}

fn rule_act(
    alloc: Global,
    is_shown: bool,
    purpose: &Name,
    recipient: &Name,
    table: &Name,
    columns: Places,
    item: &Option<Name>,
    days: Option<u32>,
) -> Result<Act, Memory>
    ensures { IfOk result (λ act. act ≡ rule_act is_shown purpose.now recipient.now table.now columns
        item.now days) }
{
    if is_shown {
        return Ok(Act::Allow {
            purpose: purpose.copy(alloc)?,
            recipient: recipient.copy(alloc)?,
            table: table.copy(alloc)?,
            columns,
            item: copied_if_any(alloc, item)?,
            days,
        });
    }
    Ok(Act::Revoke {
        purpose: purpose.copy(alloc)?,
        recipient: recipient.copy(alloc)?,
        table: table.copy(alloc)?,
        columns,
    })
}

/// Checks an ALLOW (`is_shown`) or a REVOKE, which names no item.
pub fn check_rule(
    alloc: Global,
    catalog: &Catalog,
    is_shown: bool,
    purpose: &Name,
    recipient: &Name,
    table: &Name,
    columns: &Names,
    item: &Option<Name>,
    days: Option<u32>,
) -> Result<Wanted, NameFault>
    ensures { ChecksRule catalog.now.names is_shown purpose.now recipient.now table.now columns.now
        item.now days result }
{
    let found = known_table(alloc, catalog, table)?;
    check_pair(alloc, catalog, purpose, recipient)?;
    check_item_if_any(alloc, catalog, item)?;
    let columns = distinct_places(alloc, found, columns.as_slice())?;
    check_subject(alloc, found.schema(), item)?;
    let act = rule_act(
        alloc, is_shown, purpose, recipient, table, columns, item, days,
    )?;
    Ok(Wanted::Ready(act))
}

/// Checks a REVOKE, for columns that a rule no longer shows.
pub fn check_revoke(
    alloc: Global,
    catalog: &Catalog,
    purpose: &Name,
    recipient: &Name,
    table: &Name,
    columns: &Names,
) -> Result<Wanted, NameFault>
    ensures { Checks catalog.now.names (Revoke purpose.now recipient.now table.now columns.now)
        result }
{
    check_rule(
        alloc, catalog, false, purpose, recipient, table, columns, &None, None,
    )
}
