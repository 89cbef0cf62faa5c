//! What a changing statement asks for, or why it is refused.
ghost use Rattle.std.specs.Prelude.{◌≡◌, false, Err};
ghost use Rattle.hippo_model.specs.declared.name_fault.NameFault.TheVariants as faults;
ghost use Rattle.hippo_stmt_ast.specs.declared.statement.Stmt.TheVariants.{CreatePurpose, CreateRecipient, CreateItem, Choice, Insert};
ghost use Rattle.hippo_typing_catalog.specs.Refusals.{Resolves};
ghost use Rattle.hippo_typing_catalog.specs.ChangesRefused.{known_name_refused, change_refused};
ghost use Rattle.hippo_typing_catalog.specs.ChangesWanted.{wanted_by, Grants, changes_something};
ghost use Rattle.hippo_typing_changes.specs.Checking.{Checks, ChecksGrant, grant_act};

use crate::keys::{check_delete, check_update};
use crate::names::{check_item, check_new, known_table};
use crate::rules::{check_revoke, check_rule};
use crate::tables::check_create_table;
use crate::values::check_new_row;
use hippo_model::{Act, Cells, ItemKind, NameFault, Wanted, copied_key};
use hippo_stmt_ast::Stmt;
use hippo_typing_catalog::{Catalog, check_pair};
use hippo_values::{Duplicate, Name};
use std::alloc::Global;

// A name that must be new.
fn new_name(alloc: Global, is_there: bool, name: &Name) -> Result<Name, NameFault>
    ensures { Resolves (known_name_refused is_there name.now) name.now result }
{
    check_new(alloc, is_there, name)?;
    Ok(name.copy(alloc)?)
}

fn grant_act(is_given: bool, user: Name, purpose: Name, recipient: Name) -> Act
    ensures { result ≡ grant_act is_given user purpose recipient }
{
    if is_given {
        return Act::Authorize {
            user,
            purpose,
            recipient,
        };
    }
    Act::Deauthorize {
        user,
        purpose,
        recipient,
    }
}

// Checks an AUTHORIZE (`is_given`) or a DEAUTHORIZE.
fn check_grant(
    alloc: Global,
    catalog: &Catalog,
    is_given: bool,
    user: &Name,
    purpose: &Name,
    recipient: &Name,
) -> Result<Wanted, NameFault>
    ensures { ChecksGrant catalog.now.names is_given user.now purpose.now recipient.now result }
{
    check_pair(alloc, catalog, purpose, recipient)?;
    let user = user.copy(alloc)?;
    let purpose = purpose.copy(alloc)?;
    let recipient = recipient.copy(alloc)?;
    Ok(Wanted::Ready(grant_act(is_given, user, purpose, recipient)))
}

fn check_choice(
    alloc: Global,
    catalog: &Catalog,
    subject: &i64,
    item: &Name,
    yes: bool,
) -> Result<Wanted, NameFault>
    ensures { Checks catalog.now.names (Choice subject.now item.now yes) result }
{
    check_item(alloc, catalog, item)?;
    let item = item.copy(alloc)?;
    Ok(Wanted::Ready(Act::Choice {
        subject: *subject,
        item,
        yes,
    }))
}

fn check_insert(
    alloc: Global,
    catalog: &Catalog,
    table: &Name,
    values: &Cells,
) -> Result<Wanted, NameFault>
    ensures { Checks catalog.now.names (Insert table.now values.now) result }
{
    let schema = known_table(alloc, catalog, table)?.schema();
    check_new_row(alloc, schema, values.as_slice())?;
    let table = table.copy(alloc)?;
    let key = copied_key(alloc, schema.key.as_slice(), values.as_slice())?;
    let row = values.copy(alloc)?;
    Ok(Wanted::Add { table, row, key })
}

fn check_purpose(alloc: Global, catalog: &Catalog, name: &Name) -> Result<Wanted, NameFault>
    ensures { Checks catalog.now.names (CreatePurpose name.now) result }
{
    let purpose = new_name(alloc, catalog.has_purpose(name), name)?;
    Ok(Wanted::Ready(Act::Purpose(purpose)))
}

fn check_recipient(alloc: Global, catalog: &Catalog, name: &Name) -> Result<Wanted, NameFault>
    ensures { Checks catalog.now.names (CreateRecipient name.now) result }
{
    let recipient = new_name(alloc, catalog.has_recipient(name), name)?;
    Ok(Wanted::Ready(Act::Recipient(recipient)))
}

fn check_new_item(
    alloc: Global,
    catalog: &Catalog,
    item: &Name,
    kind: ItemKind,
) -> Result<Wanted, NameFault>
    ensures { Checks catalog.now.names (CreateItem item.now kind) result }
{
    let item = new_name(alloc, catalog.item(item).is_some(), item)?;
    Ok(Wanted::Ready(Act::Item { item, kind }))
}

/// What a changing statement asks for, or its first refusal. The check covers names and types,
/// against the catalog's names; the existing rows may still not allow the change. For a statement
/// that changes nothing, the result is out of memory. For one that does, any other error is its
/// first refusal.
pub fn check_change(alloc: Global, catalog: &Catalog, statement: &Stmt) -> Result<Wanted, NameFault>
    ensures answer { Grants (change_refused catalog.now.names statement.now)
        (wanted_by catalog.now.names statement.now) result }
    ensures other { changes_something statement.now ≡ false → result ≡ Err faults.Memory }
{
    match statement {
        Stmt::CreateTable {
            table,
            columns,
            key,
            subject,
        } => check_create_table(alloc, catalog, table, columns, key, subject),
        Stmt::CreatePurpose(name) => check_purpose(alloc, catalog, name),
        Stmt::CreateRecipient(name) => check_recipient(alloc, catalog, name),
        Stmt::CreateItem { item, kind } => check_new_item(alloc, catalog, item, *kind),
        Stmt::Authorize {
            user,
            purpose,
            recipient,
        } => check_grant(alloc, catalog, true, user, purpose, recipient),
        Stmt::Deauthorize {
            user,
            purpose,
            recipient,
        } => check_grant(alloc, catalog, false, user, purpose, recipient),
        Stmt::Allow {
            purpose,
            recipient,
            table,
            columns,
            item,
            days,
        } => check_rule(
            alloc, catalog, true, purpose, recipient, table, columns, item, *days,
        ),
        Stmt::Revoke {
            purpose,
            recipient,
            table,
            columns,
        } => check_revoke(alloc, catalog, purpose, recipient, table, columns),
        Stmt::Choice { subject, item, yes } => check_choice(alloc, catalog, subject, item, *yes),
        Stmt::Insert { table, values } => check_insert(alloc, catalog, table, values),
        Stmt::Update {
            table,
            columns,
            values,
            key_columns,
            key_values,
        } => check_update(
            alloc,
            catalog,
            table,
            columns,
            values,
            key_columns,
            key_values,
        ),
        Stmt::Delete {
            table,
            key_columns,
            key_values,
        } => check_delete(alloc, catalog, table, key_columns, key_values),
        Stmt::Explain(_) | Stmt::Audit(_) | Stmt::BeginAudit(_) | Stmt::Watch(_) => {
            Err(NameFault::Memory)
        }
        Stmt::Select { .. } | Stmt::Ask { .. } | Stmt::Extract { .. } => Err(NameFault::Memory),
    }
}
