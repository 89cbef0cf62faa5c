//! Faults that name no column. If there is no memory to copy the name, the fault is out of memory.
ghost use Rattle.std.specs.Prelude.{◌≡◌, ◌∷◌, [], IfOk};
ghost use Rattle.hippo_model.specs.declared.name_fault.NameFault.TheVariants as faults;
ghost use Rattle.hippo_typing_catalog.specs.Refusals.{IsFirstOf};

use hippo_model::NameFault;
use hippo_values::{Boxed, Duplicate, Memory, Name};
use std::alloc::Global;

/// A copy of a name, in a box, for a fault.
pub fn boxed_name(alloc: Global, name: &Name) -> Result<Boxed<Name>, Memory>
    ensures { IfOk result (λ made. made ≡ name.now) }
{
    let name = name.copy(alloc)?;
    Boxed::new(alloc, name)
}

/// The fault that there is no table of this name.
pub fn unknown_table(alloc: Global, table: &Name) -> NameFault
    ensures { IsFirstOf (faults.UnknownTable table.now ∷ []) result }
{
    match boxed_name(alloc, table) {
        Ok(table) => NameFault::UnknownTable(table),
        Err(_) => NameFault::Memory,
    }
}

/// The fault that there is no purpose of this name.
pub fn unknown_purpose(alloc: Global, purpose: &Name) -> NameFault
    ensures { IsFirstOf (faults.UnknownPurpose purpose.now ∷ []) result }
{
    match boxed_name(alloc, purpose) {
        Ok(purpose) => NameFault::UnknownPurpose(purpose),
        Err(_) => NameFault::Memory,
    }
}

/// The fault that there is no recipient of this name.
pub fn unknown_recipient(alloc: Global, recipient: &Name) -> NameFault
    ensures { IsFirstOf (faults.UnknownRecipient recipient.now ∷ []) result }
{
    match boxed_name(alloc, recipient) {
        Ok(recipient) => NameFault::UnknownRecipient(recipient),
        Err(_) => NameFault::Memory,
    }
}

/// The fault that there is no item of this name.
pub fn unknown_item(alloc: Global, item: &Name) -> NameFault
    ensures { IsFirstOf (faults.UnknownItem item.now ∷ []) result }
{
    match boxed_name(alloc, item) {
        Ok(item) => NameFault::UnknownItem(item),
        Err(_) => NameFault::Memory,
    }
}

/// The fault that a name to be created already exists.
pub fn already_there(alloc: Global, name: &Name) -> NameFault
    ensures { IsFirstOf (faults.AlreadyThere name.now ∷ []) result }
{
    match boxed_name(alloc, name) {
        Ok(name) => NameFault::AlreadyThere(name),
        Err(_) => NameFault::Memory,
    }
}

/// The fault that a name appears twice in a list.
pub fn repeated_name(alloc: Global, name: &Name) -> NameFault
    ensures { IsFirstOf (faults.RepeatedName name.now ∷ []) result }
{
    match boxed_name(alloc, name) {
        Ok(name) => NameFault::RepeatedName(name),
        Err(_) => NameFault::Memory,
    }
}

/// The fault that a table has no SUBJECT.
pub fn no_subject(alloc: Global, table: &Name) -> NameFault
    ensures { IsFirstOf (faults.NoSubject table.now ∷ []) result }
{
    match boxed_name(alloc, table) {
        Ok(table) => NameFault::NoSubject(table),
        Err(_) => NameFault::Memory,
    }
}
