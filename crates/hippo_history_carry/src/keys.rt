//! The matters on which entries decide. Of several words on a matter the last one counts.
ghost use Rattle.std.specs.Prelude.{◌≡◌, IfOk};

use hippo_model::Cells;
use hippo_values::{Duplicate, Memory, Name};
use std::alloc::Global;

/// A user, purpose and recipient.
#[derive(Drop, PartialEq, Eq, Hash)]
pub(crate) struct GrantKey {
    user: Name,
    purpose: Name,
    recipient: Name,
}

impl GrantKey {
    pub(crate) fn of(
        alloc: Global,
        user: &Name,
        purpose: &Name,
        recipient: &Name,
    ) -> Result<GrantKey, Memory>
        ensures { IfOk result (λ made. made ≡ record {
          user = user.now;
          purpose = purpose.now;
          recipient = recipient.now;
        }) }
    {
        let user = user.copy(alloc)?;
        let purpose = purpose.copy(alloc)?;
        let recipient = recipient.copy(alloc)?;
        Ok(GrantKey {
            user,
            purpose,
            recipient,
        })
    }
}

/// A patient and an item.
#[derive(Drop, PartialEq, Eq, Hash)]
pub(crate) struct ChoiceKey {
    subject: i64,
    item: Name,
}

impl ChoiceKey {
    pub(crate) fn of(alloc: Global, subject: &i64, item: &Name) -> Result<ChoiceKey, Memory>
        ensures { IfOk result (λ made. made ≡ record { subject = subject.now; item = item.now }) }
    {
        let item = item.copy(alloc)?;
        Ok(ChoiceKey {
            subject: *subject,
            item,
        })
    }
}

/// A column of a table, with a purpose and recipient.
#[derive(Drop, PartialEq, Eq, Hash)]
pub(crate) struct CellKey {
    purpose: Name,
    recipient: Name,
    table: Name,
    column: usize,
}

/// For which purpose, recipient and table a rule is.
#[derive(Clone, Copy)]
pub(crate) struct Ruled<'a> {
    pub purpose: &'a Name,
    pub recipient: &'a Name,
    pub table: &'a Name,
}

impl<'a> Ruled<'a> {
    pub(crate) fn cell(&self, alloc: Global, column: usize) -> Result<CellKey, Memory>
        ensures { IfOk result (λ made. made ≡ record {
          purpose = self.now.purpose.now;
          recipient = self.now.recipient.now;
          table = self.now.table.now;
          column = column;
        }) }
    {
        let purpose = self.purpose.copy(alloc)?;
        let recipient = self.recipient.copy(alloc)?;
        let table = self.table.copy(alloc)?;
        Ok(CellKey {
            purpose,
            recipient,
            table,
            column,
        })
    }
}

/// A table and the key of a row.
#[derive(Drop, PartialEq, Eq, Hash)]
pub(crate) struct RowKey {
    table: Name,
    key: Cells,
}

impl RowKey {
    pub(crate) fn of(alloc: Global, table: &Name, key: &Cells) -> Result<RowKey, Memory>
        ensures { IfOk result (λ made. made ≡ record { table = table.now; key = key.now }) }
    {
        let table = table.copy(alloc)?;
        let key = key.copy(alloc)?;
        Ok(RowKey { table, key })
    }
}
