//! Keys of the maps. A map owns the names in its keys; a look-up borrows them.
ghost use Rattle.std.specs.Prelude.{◌≡◌, nat_eq, IfOk};
ghost use Rattle.std.specs.Cmp.{partial_equiv_from_equiv};
ghost use Rattle.std.specs.Cmp.Lexicographic.{pointwise, nat_list_eq_equiv};
ghost use Rattle.std.specs.Cmp.Rules.{hashing};
ghost use Rattle.std.specs.Hash as fed;
ghost use Rattle.std.proofs.Common.{rules};

use hippo_values::{Duplicate, Memory, Name};
use std::alloc::Global;
use std::hash::{Hash, Hasher};
use std::marker::Model;

#[derive(Drop)]
enum Held<'a> {
    Owned(Name),
    Lent(&'a Name),
}

/// An owned or a borrowed name.
#[derive(Drop)]
pub struct KeyName<'a> {
    held: Held<'a>,
}

impl<'a> Model for KeyName<'a> {
    ghost use Rattle.hippo_policy.specs.HeldNames.{held_name};
    ghost use Rattle.hippo_values.specs.declared.names.Name.{Name};

    ghost Value = { Name };

    ghost view = { λ name. held_name name.held };
}

impl<'a> KeyName<'a> {
    pub fn lent(name: &'a Name) -> KeyName<'a>
        ensures { result ≡ name.now }
    {
        KeyName {
            held: Held::Lent(name),
        }
    }

    pub fn owned(alloc: Global, name: &Name) -> Result<KeyName<'a>, Memory>
        ensures { IfOk result (λ made. made ≡ name.now) }
    {
        let name = name.copy(alloc)?;
        Ok(KeyName {
            held: Held::Owned(name),
        })
    }

    pub fn name(&self) -> &Name
        ensures { result.now ≡ self.now }
    {
        match &self.held {
            Held::Owned(name) => name,
            Held::Lent(name) => name,
        }
    }
}

impl<'a> PartialEq for KeyName<'a> {
    ghost eq = { pointwise nat_eq };

    ghost laws = { partial_equiv_from_equiv nat_list_eq_equiv };

    fn eq(&self, other: &KeyName<'a>) -> bool {
        self.name() == other.name()
    }
}

impl<'a> Eq for KeyName<'a> {
    ghost laws = { nat_list_eq_equiv };
}

impl<'a> Hash for KeyName<'a> {
    ghost hash_input = { fed.str };

    ghost respects_eq = { Prim.search (hashing, rules) };

    fn hash<H: Hasher>(&self, state: &mut H) {
        self.name().hash(state);
    }
}

/// A patient and an item.
#[derive(Drop, PartialEq, Eq, Hash)]
pub struct ChoiceKey<'a> {
    pub subject: i64,
    pub item: KeyName<'a>,
}

impl<'a> ChoiceKey<'a> {
    pub fn lent(subject: &i64, item: &'a Name) -> ChoiceKey<'a>
        ensures { result ≡ record { subject = subject.now; item = item.now } }
    {
        ChoiceKey {
            subject: *subject,
            item: KeyName::lent(item),
        }
    }

    pub fn owned(alloc: Global, subject: &i64, item: &Name) -> Result<ChoiceKey<'a>, Memory>
        ensures { IfOk result (λ made. made ≡ record { subject = subject.now; item = item.now }) }
    {
        let item = KeyName::owned(alloc, item)?;
        Ok(ChoiceKey {
            subject: *subject,
            item,
        })
    }
}

/// A user, purpose and recipient.
#[derive(Drop, PartialEq, Eq, Hash)]
pub struct UserKey<'a> {
    pub user: KeyName<'a>,
    pub purpose: KeyName<'a>,
    pub recipient: KeyName<'a>,
}

impl<'a> UserKey<'a> {
    pub fn lent(user: &'a Name, purpose: &'a Name, recipient: &'a Name) -> UserKey<'a>
        ensures { result ≡ record {
          user = user.now;
          purpose = purpose.now;
          recipient = recipient.now;
        } }
    {
        UserKey {
            user: KeyName::lent(user),
            purpose: KeyName::lent(purpose),
            recipient: KeyName::lent(recipient),
        }
    }

    pub fn owned(
        alloc: Global,
        user: &Name,
        purpose: &Name,
        recipient: &Name,
    ) -> Result<UserKey<'a>, Memory>
        ensures { IfOk result (λ made. made
            ≡ record { user = user.now; purpose = purpose.now; recipient = recipient.now }) }
    {
        Ok(UserKey {
            user: KeyName::owned(alloc, user)?,
            purpose: KeyName::owned(alloc, purpose)?,
            recipient: KeyName::owned(alloc, recipient)?,
        })
    }
}

/// A table, purpose and recipient.
#[derive(Drop, PartialEq, Eq, Hash)]
pub struct TableKey<'a> {
    pub purpose: KeyName<'a>,
    pub recipient: KeyName<'a>,
    pub table: KeyName<'a>,
}

impl<'a> TableKey<'a> {
    pub fn lent(purpose: &'a Name, recipient: &'a Name, table: &'a Name) -> TableKey<'a>
        ensures { result ≡ record {
          purpose = purpose.now;
          recipient = recipient.now;
          table = table.now;
        } }
    {
        TableKey {
            purpose: KeyName::lent(purpose),
            recipient: KeyName::lent(recipient),
            table: KeyName::lent(table),
        }
    }

    pub fn owned(alloc: Global, key: &TableKey<'_>) -> Result<TableKey<'a>, Memory>
        ensures { IfOk result (λ made. made ≡ key.now) }
    {
        Ok(TableKey {
            purpose: KeyName::owned(alloc, key.purpose.name())?,
            recipient: KeyName::owned(alloc, key.recipient.name())?,
            table: KeyName::owned(alloc, key.table.name())?,
        })
    }
}

/// A column of a table, with a purpose and recipient.
#[derive(Drop, PartialEq, Eq, Hash)]
pub struct CellKey<'a> {
    pub table: TableKey<'a>,
    pub column: usize,
}

impl<'a> CellKey<'a> {
    pub fn lent(
        purpose: &'a Name,
        recipient: &'a Name,
        table: &'a Name,
        column: usize,
    ) -> CellKey<'a>
        ensures { result ≡ record {
          table = record { purpose = purpose.now; recipient = recipient.now; table = table.now };
          column = column;
        } }
    {
        CellKey {
            table: TableKey::lent(purpose, recipient, table),
            column,
        }
    }

    pub fn owned(alloc: Global, key: &CellKey<'_>) -> Result<CellKey<'a>, Memory>
        ensures { IfOk result (λ made. made ≡ key.now) }
    {
        Ok(CellKey {
            table: TableKey::owned(alloc, &key.table)?,
            column: key.column,
        })
    }
}
