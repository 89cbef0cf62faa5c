//! The entries of the history, and their copies.

use crate::cells::Cells;
use crate::schema::{Places, Schema};
use hippo_values::{Duplicate, Memory, Moment, Name, Sequence, Txt};
use std::alloc::Global;

/// How a patient's missing choice on an item counts.
#[derive(Clone, Copy, Debug, PartialEq, Eq)]
pub enum ItemKind {
    /// Only a patient who said YES has agreed.
    OptIn,
    /// Only a patient who said NO has not agreed.
    OptOut,
}

/// What one entry of the history records.
#[derive(Debug, Drop)]
pub enum Act {
    Create(Schema),
    Insert {
        table: Name,
        row: Cells,
    },
    /// The whole new row.
    Update {
        table: Name,
        row: Cells,
    },
    Delete {
        table: Name,
        key: Cells,
    },
    Purpose(Name),
    Recipient(Name),
    Item {
        item: Name,
        kind: ItemKind,
    },
    Authorize {
        user: Name,
        purpose: Name,
        recipient: Name,
    },
    Deauthorize {
        user: Name,
        purpose: Name,
        recipient: Name,
    },
    Allow {
        purpose: Name,
        recipient: Name,
        table: Name,
        columns: Places,
        item: Option<Name>,
        /// For how many days from a row's birth its cells are shown; without a number, they are
        /// shown without end.
        days: Option<u32>,
    },
    Revoke {
        purpose: Name,
        recipient: Name,
        table: Name,
        columns: Places,
    },
    Choice {
        subject: i64,
        item: Name,
        yes: bool,
    },
    /// A query that was asked: by whom, and for which purpose and recipient.
    Asked {
        user: Name,
        purpose: Name,
        recipient: Name,
        text: Txt,
    },
}

/// One change or query of the history, with its number and moment.
#[derive(Drop)]
pub struct Entry {
    pub seq: u64,
    pub moment: Moment,
    pub act: Act,
}

/// The history: numbered entries, the first of which has number 1.
pub type History = Sequence<Entry>;

// Copies an act. The table lists the kinds of acts: first those whose only part is copied; then the
// others, each with the parts that are copied and, after `;`, the parts that are `Copy`.
macro_rules! copied_act {
    (
        $act:expr, $alloc:expr,
        $($whole:ident)*,
        $($kind:ident { $($part:ident),+ $(; $($plain:ident),+)? })*
    ) => {
        match $act {
            $(Act::$whole(part) => Ok(Act::$whole(part.copy($alloc)?)),)*
            $(Act::$kind { $($part,)+ $($($plain,)+)? } => Ok(Act::$kind {
                $($part: $part.copy($alloc)?,)+
                $($($plain: *$plain,)+)?
            }),)*
        }
    };
}

impl Duplicate for Act {
    fn copy(&self, alloc: Global) -> Result<Act, Memory> {
        copied_act! {
            self, alloc,
            Create Purpose Recipient,
            Insert { table, row }
            Update { table, row }
            Delete { table, key }
            Item { item; kind }
            Authorize { user, purpose, recipient }
            Deauthorize { user, purpose, recipient }
            Allow { purpose, recipient, table, columns, item; days }
            Revoke { purpose, recipient, table, columns }
            Choice { item; subject, yes }
            Asked { user, purpose, recipient, text }
        }
    }
}

impl Duplicate for Entry {
    fn copy(&self, alloc: Global) -> Result<Entry, Memory> {
        let act = self.act.copy(alloc)?;
        Ok(Entry {
            seq: self.seq,
            moment: self.moment,
            act,
        })
    }
}
