//! Rules, authorizations and verdicts, as of some entry number.
use crate::schema::Places;
use hippo_values::{Name, Sequence};

/// The last rule on a cell for a purpose and recipient, as of some entry number.
#[derive(Clone, Copy)]
pub enum RuleAt<'a> {
    /// No rule ever named the cell.
    Unnamed,
    /// Allowed by this entry, for a number of days from a row's birth, or without end.
    Always {
        rule: u64,
        days: Option<u32>,
    },
    /// Allowed by this entry if the patient's choice on an item agrees, for a number of days or
    /// without end.
    With {
        rule: u64,
        item: &'a Name,
        opt_in: bool,
        days: Option<u32>,
    },
    /// Revoked by this entry.
    Revoked(u64),
}

/// Whether a user may ask for a purpose and recipient.
#[derive(Clone, Copy)]
pub enum Authorization {
    Yes,
    /// Not authorized. The number of the entry that decides this; 0 if no entry names the user with
    /// the purpose and recipient.
    No(u64),
}

/// Whether a cell is shown, or which rule denies it; 0 if no rule names the cell.
#[derive(Clone, Copy)]
pub enum Verdict {
    Shown,
    Denied(u64),
}

/// What decides whether the cells of a column are shown.
#[derive(Drop)]
pub enum Gate {
    Always,
    Never(u64),
    /// Shown in rows that were born after the second `after`.
    Aged {
        rule: u64,
        after: i64,
    },
    /// Shown if the patient's choice on an item agrees; with `after`, only in rows that were born
    /// after that second.
    With {
        rule: u64,
        item: Name,
        opt_in: bool,
        after: Option<i64>,
    },
}

pub type Gates = Sequence<Gate>;

/// The rules of one table for a purpose and recipient, as of some entry number.
#[derive(Drop)]
pub struct TableRules {
    /// One gate for each column.
    pub gates: Gates,
    pub key: Places,
    pub subject: Option<usize>,
}

/// The rules of each table in the requested list.
pub type RulesInForce = Sequence<TableRules>;
