//! Selects, audit expressions and whole statements, with unresolved names.
use hippo_model::{Cells, Columns, CondOf, ItemKind, Names, Pairs};
use hippo_values::{Boxed, Name, Sequence, Txt, Value};

/// A column as written, with or without its table.
#[derive(Debug, Drop)]
pub struct RawColumn {
    pub table: Option<Name>,
    pub column: Name,
}

pub type RawColumns = Sequence<RawColumn>;

/// An operand of a comparison, as written. The column is boxed because conditions are moved often.
#[derive(Debug, Drop)]
pub enum RawOperand {
    Column(Boxed<RawColumn>),
    Literal(Value),
}

pub type RawCond = CondOf<RawOperand>;

/// An item of a select list, as written.
#[derive(Debug, Drop)]
pub enum RawItem {
    All,
    AllOf(Name),
    One(RawColumn),
}

pub type RawItems = Sequence<RawItem>;

/// An item of a grouped select's list, as written.
#[derive(Debug, Drop)]
pub enum RawOut {
    Column(RawColumn),
    Min(RawColumn),
    Max(RawColumn),
}

pub type RawOuts = Sequence<RawOut>;

/// Which rows a select returns, as written.
#[derive(Debug, Drop)]
pub enum RawForm {
    /// One row for each combination of rows.
    Plain,
    /// Equal rows once.
    Distinct,
    /// One row for each group of rows that are equal in the columns `by`.
    Grouped { outs: RawOuts, by: RawColumns },
}

/// A select as written. A grouped select has no `items`: its list is in its form.
#[derive(Debug, Drop)]
pub struct RawSelect {
    pub items: RawItems,
    pub tables: Names,
    pub cond: RawCond,
    pub form: RawForm,
}

/// An audit expression as written.
#[derive(Debug, Drop)]
pub struct RawAudit {
    pub from: Txt,
    pub to: Txt,
    pub exempt: Pairs,
    pub shown: bool,
    pub columns: RawColumns,
    pub tables: Names,
    pub cond: RawCond,
}

/// A statement as written; its lists are in the order of the text.
#[derive(Debug, Drop)]
pub enum Stmt {
    CreateTable {
        table: Name,
        columns: Columns,
        key: Names,
        subject: Option<Name>,
    },
    CreatePurpose(Name),
    CreateRecipient(Name),
    CreateItem {
        item: Name,
        kind: ItemKind,
    },
    Authorize {
        user: Name,
        purpose: Name,
        recipient: Name,
    },
    Deauthorize {
        user: Name,
        purpose: Name,
        recipient: Name,
    },
    Allow {
        purpose: Name,
        recipient: Name,
        table: Name,
        columns: Names,
        item: Option<Name>,
        /// For how many days from a row's birth its cells are shown; without a number, they are
        /// shown without end.
        days: Option<u32>,
    },
    Revoke {
        purpose: Name,
        recipient: Name,
        table: Name,
        columns: Names,
    },
    Choice {
        subject: i64,
        item: Name,
        yes: bool,
    },
    Insert {
        table: Name,
        values: Cells,
    },
    Update {
        table: Name,
        columns: Names,
        values: Cells,
        key_columns: Names,
        key_values: Cells,
    },
    Delete {
        table: Name,
        key_columns: Names,
        key_values: Cells,
    },
    Explain(i64),
    Audit(RawAudit),
    BeginAudit(RawAudit),
    /// A standing audit.
    Watch(RawAudit),
    /// A select, and where its text begins and ends.
    Select {
        select: RawSelect,
        start: usize,
        end: usize,
    },
    /// OPEN: a select whose answer is fetched in parts.
    Ask {
        select: RawSelect,
        start: usize,
        end: usize,
    },
    /// A select whose rows are written as CSV records.
    Extract {
        select: RawSelect,
        start: usize,
        end: usize,
    },
}
