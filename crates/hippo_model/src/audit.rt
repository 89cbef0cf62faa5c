//! Audit expressions, and the flags that an audit reports.
use crate::cells::Cells;
use crate::query::{CondOf, Operand, Refs};
use crate::schema::Names;
use hippo_values::{Duplicate, Memory, Moment, Name, Sequence};
use std::alloc::Global;

#[derive(Debug, Drop, PartialEq, Eq)]
pub struct Pair {
    pub purpose: Name,
    pub recipient: Name,
}

pub type Pairs = Sequence<Pair>;

/// An audit expression: which columns, of which rows, in which period.
#[derive(Drop)]
pub struct Audit {
    pub from: Moment,
    pub to: Moment,
    /// Queries for these pairs are never flagged.
    pub exempt: Pairs,
    pub shown: bool,
    pub columns: Refs,
    pub tables: Names,
    pub cond: CondOf<Operand>,
}

/// A row of a table, identified by its key.
#[derive(Drop)]
pub struct SharedRow {
    pub table: Name,
    pub key: Cells,
}

/// One row of each table that a query and an audit have in common.
pub type SharedTuple = Sequence<SharedRow>;

/// A query that an audit flags, with the rows of its shared tuple.
#[derive(Drop)]
pub struct Flag {
    pub seq: u64,
    pub moment: Moment,
    pub user: Name,
    pub pair: Pair,
    pub shared: SharedTuple,
}

pub type Flags = Sequence<Flag>;

impl Duplicate for Pair {
    fn copy(&self, alloc: Global) -> Result<Pair, Memory> {
        let purpose = self.purpose.copy(alloc)?;
        let recipient = self.recipient.copy(alloc)?;
        Ok(Pair { purpose, recipient })
    }
}

impl Duplicate for Audit {
    fn copy(&self, alloc: Global) -> Result<Audit, Memory> {
        let exempt = self.exempt.copy(alloc)?;
        let columns = self.columns.copy(alloc)?;
        let tables = self.tables.copy(alloc)?;
        let cond = self.cond.copy(alloc)?;
        Ok(Audit {
            from: self.from,
            to: self.to,
            exempt,
            shown: self.shown,
            columns,
            tables,
            cond,
        })
    }
}

impl Duplicate for SharedRow {
    fn copy(&self, alloc: Global) -> Result<SharedRow, Memory> {
        let table = self.table.copy(alloc)?;
        let key = self.key.copy(alloc)?;
        Ok(SharedRow { table, key })
    }
}

impl Duplicate for Flag {
    fn copy(&self, alloc: Global) -> Result<Flag, Memory> {
        let user = self.user.copy(alloc)?;
        let pair = self.pair.copy(alloc)?;
        let shared = self.shared.copy(alloc)?;
        Ok(Flag {
            seq: self.seq,
            moment: self.moment,
            user,
            pair,
            shared,
        })
    }
}
