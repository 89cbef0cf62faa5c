//! Tables and their columns.
use hippo_values::{Duplicate, Memory, Name, Sequence};
use std::alloc::Global;

#[derive(Clone, Copy, Debug, PartialEq, Eq)]
pub enum ColumnKind {
    Integer,
    Text,
    Date,
}

#[derive(Debug, Drop)]
pub struct Column {
    pub name: Name,
    pub kind: ColumnKind,
    pub not_null: bool,
}

pub type Columns = Sequence<Column>;

/// Indexes from 0, such as those of a table's columns in its schema.
pub type Places = Sequence<usize>;

pub type Names = Sequence<Name>;

/// A table's name and columns.
#[derive(Debug, Drop)]
pub struct Schema {
    pub name: Name,
    pub columns: Columns,
    /// The indexes of the key's columns, in the key's order.
    pub key: Places,
    /// The index of the column that holds the number of the patient whom a row is about.
    pub subject: Option<usize>,
}

impl Duplicate for Column {
    fn copy(&self, alloc: Global) -> Result<Column, Memory> {
        let name = self.name.copy(alloc)?;
        Ok(Column {
            name,
            kind: self.kind,
            not_null: self.not_null,
        })
    }
}

impl Duplicate for Schema {
    fn copy(&self, alloc: Global) -> Result<Schema, Memory> {
        let name = self.name.copy(alloc)?;
        let columns = self.columns.copy(alloc)?;
        let key = self.key.copy(alloc)?;
        Ok(Schema {
            name,
            columns,
            key,
            subject: self.subject,
        })
    }
}
