//! Laws about the versions of a table.
ghost use Rattle.hippo_backlog.specs.BacklogLaws.{RowsAreThoseOfVersions, SchemasLast, VersionsFit};

/// The rows of a table after some entries, with their births, are the rows after the table's
/// versions among these entries alone: the inserts, updates and deletes of its rows.
pub fn rows_are_those_of_versions()
    ensures { RowsAreThoseOfVersions }
{}

/// In a valid history a table keeps its schema once it is created.
pub fn schemas_last()
    ensures { SchemasLast }
{}

/// In a valid history each version of a table fits the table's earlier versions, without the other
/// entries.
pub fn versions_fit()
    ensures { VersionsFit }
{}
