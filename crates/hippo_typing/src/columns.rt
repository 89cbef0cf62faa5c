//! Which column of a statement's tables a written column names.
ghost use Rattle.std.specs.Prelude.{◌≡◌, List, ◌++◌, map, flat_map};
ghost use Rattle.std.specs.Prelude.{unwrap_or, option_copied, option_to_list, MatchResult};
ghost use Rattle.hippo_model.specs.declared.query.Ref.{Ref as Reference};
ghost use Rattle.hippo_typing_catalog.specs.Refusals.{Resolves, IsFirstOf};
ghost use Rattle.hippo_typing_catalog.specs.WrittenColumns.{may_belong_to, home_in, homes_refused, column_refused, column_of};
ghost use Rattle.hippo_typing.specs.Found.{with_column};

use crate::found::{Found, FoundColumns};
use crate::written::Written;
use hippo_model::{NameFault, Ref};
use hippo_stmt_ast::RawColumn;
use hippo_typing_catalog::{IndexedTable, StatementTables, column_faults};
use hippo_values::{Name, Sequence};
use std::alloc::Global;

/// Whether a column with this qualifier, or without one, may belong to the table.
pub fn may_belong_to(qualifier: Option<&Name>, table: &Name) -> bool
    ensures { result ≡ may_belong_to (option_copied qualifier.entry) table.now }
{
    match qualifier {
        None => true,
        Some(qualifier) => qualifier == table,
    }
}

// The column that a written column may name in the table at a place.
fn home_in(written: &RawColumn, place: usize, table: &IndexedTable) -> Option<Ref>
    ensures { result ≡ home_in written.now place table.now }
{
    if !may_belong_to(written.table.as_ref(), &table.schema().name) {
        return None;
    }
    let column = table.place(&written.column)?;
    Some(Ref {
        table: place,
        column,
    })
}

// The column found so far, with the one found in one more table. If both exist, it is ambiguous.
fn one_home(
    alloc: Global,
    written: &RawColumn,
    home: Option<Ref>,
    found: Option<Ref>,
) -> Result<Option<Ref>, NameFault>
    ensures { MatchResult result
        (λ made. option_to_list home ++ option_to_list found ≡ option_to_list made)
        (λ fault. (more : List Reference)
        → IsFirstOf (homes_refused written.now
        (option_to_list home ++ option_to_list found ++ more)) fault) }
{
    match (home, found) {
        (None, found) => Ok(found),
        (Some(home), None) => Ok(Some(home)),
        (Some(_), Some(_)) => Err(column_faults::ambiguous_column(alloc, &written.column)),
    }
}

// The column that was found, or the fault that none was.
fn some_home(alloc: Global, written: &RawColumn, home: Option<Ref>) -> Result<Ref, NameFault>
    ensures { Resolves (homes_refused written.now (option_to_list home))
        (unwrap_or home (record { table = 0; column = 0 })) result }
{
    match home {
        Some(home) => Ok(home),
        None => Err(column_faults::unknown_column(alloc, written)),
    }
}

/// The column that a written column names. It must belong to exactly one of the statement's tables.
pub fn found_column(
    alloc: Global,
    tables: &StatementTables<'_>,
    written: &RawColumn,
) -> Result<Ref, NameFault>
    ensures { Resolves (column_refused tables.now written.now) (column_of tables.now written.now)
        result }
{
    let mut home = None;
    for place in 0..tables.len() {
        let found = home_in(written, place, tables.get(place));
        home = one_home(alloc, written, home, found)?;
    }
    some_home(alloc, written, home)
}

/// Written columns, each with the column that it names, which must belong to exactly one of the
/// statement's tables.
pub fn found_columns<'a>(
    alloc: Global,
    tables: &StatementTables<'_>,
    written: &'a [RawColumn],
) -> Result<FoundColumns<'a>, NameFault>
    ensures { Resolves (flat_map (column_refused tables.now) written.now)
        (map (with_column tables.now) written.now) result }
{
    let mut found = Sequence::with_capacity(alloc, written.len())?;
    for written in written {
        let column = found_column(alloc, tables, written)?;
        found.push(Found { written, column })?;
    }
    Ok(found)
}

impl Written for RawColumn {
    type Found = Ref;

    ghost refused = { column_refused };

    ghost meant = { column_of };

    fn find(&self, alloc: Global, tables: &StatementTables<'_>) -> Result<Ref, NameFault> {
        found_column(alloc, tables, self)
    }
}
