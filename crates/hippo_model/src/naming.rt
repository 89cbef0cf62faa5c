//! Whether a query names a column.
ghost use Rattle.std.specs.Prelude.{◌≡◌, [], slice_index_or};
ghost use Rattle.std.specs.List.{list_any};
ghost use Rattle.hippo_model.specs.Columns.{columns_in, named_column, query_columns, same_column};

use crate::operands::{OperandTest, any_operand};
use crate::query::{Operand, Query, Ref};
use crate::schema::Names;

/// The name of the table at a place in FROM, or an empty name if there is none.
pub fn table_name(tables: &Names, place: usize) -> &str
    ensures { result.now ≡ slice_index_or tables.now place [] }
{
    match tables.as_slice().get(place) {
        None => "",
        Some(table) => table.as_str(),
    }
}

// Whether a reference of a statement over some tables is to a column, given by the name of its
// table.
#[derive(Clone, Copy)]
struct ColumnTest<'a> {
    tables: &'a Names,
    table: &'a str,
    column: usize,
}

impl<'a> ColumnTest<'a> {
    fn is_named_by(&self, column: &Ref) -> bool
        ensures { result ≡ same_column (self.now.table.now, self.now.column)
            (named_column self.now.tables.now column.now) }
    {
        self.table == table_name(self.tables, column.table) && self.column == column.column
    }
}

impl<'a> OperandTest<Operand> for ColumnTest<'a> {
    ghost passes = { λ it operand. list_any (λ column. same_column (it.table.now, it.column)
        (named_column it.tables.now column)) (columns_in operand) };

    #[tactic(auto, using(crate::proofs::NamedColumns::any_of_one))]
    fn passes(&self, operand: &Operand) -> bool {
        match operand {
            Operand::Column(column) => self.is_named_by(column),
            Operand::Literal(_) => false,
        }
    }
}

fn items_name(test: ColumnTest<'_>, query: &Query) -> bool
    ensures { result ≡ list_any (λ column. same_column (test.entry.table.now, test.entry.column)
        (named_column test.entry.tables.now column)) query.now.items }
{
    query
        .items
        .as_slice()
        .iter()
        .any(|item| test.is_named_by(item))
}

/// Whether a query names a column of the table with a name: in its select list, as an argument, in
/// GROUP BY, in ON or in WHERE.
#[tactic(auto, using(crate::proofs::NamedColumns::any_of_query))]
pub fn names_column(query: &Query, table: &str, column: usize) -> bool
    ensures { result ≡ list_any (same_column (table.now, column)) (query_columns query.now) }
{
    let test = ColumnTest {
        tables: &query.tables,
        table,
        column,
    };
    items_name(test, query) || any_operand(&query.cond, &test)
}
