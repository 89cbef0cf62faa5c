//! The columns of a table that EXPLAIN covers for a logged query.
ghost use Rattle.std.specs.Prelude.{◌≡◌, IfOk};
ghost use Rattle.hippo_model.specs.Denials.{is_listed};
ghost use Rattle.hippo_audit_explain.specs.Listing.{denial_columns};

use hippo_model::{Column, Query, Schema, names_column};
use hippo_values::{Memory, Sequence};
use std::alloc::Global;
use std::marker::Model;

/// A column of a table, and its place in the table.
#[derive(Drop)]
pub struct Listed<'a> {
    pub place: usize,
    pub column: &'a Column,
}

impl<'a> Model for Listed<'a> {
    ghost use Rattle.hippo_model.specs.Terms.{Place};
    ghost use Rattle.hippo_model.specs.declared.schema.Column.{Column as TableColumn};

    ghost Value = { Place × TableColumn };

    ghost view = { λ listed. (listed.place, listed.column.now) };
}

fn is_listed(query: &Query, schema: &Schema, place: usize) -> bool
    ensures { result ≡ is_listed query.now schema.now place }
{
    schema.key.as_slice().contains(&place) || names_column(query, schema.name.as_str(), place)
}

/// Returns the columns of a table's key and the columns that a query names, in the schema's order.
pub(crate) fn listed_columns<'a>(
    alloc: Global,
    query: &Query,
    schema: &'a Schema,
) -> Result<Sequence<Listed<'a>>, Memory>
    ensures { IfOk result (λ listed. listed ≡ denial_columns query.now schema.now) }
{
    let mut listed = Sequence::new(alloc);
    for (place, column) in schema.columns.as_slice().iter().enumerate() {
        if is_listed(query, schema, place) {
            listed.push(Listed { place, column })?;
        }
    }
    Ok(listed)
}
