//! The tables of a query, lent as they stand.
ghost use Rattle.std.specs.Prelude.{IfOk};
ghost use Rattle.hippo_history_uses.specs.Lending.{LendsTables};

use hippo_model::{Lent, LentSchemas};
use hippo_tables::Tables;
use hippo_tables_rows::Sets;
use hippo_values::{Memory, Name};
use std::alloc::Global;

/// Borrowed schemas and rows of tables.
#[derive(Drop)]
pub(crate) struct LentTables<'a> {
    pub schemas: LentSchemas<'a>,
    pub sets: Sets<'a>,
}

/// Borrows the schemas and the rows of the named tables; `None` if one of them does not exist.
pub(crate) fn lent_tables<'a>(
    alloc: Global,
    tables: &'a Tables,
    names: &[Name],
) -> Result<Option<LentTables<'a>>, Memory>
    ensures { IfOk result (LendsTables tables.now names.now) }
{
    let mut schemas = Lent::new(alloc);
    let mut sets = Lent::new(alloc);
    for name in names {
        let Some(schema) = tables.schema(name) else {
            return Ok(None);
        };
        let Some(rows) = tables.rows(name) else {
            return Ok(None);
        };
        schemas.push(schema)?;
        sets.push(rows)?;
    }
    Ok(Some(LentTables { schemas, sets }))
}
