//! Existing tables by name: their schemas and their rows.
ghost use Rattle.std.specs.Prelude.{◌≡◌, ◌∷◌, [], IfOk, Some, length, map, option_map};
ghost use Rattle.hippo_model.specs.Terms.{History};
ghost use Rattle.hippo_model.specs.Histories.{schema_at};
ghost use Rattle.hippo_tables_keyed.specs.RowSets.{kept_at};
ghost use Rattle.hippo_tables.specs.Standing.{TablesStandFor, AreKeptTables, schemas_at};

use crate::tables::Tables;
use hippo_model::{Lent, LentSchemas, Names, Schema};
use hippo_tables_rows::{RowSet, Sets};
use hippo_values::{Memory, Name};
use std::alloc::Global;

fn schema_of<'a>(tables: &'a Tables, name: &Name) -> &'a Schema
    requires { AreKeptTables tables.now (name.now ∷ []) }
    ensures { (history : History) → TablesStandFor tables.now history
        → schema_at history name.now ≡ Some result.now }
{
    tables.schema(name).unwrap()
}

fn rows_of<'a>(tables: &'a Tables, name: &Name) -> &'a RowSet
    requires { AreKeptTables tables.now (name.now ∷ []) }
    ensures { (history : History) → TablesStandFor tables.now history
        → option_map (λ schema. kept_at schema history) (schema_at history name.now)
        ≡ Some result.now }
{
    tables.rows(name).unwrap()
}

/// The schemas of existing tables.
pub fn schemas_of<'a>(
    alloc: Global,
    tables: &'a Tables,
    names: &Names,
) -> Result<LentSchemas<'a>, Memory>
    requires { AreKeptTables tables.now names.now }
    ensures { IfOk result (λ schemas. (history : History) → TablesStandFor tables.now history
        → schemas ≡ schemas_at history names.now) }
{
    let mut schemas = Lent::new(alloc);
    for name in names.as_slice() {
        schemas.push(schema_of(tables, name))?;
    }
    Ok(schemas)
}

/// The rows of existing tables.
pub fn sets_of<'a>(alloc: Global, tables: &'a Tables, names: &Names) -> Result<Sets<'a>, Memory>
    requires { AreKeptTables tables.now names.now }
    ensures each { IfOk result (λ sets. length sets ≡ length names.now) }
    ensures rows { IfOk result (λ sets. (history : History) → TablesStandFor tables.now history
        → sets ≡ map (λ schema. kept_at schema history) (schemas_at history names.now)) }
{
    let mut sets = Lent::new(alloc);
    for name in names.as_slice() {
        sets.push(rows_of(tables, name))?;
    }
    Ok(sets)
}
