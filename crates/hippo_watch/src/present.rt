//! Whether the tables of an audit and of a query exist now.
ghost use Rattle.std.specs.Prelude.{◌≡◌, ◌&&◌, is_some};
ghost use Rattle.hippo_model.specs.Terms.{History};
ghost use Rattle.hippo_model.specs.Histories.{schema_at};
ghost use Rattle.hippo_tables.specs.Standing.{TablesStandFor, are_created};

use hippo_model::{Audit, Query};
use hippo_tables::Tables;
use hippo_values::Name;

fn is_kept(tables: &Tables, name: &Name) -> bool
    ensures { (history : History) → TablesStandFor tables.now history
        → result ≡ is_some (schema_at history name.now) }
{
    tables.schema(name).is_some()
}

// Whether each of these tables exists.
fn are_kept(tables: &Tables, names: &[Name]) -> bool
    ensures { (history : History) → TablesStandFor tables.now history
        → result ≡ are_created history names.now }
{
    for name in names {
        if !is_kept(tables, name) {
            return false;
        }
    }
    true
}

/// Whether the tables of an audit and of a query exist.
pub(crate) fn tables_exist(tables: &Tables, query: &Query, audit: &Audit) -> bool
    ensures { (history : History) → TablesStandFor tables.now history
        → result ≡ (are_created history audit.now.tables && are_created history query.now.tables) }
{
    are_kept(tables, audit.tables.as_slice()) && are_kept(tables, query.tables.as_slice())
}
