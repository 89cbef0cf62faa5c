//! The rows of a table as they were in the past.
ghost use Rattle.std.specs.Prelude.{true};
ghost use Rattle.hippo_keeper.specs.Keeping.{IsReady};
ghost use Rattle.hippo_backlog.specs.Backlogs.{Snapshots};

use crate::faults::ReadFault;
use crate::versions::Versions;
use hippo_keeper::{CountedKeeper, Steps};
use hippo_model::Schema;
use hippo_tables_rows::RowSet;
use hippo_values::{Duplicate, Memory};
use std::alloc::Global;
use std::sync::ledger::Ledger;

/// Returns the rows of a table, with their births, as they were after the first `number` entries of
/// the history in the store.
///
/// The result is guaranteed if the store's contents are known and are a valid history of at least
/// `number` entries in which the table has this schema. `Damaged` is then never returned. For other
/// stores `Damaged` has the number of an entry that was handed over and does not fit. `Keeper` is
/// returned only if the keeper's count of faults rose. Each version that the keeper hands over is
/// one step.
pub fn snapshot<P: CountedKeeper<L>, L: Ledger>(
    keeper: &mut P,
    alloc: Global,
    schema: &Schema,
    number: u64,
    steps: &mut Steps<L>,
) -> Result<RowSet, ReadFault>
    requires ready { IsReady true (P.state keeper.old) }
    ensures snapshots { Snapshots schema.now number result (P.state keeper.old) (P.state keeper.new)
        steps.old steps.new }
{
    let mut versions = match schema.key.copy(alloc) {
        Ok(key) => Versions::new(alloc, key),
        Err(Memory) => return Err(ReadFault::Memory),
    };
    match versions.advance_to(keeper, alloc, schema, number, number, steps) {
        Ok(()) => Ok(versions.into_rows()),
        Err(fault) => Err(fault),
    }
}
