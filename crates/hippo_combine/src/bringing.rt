//! Moves tables forward to a place in the history.
ghost use Rattle.std.specs.Prelude.{◌≡◌, IfOk, OnOk, OnErr};
ghost use Rattle.hippo_combine.specs.Bringing.{with_table, IsPlaceOf};

use crate::held::place_of;
use hippo_audit_job::Past;
use hippo_backlog::ReadFault;
use hippo_intervals::LiveRows;
use hippo_keeper::{CountedKeeper, Steps};
use hippo_model::{Audit, Query, Schema};
use hippo_values::{Memory, Name};
use std::alloc::Global;
use std::sync::ledger::Ledger;

// The place of a table in the list. A table that is not held yet is appended.
fn place_for(tables: &mut Vec<LiveRows>, alloc: Global, schema: &Schema) -> Result<usize, Memory>
    ensures with { OnOk result (tables.new.items ≡ with_table schema.now tables.old.items) }
    ensures place { IfOk result (λ place. IsPlaceOf schema.now.name place tables.new.items) }
    ensures same { OnErr result (tables.new.items ≡ tables.old.items) }
{
    let place = place_of(tables.as_slice(), &schema.name);
    if place == tables.len() {
        tables.push(LiveRows::new(alloc, schema)?)?;
    }
    Ok(place)
}

/// The number up to which tables are moved forward, and what is known of the history.
#[derive(Clone, Copy)]
pub(crate) struct Forward<'a> {
    pub past: &'a Past<'a>,
    pub number: u64,
}

impl<'a> Forward<'a> {
    ghost use Rattle.std.specs.Prelude.{◌∷◌, [], OnOk};
    ghost use Rattle.hippo_combine.specs.Bringing.{AreBrought, BringsNamed, BringsOn, MayGo};

    // Moves a table forward, if it is known.
    fn bring<P: CountedKeeper<L>, L: Ledger>(
        &self,
        tables: &mut Vec<LiveRows>,
        keeper: &mut P,
        alloc: Global,
        table: &Name,
        steps: &mut Steps<L>,
    ) -> Result<(), ReadFault>
        requires may { MayGo self.now tables.old.items (P.state keeper.old) }
        ensures { BringsNamed self.now (table.now ∷ []) result tables.old.items
            tables.new.items (P.state keeper.old) (P.state keeper.new) steps.old steps.new }
    {
        let Some(schema) = self.past.catalog.table(table) else {
            return Ok(());
        };
        let place = match place_for(tables, alloc, schema) {
            Ok(place) => place,
            Err(Memory) => return Err(ReadFault::Memory),
        };
        tables[place].advance(keeper, alloc, self.number, self.past.count, steps)
    }

    // Moves the known ones of the tables with these names forward.
    fn bring_all<P: CountedKeeper<L>, L: Ledger>(
        &self,
        tables: &mut Vec<LiveRows>,
        keeper: &mut P,
        alloc: Global,
        names: &[Name],
        steps: &mut Steps<L>,
    ) -> Result<(), ReadFault>
        requires may { MayGo self.now tables.old.items (P.state keeper.old) }
        ensures { BringsNamed self.now names.now result tables.old.items
            tables.new.items (P.state keeper.old) (P.state keeper.new) steps.old steps.new }
    {
        for table in names {
            self.bring(tables, keeper, alloc, table, steps)?;
        }
        Ok(())
    }

    /// Moves the known ones of an audit's and a query's tables forward.
    pub(crate) fn bring_both<P: CountedKeeper<L>, L: Ledger>(
        &self,
        tables: &mut Vec<LiveRows>,
        keeper: &mut P,
        alloc: Global,
        query: &Query,
        audit: &Audit,
        steps: &mut Steps<L>,
    ) -> Result<(), ReadFault>
        requires may { MayGo self.now tables.old.items (P.state keeper.old) }
        ensures brings { BringsOn self.now result tables.old.items tables.new.items
            (P.state keeper.old) (P.state keeper.new) steps.old steps.new }
        ensures audit { OnOk result (AreBrought self.now audit.now.tables tables.new.items) }
        ensures query { OnOk result (AreBrought self.now query.now.tables tables.new.items) }
    {
        self.bring_all(tables, keeper, alloc, audit.tables.as_slice(), steps)?;
        self.bring_all(tables, keeper, alloc, query.tables.as_slice(), steps)
    }
}
