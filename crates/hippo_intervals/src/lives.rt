//! The rows of a table that are live at a place in the history.
ghost use Rattle.std.specs.Prelude.{◌≡◌, ◌≤◌, true, IfOk};
ghost use Rattle.hippo_keeper.specs.Keeping.{IsReady};
ghost use Rattle.hippo_intervals.specs.Living.{no_lives, taken_by, Advances};

use hippo_backlog::{ReadFault, Versions};
use hippo_keeper::{CountedKeeper, Steps};
use hippo_model::Schema;
use hippo_tables_rows::RowSet;
use hippo_values::{Duplicate, Memory};
use std::alloc::Global;
use std::marker::Model;
use std::sync::ledger::Ledger;

/// The rows of a table that are live at a place in the history, that is, after the entries up to
/// that number.
///
/// A version is live from its own entry to the entry before the next version of its key. A delete
/// ends a row and begins none. The place only moves forward. Versions that were read beyond the
/// place wait, so each version is read once.
#[derive(Drop)]
pub struct LiveRows {
    schema: Schema,
    versions: Versions,
}

impl Model for LiveRows {
    ghost use Rattle.std.specs.Prelude.{◌≡◌};
    ghost use Rattle.hippo_intervals.specs.Living.{HeldLives};

    ghost Value = { HeldLives };

    ghost view = { λ lives. record {
      schema = lives.schema;
      versions = lives.versions;
    } };

    ghost invariant = { λ lives. lives.versions.rows.key ≡ lives.schema.key };
}

impl LiveRows {
    /// The rows of a table before the first entry: none.
    pub fn new(alloc: Global, schema: &Schema) -> Result<LiveRows, Memory>
        ensures { IfOk result (λ lives. lives ≡ no_lives schema.now) }
    {
        let schema = schema.copy(alloc)?;
        let key = schema.key.copy(alloc)?;
        Ok(LiveRows {
            schema,
            versions: Versions::new(alloc, key),
        })
    }

    pub fn schema(&self) -> &Schema
        ensures { result.now ≡ self.now.schema }
    {
        &self.schema
    }

    /// The number of entries after which these are the rows; 0 at first.
    pub fn place(&self) -> u64
        ensures { result ≡ self.now.versions.place }
    {
        self.versions.place()
    }

    /// The rows that are live at the place, with their births.
    pub fn rows(&self) -> &RowSet
        ensures { result.now ≡ self.now.versions.rows }
    {
        self.versions.rows()
    }

    /// Creates a secondary order of the rows by a column, and maintains it from now on, so that
    /// rows can be looked up by the column. The rows stay the same.
    pub fn order_by(&mut self, alloc: Global, column: usize)
        ensures { self.new ≡ self.old }
    {
        self.versions.order_by(alloc, column);
    }

    /// The number of versions that were read and taken in, including those whose rows have ended
    /// and those that wait.
    pub fn taken(&self) -> u64
        ensures { result ≡ taken_by self.now }
    {
        self.versions.handed()
    }

    /// Moves the place forward to a number. `end` is the length of the kept history: nothing after
    /// it is requested.
    ///
    /// On Ok, the rows are those after the first `number` entries. On an error, the place is
    /// somewhere between the old one and `number`. `Keeper` is returned only if the keeper's count
    /// of faults rose. `Damaged` is returned with the number of an entry that was read and does not
    /// fit, and never if the store's contents are known to be a valid history. The steps and
    /// `taken` rise by the same number.
    pub fn advance<P: CountedKeeper<L>, L: Ledger>(
        &mut self,
        keeper: &mut P,
        alloc: Global,
        number: u64,
        end: u64,
        steps: &mut Steps<L>,
    ) -> Result<(), ReadFault>
        requires ready { IsReady true (P.state keeper.old) }
        requires forward { self.old.versions.place ≤ number }
        requires end { number ≤ end }
        ensures advances { Advances number end result self.old self.new
            (P.state keeper.old) (P.state keeper.new) steps.old steps.new }
    {
        let schema = &self.schema;
        self.versions
            .advance_to(keeper, alloc, schema, number, end, steps)
    }
}
