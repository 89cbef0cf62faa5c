//! The rows of a table at a place in the history, and the later versions that were read ahead.
ghost use Rattle.std.specs.Prelude.{◌≡◌, ◌≢◌, ℕ, ◌≤◌, ◌<◌, true, false, [], length, Ok, Err, OnOk};
ghost use Rattle.hippo_keeper.specs.Keeping.{IsReady};
ghost use Rattle.hippo_backlog.specs.Calls.{reading_as_call};
ghost use Rattle.hippo_backlog.specs.ReadingAhead.{BeginsAbove, has_read};
ghost use Rattle.hippo_backlog.specs.Backlogs.{no_versions, higher_of, TakesWaiting, ReadsOn, AdvancesTo};
ghost use Rattle.hippo_backlog.specs.declared.faults.ReadFault.TheVariants.{Damaged};

use crate::ahead::Ahead;
use crate::changes::take;
use crate::faults::{ReadFault, fault_of};
use hippo_keeper::{CountedKeeper, Steps};
use hippo_model::{Places, Schema};
use hippo_tables_rows::RowSet;
use std::alloc::Global;
use std::marker::Model;
use std::sync::ledger::Ledger;

// How many versions one read returns.
const PIECE: u64 = 1000;

fn raised(place: u64, number: u64) -> u64
    ensures { result ≡ higher_of place number }
{
    if place < number { number } else { place }
}

/// The rows of a table as they were after the entries up to a place, and the versions after the
/// place that wait.
#[derive(Drop)]
pub struct Versions {
    rows: RowSet,
    ahead: Ahead,
    place: u64,
}

impl Model for Versions {
    ghost use Rattle.hippo_backlog.specs.Backlogs.{HeldVersions};

    ghost view = { λ held. record { rows = held.rows; ahead = held.ahead; place = held.place } };

    ghost Value = { HeldVersions };
}

impl Versions {
    /// The state before any version, of a table whose key has these columns. Allocates nothing.
    pub fn new(alloc: Global, key: Places) -> Versions
        ensures { result ≡ no_versions key }
    {
        Versions {
            rows: RowSet::new(alloc, key),
            ahead: Ahead::new(alloc),
            place: 0,
        }
    }

    /// The number up to which versions are applied.
    pub fn place(&self) -> u64
        ensures { result ≡ self.now.place }
    {
        self.place
    }

    /// The rows after the entries up to the place, with their births.
    pub fn rows(&self) -> &RowSet
        ensures { result.now ≡ self.now.rows }
    {
        &self.rows
    }

    pub fn into_rows(self) -> RowSet
        ensures { result ≡ self.rows }
    {
        let Versions { rows, .. } = self;
        rows
    }

    /// Keeps an index of the rows by a column from now on, so that lookups by that column can use
    /// it. The rows do not change.
    pub fn order_by(&mut self, alloc: Global, column: usize)
        ensures { self.new ≡ self.old }
    {
        self.rows.order_by(alloc, column);
    }

    /// How many versions the keeper handed over, including those that wait.
    pub fn handed(&self) -> u64
        ensures { result ≡ self.now.ahead.handed }
    {
        self.ahead.handed()
    }

    // Applies the first version that waits, if its number is at most `number`. Returns whether it
    // did.
    fn take_first(&mut self, alloc: Global, schema: &Schema, number: u64) -> Result<bool, ReadFault>
        requires key { self.old.rows.key ≡ schema.now.key }
        ensures takes { TakesWaiting schema.now number result self.old self.new }
        ensures past { result ≡ Ok false → BeginsAbove number self.new.ahead.waiting }
        ensures fewer { result ≡ Ok true
            → length self.new.ahead.waiting < length self.old.ahead.waiting }
    {
        let Some(kept) = self.ahead.first() else {
            return Ok(false);
        };
        let place = kept.seq;
        if number < place {
            return Ok(false);
        }
        match take(alloc, schema, kept, &mut self.rows) {
            Ok(()) => {
                self.ahead.pass();
                self.place = raised(self.place, place);
                Ok(true)
            }
            Err(fault) => Err(fault),
        }
    }

    // Applies the versions that wait and whose numbers are at most `number`.
    fn take_waiting(&mut self, alloc: Global, schema: &Schema, number: u64) -> Result<(), ReadFault>
        requires key { self.old.rows.key ≡ schema.now.key }
        ensures takes { TakesWaiting schema.now number result self.old self.new }
        ensures past { OnOk result (BeginsAbove number self.new.ahead.waiting) }
    {
        loop {
            match self.take_first(alloc, schema, number) {
                Ok(true) => {}
                Ok(false) => return Ok(()),
                Err(fault) => return Err(fault),
            }
        }
    }

    // Reads the next batch. Nothing must be waiting.
    fn read_piece<P: CountedKeeper<L>, L: Ledger>(
        &mut self,
        keeper: &mut P,
        alloc: Global,
        schema: &Schema,
        end: u64,
        steps: &mut Steps<L>,
    ) -> Result<(), ReadFault>
        requires ready { IsReady true (P.state keeper.old) }
        requires used { self.old.ahead.waiting ≡ [] }
        ensures reads { (number : ℕ) → ReadsOn schema.now number end (reading_as_call result)
            self.old self.new
            (P.state keeper.old) (P.state keeper.new) steps.old steps.new }
        ensures undamaged { (number : ℕ) → result ≢ Err (Damaged number) }
        ensures further { OnOk result (self.old.ahead.reached < end
            → self.old.ahead.reached < self.new.ahead.reached) }
    {
        match keeper.read_backlog(alloc, &schema.name, self.ahead.reached(), PIECE, steps) {
            Ok(piece) => {
                self.ahead.put(piece, PIECE, end);
                Ok(())
            }
            Err(fault) => Err(fault_of(fault)),
        }
    }

    // Whether every version up to a number is read, or some version waits.
    fn has_read(&self, number: u64) -> bool
        ensures { result ≡ has_read number self.now.ahead }
    {
        number <= self.ahead.reached() || self.ahead.first().is_some()
    }

    /// Moves the rows forward to the first `number` entries, and reads from the keeper what is not
    /// read yet. `end` is the length of the history in the store.
    ///
    /// On success the rows are those after the first `number` entries. On failure the place is
    /// somewhere in between. `Keeper` is returned only if the keeper's count of faults rose.
    /// `Damaged` has the number of an entry that was handed over and does not fit. It is never
    /// returned if the store's contents are known and are a valid history. Each version is read
    /// once and is then one step.
    pub fn advance_to<P: CountedKeeper<L>, L: Ledger>(
        &mut self,
        keeper: &mut P,
        alloc: Global,
        schema: &Schema,
        number: u64,
        end: u64,
        steps: &mut Steps<L>,
    ) -> Result<(), ReadFault>
        requires ready { IsReady true (P.state keeper.old) }
        requires key { self.old.rows.key ≡ schema.now.key }
        requires forward { self.old.place ≤ number }
        requires end { number ≤ end }
        ensures brings { AdvancesTo schema.now number end result self.old self.new
            (P.state keeper.old) (P.state keeper.new) steps.old steps.new }
    {
        loop {
            match self.take_waiting(alloc, schema, number) {
                Ok(()) => {}
                Err(fault) => return Err(fault),
            }
            if self.has_read(number) {
                self.place = number;
                return Ok(());
            }
            match self.read_piece(keeper, alloc, schema, end, steps) {
                Ok(()) => {}
                Err(fault) => return Err(fault),
            }
        }
    }
}
