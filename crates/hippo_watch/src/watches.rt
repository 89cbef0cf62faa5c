//! Watches: standing audits, each with the counts of its hits.
ghost use Rattle.std.specs.Prelude.{◌≡◌, true, slice_index_or, option_copied, bytes_eq, IfOk};
ghost use Rattle.std.specs.List.{IsDistinct};
ghost use Rattle.hippo_model.specs.Terms.{History};
ghost use Rattle.hippo_tables.specs.Standing.{TablesStandFor};
ghost use Rattle.hippo_watch_counts.specs.Counts.{AreHits, HasNone, changed_hits};
ghost use Rattle.hippo_watch.specs.Alarms.{AreOfSome};
ghost use Rattle.hippo_watch.specs.Watches.{WatchFollows, WatchGoesBack, SharesWatched};

use crate::alarms::{AskedNow, alarm};
use hippo_model::{Act, Audit, Cells, SharedTuple};
use hippo_tables::Tables;
use hippo_values::{Memory, Name};
use hippo_watch_counts::AuditHits;
use std::alloc::Global;
use std::marker::Model;

/// An audit of the questions from now on, and the number of rows of each of its tables that its own
/// conditions find. It names no table twice.
#[derive(Drop)]
pub struct Watch {
    held: AuditHits,
}

impl Model for Watch {
    ghost use Rattle.std.specs.Prelude.{bytes_eq};
    ghost use Rattle.std.specs.List.{IsDistinct};
    ghost use Rattle.hippo_watch_counts.specs.contracts.counts.AuditHits.{the_row};
    ghost use Rattle.hippo_watch_counts.specs.declared.counts.AuditHits as counted;

    ghost Value = { counted.AuditHits };

    ghost coded = { the_row.coded };

    ghost view = { λ watch. watch.held };

    ghost invariant = { λ watch. IsDistinct bytes_eq watch.held.audit.tables };
}

// Changes the counts by the act of the next entry.
fn take_in(held: &mut AuditHits, tables: &Tables, act: &Act)
    ensures audit { held.new.audit ≡ held.old.audit }
    ensures follows { WatchFollows tables.now act.now held.old held.new }
{
    held.take_in(tables, act);
}

// Reverts the last `take_in`.
fn take_back(held: &mut AuditHits, tables: &Tables, act: &Act)
    ensures audit { held.new.audit ≡ held.old.audit }
    ensures goes_back { WatchGoesBack tables.now act.now held.old held.new }
{
    held.take_back(tables, act);
}

impl Watch {
    /// A watch with an audit, and the counts of its hits in the tables as they are now. Fails when
    /// out of memory.
    pub fn new(alloc: Global, audit: Audit, tables: &Tables) -> Result<Watch, Memory>
        requires differ { IsDistinct bytes_eq audit.tables }
        ensures audit { IfOk result (λ made. made.audit ≡ audit) }
        ensures hits { IfOk result (λ made. (history : History) → TablesStandFor tables.now history
            → AreHits history audit made.hits) }
    {
        let held = AuditHits::new(alloc, audit, tables)?;
        Ok(Watch { held })
    }

    /// The audit of the watch.
    pub fn audit(&self) -> &Audit
        ensures is { result.now ≡ self.now.audit }
        ensures differ { IsDistinct bytes_eq self.now.audit.tables }
    {
        &self.held.audit
    }

    /// The number of rows that the audit's own conditions find in its table at a place; 0 if there
    /// is no such place.
    pub fn hits(&self, place: usize) -> u64
        ensures { result ≡ slice_index_or self.now.hits place 0 }
    {
        self.held.at(place)
    }

    /// Changes the hits of a table, if the audit has it: subtracts one if the old row is a hit, and
    /// adds one if the new row is. The same call with both rows exchanged undoes it. Takes no
    /// memory.
    pub fn change(&mut self, table: &Name, old: Option<&Cells>, new: Option<&Cells>)
        ensures { self.new ≡ changed_hits table.now (option_copied old.entry)
            (option_copied new.entry) self.old }
    {
        self.held.change(table, old, new);
    }

    /// Changes the hits by the act of the next entry. `tables` are those before that entry. Takes
    /// no memory.
    pub fn take_in(&mut self, tables: &Tables, act: &Act)
        ensures audit { self.new.audit ≡ self.old.audit }
        ensures follows { WatchFollows tables.now act.now self.old self.new }
    {
        take_in(&mut self.held, tables, act);
    }

    /// Reverts the last `take_in`, if its act is not added after all. `tables` are the same. Takes
    /// no memory.
    pub fn take_back(&mut self, tables: &Tables, act: &Act)
        ensures audit { self.new.audit ≡ self.old.audit }
        ensures goes_back { WatchGoesBack tables.now act.now self.old self.new }
    {
        take_back(&mut self.held, tables, act);
    }

    // Whether at least one table has no hits.
    fn has_none(&self) -> bool
        ensures { result ≡ true → HasNone self.now.audit self.now.hits }
    {
        self.held.has_none()
    }

    /// The tuple that the audit shares with a question that is asked now: the first virtual tuple
    /// that serves, if the query is a candidate. Returns none exactly when the audit does not flag
    /// the question. If a table has no hits, returns none without a search. Fails when out of
    /// memory.
    pub fn alarm(&self, alloc: Global, asked: &AskedNow<'_>) -> Result<Option<SharedTuple>, Memory>
        requires some { AreOfSome asked.now.tables.now }
        ensures { IfOk result (SharesWatched asked.now self.now) }
    {
        if self.has_none() {
            Ok(None)
        } else {
            alarm(alloc, asked, self.audit())
        }
    }
}
