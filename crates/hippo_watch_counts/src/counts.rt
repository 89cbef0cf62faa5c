//! Counts of an audit's hits: the rows of each of its tables that its own conditions find.
ghost use Rattle.std.specs.Prelude.{◌≡◌, ◌<◌, ℕ, true, ◌-◌, ◌+◌, slice_index_or, slice_set, option_copied, IfOk};
ghost use Rattle.hippo_model.specs.Terms.{History};
ghost use Rattle.hippo_model.specs.Hits.{own_conditions};
ghost use Rattle.hippo_tables.specs.Standing.{TablesStandFor};
ghost use Rattle.hippo_watch_counts.specs.Rows.{hits_among, table_hits};
ghost use Rattle.hippo_watch_counts.specs.Counts.{AreHits, HasNone, changed_count, audit_place, changed_hits};

use crate::own::hit_of;
use hippo_model::{Audit, Cells};
use hippo_tables::Tables;
use hippo_tables_rows::RowSet;
use hippo_values::{Memory, Name};
use std::alloc::Global;
use std::marker::Model;

/// Counts, one for each table of an audit.
#[derive(Drop)]
pub struct Counts {
    counts: Vec<u64>,
}

impl Model for Counts {
    ghost use Rattle.std.specs.Prelude.{List, ℕ};

    ghost Value = { List ℕ };

    ghost view = { λ counts. counts.counts.items };
}

/// An audit, and the number of rows of each of its tables that its own conditions find.
#[derive(Drop)]
pub struct AuditHits {
    pub audit: Audit,
    pub hits: Counts,
}

// The number of rows that an audit's own conditions on the table at a place find.
fn count_in(audit: &Audit, table: usize, rows: &RowSet) -> u64
    ensures { result ≡ hits_among (own_conditions audit.now table) rows.now }
{
    let mut count = 0_u64;
    for place in 0..rows.len() {
        count += hit_of(audit, table, Some(rows.row(place)));
    }
    count
}

// The number of rows of a table, which is the audit's at a place, that its own conditions find.
fn count_now(audit: &Audit, place: usize, table: &Name, tables: &Tables) -> u64
    ensures { (history : History) → TablesStandFor tables.now history
        → result ≡ table_hits history (own_conditions audit.now place) table.now }
{
    match tables.rows(table) {
        Some(rows) => count_in(audit, place, rows),
        None => 0,
    }
}

// The counts of all tables.
fn counts_of(alloc: Global, audit: &Audit, tables: &Tables) -> Result<Vec<u64>, Memory>
    ensures { IfOk result (λ counts. (history : History) → TablesStandFor tables.now history
        → AreHits history audit.now counts.items) }
{
    let names = audit.tables.as_slice();
    let mut counts = Vec::with_capacity(alloc, names.len())?;
    for name in names {
        let count = count_now(audit, counts.len(), name, tables);
        counts.push(count)?;
    }
    Ok(counts)
}

fn put_count(counts: &mut [u64], place: usize, count: u64)
    ensures { counts.new ≡ slice_set counts.old place count }
{
    if place < counts.len() {
        counts[place] = count;
    }
}

fn place_of(tables: &[Name], table: &Name) -> Option<usize>
    ensures { result ≡ audit_place tables.now table.now }
{
    tables.iter().position(|name| name == table)
}

// A count after an old row is replaced by a new one.
fn changed_count(
    audit: &Audit,
    place: usize,
    old: Option<&Cells>,
    new: Option<&Cells>,
    count: u64,
) -> u64
    ensures { result ≡ changed_count (own_conditions audit.now place)
        (option_copied old.entry) (option_copied new.entry) count }
{
    let left = count.saturating_sub(hit_of(audit, place, old));
    left.saturating_add(hit_of(audit, place, new))
}

impl Counts {
    // The count at a place; 0 if there is no such place.
    fn at(&self, place: usize) -> u64
        ensures { result ≡ slice_index_or self.now place 0 }
    {
        match self.counts.as_slice().get(place) {
            Some(count) => *count,
            None => 0,
        }
    }

    fn put(&mut self, place: usize, count: u64)
        ensures { self.new ≡ slice_set self.old place count }
    {
        put_count(&mut self.counts, place, count);
    }
}

impl AuditHits {
    /// An audit with the counts of its hits in the tables as they are now. Fails when out of
    /// memory.
    pub fn new(alloc: Global, audit: Audit, tables: &Tables) -> Result<AuditHits, Memory>
        ensures audit { IfOk result (λ made. made.audit ≡ audit) }
        ensures hits { IfOk result (λ made. (history : History) → TablesStandFor tables.now history
            → AreHits history audit made.hits) }
    {
        match counts_of(alloc, &audit, tables) {
            Ok(counts) => Ok(AuditHits {
                audit,
                hits: Counts { counts },
            }),
            Err(Memory) => {
                drop(audit);
                Err(Memory)
            }
        }
    }

    /// The count of the table at a place; 0 if there is no such place.
    pub fn at(&self, place: usize) -> u64
        ensures { result ≡ slice_index_or self.now.hits place 0 }
    {
        self.hits.at(place)
    }

    /// Whether at least one table has no hits.
    pub fn has_none(&self) -> bool
        ensures { result ≡ true → HasNone self.now.audit self.now.hits }
    {
        for place in 0..self.audit.tables.len() {
            if self.hits.at(place) == 0 {
                return true;
            }
        }
        false
    }

    /// Changes the count of a table, if the audit has it, after an old row is replaced by a new
    /// one. Takes no memory.
    pub fn change(&mut self, table: &Name, old: Option<&Cells>, new: Option<&Cells>)
        ensures { self.new ≡ changed_hits table.now (option_copied old.entry)
            (option_copied new.entry) self.old }
    {
        if let Some(place) = place_of(self.audit.tables.as_slice(), table) {
            let count = changed_count(&self.audit, place, old, new, self.hits.at(place));
            self.hits.put(place, count);
        }
    }
}
