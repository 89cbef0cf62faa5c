//! An examiner that keeps the rows of the tables that it needs and moves them forward.
ghost use Rattle.hippo_combine.specs.Bringing.{IsNumberBefore};

use crate::asked::as_read;
use crate::bringing::Forward;
use crate::held::all_taken;
use crate::ordering::order_for;
use crate::sharing::shared_with;
use hippo_audit_job::{Examiner, Past};
use hippo_backlog::ReadFault;
use hippo_intervals::LiveRows;
use hippo_keeper::{CountedKeeper, Steps};
use hippo_model::{Audit, Entry, Query, SharedTuple};
use std::alloc::Global;
use std::sync::ledger::Ledger;

/// Examines logged queries in the order of their numbers, over the rows of each table that it has
/// needed so far. It moves these rows forward from query to query, so each version of a row is read
/// once.
#[derive(Drop)]
pub struct Combine {
    tables: Vec<LiveRows>,
    // The number of the entry that it was asked about last.
    asked: u64,
}

impl Combine {
    ghost use Rattle.hippo_audit_job.specs.Examining.{IsNew};
    ghost use Rattle.hippo_combine.specs.Combining.{combine_terms};

    /// An examiner that was not asked yet and holds nothing. Allocates nothing.
    pub fn new(alloc: Global) -> Combine
        ensures { IsNew combine_terms result }
    {
        Combine {
            tables: Vec::new(alloc),
            asked: 0,
        }
    }
}

/// The number of the entry before entry `seq`, if `seq` is the number of one of the first `count`
/// entries.
pub fn number_before(seq: u64, count: u64) -> Option<u64>
    ensures { IsNumberBefore seq count result }
{
    if seq == 0 || count < seq {
        None
    } else {
        Some(seq - 1)
    }
}

impl<P: CountedKeeper<L>, L: Ledger> Examiner<P, L> for Combine {
    ghost use Rattle.hippo_combine.specs.Combining.{combine_terms};

    ghost terms = { combine_terms };

    fn examine(
        &mut self,
        keeper: &mut P,
        alloc: Global,
        past: &Past<'_>,
        entry: &Entry,
        query: &Query,
        audit: &Audit,
        steps: &mut Steps<L>,
    ) -> Result<Option<SharedTuple>, ReadFault> {
        self.asked = entry.seq;
        let Some(number) = number_before(entry.seq, past.count) else {
            return Ok(None);
        };
        order_for(&mut self.tables, alloc, query, audit);
        let forward = Forward {
            past: &*past,
            number,
        };
        forward.bring_both(&mut self.tables, keeper, alloc, query, audit, steps)?;
        as_read(shared_with(
            alloc,
            self.tables.as_slice(),
            past.book,
            number,
            entry,
            query,
            audit,
        ))
    }

    fn taken(&self) -> Option<u64> {
        Some(all_taken(self.tables.as_slice()))
    }
}
