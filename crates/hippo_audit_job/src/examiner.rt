//! The trait of an audit's examiner, which judges one logged query at a time.
ghost use Rattle.std.specs.Prelude.{◌≡◌, true, option_map};
ghost use Rattle.hippo_model.specs.Columns.{names_all};
ghost use Rattle.hippo_audit_job.specs.Examining.{Examination, MayExamine, Examines, shown_count};

use crate::past::Past;
use hippo_backlog::ReadFault;
use hippo_keeper::{CountedKeeper, Steps};
use hippo_model::{Audit, Entry, Query, SharedTuple};
use std::alloc::Global;
use std::sync::ledger::Ledger;

/// Examines logged queries, in the order of their entries, for the rows that they share with an
/// audit.
pub trait Examiner<P: CountedKeeper<L>, L: Ledger> {
    // What contracts say about an examiner.
    ghost terms: { Examination Self };

    /// Returns the first virtual tuple that serves. The entry is a logged query whose text means
    /// `query` at the entry's own time, and `query` names every audited column. Entry numbers must
    /// not decrease from one call to the next.
    ///
    /// The result is guaranteed if the keeper's contents are known, they are a valid history whose
    /// past is `past`, and the examiner fits that history at the entry's number. `Damaged` is then
    /// never returned. `Keeper` is returned only if the keeper's count of faults rose. Each version
    /// that the keeper hands over is one step.
    fn examine(
        &mut self,
        keeper: &mut P,
        alloc: Global,
        past: &Past<'_>,
        entry: &Entry,
        query: &Query,
        audit: &Audit,
        steps: &mut Steps<L>,
    ) -> Result<Option<SharedTuple>, ReadFault>
        requires may { MayExamine terms audit.now entry.now.seq self.old (P.state keeper.old) }
        requires names { names_all query.now audit.now ≡ true }
        ensures examines { Examines terms past.now audit.now entry.now query.now result self.old
            self.new
            (P.state keeper.old) (P.state keeper.new) steps.old steps.new };

    /// How many versions the examiner was handed, if it counts them. The count stops at 2^64 - 1.
    fn taken(&self) -> Option<u64>
        ensures { result ≡ option_map shown_count (terms.handed self.now) };
}
