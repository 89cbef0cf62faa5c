//! Reads the logged queries of an audit's period ahead, a batch at a time.
ghost use Rattle.std.specs.Prelude.{◌≡◌, true, []};
ghost use Rattle.hippo_keeper.specs.Keeping.{IsReady};
ghost use Rattle.hippo_backlog.specs.ReadingAhead.{has_read};
ghost use Rattle.hippo_audit_job.specs.Looking.{ReadsAhead, IsDecoded};
ghost use Rattle.hippo_audit_job.specs.Flagging.{IsFirstUpTo};

use hippo_backlog::{Ahead, ReadFault, fault_of};
use hippo_entry::decode;
use hippo_keeper::Keeper;
use hippo_model::{Audit, Entry, StoredEntry};
use hippo_values::Memory;
use std::alloc::Global;

// How many logged queries one read returns. The batch is small because a text may have 65,536
// bytes.
const PIECE: u64 = 100;

/// Whether every logged query up to a number was read, or some logged query waits.
pub(crate) fn has_read(questions: &Ahead, number: u64) -> bool
    ensures { result ≡ has_read number questions.now }
{
    number <= questions.reached() || questions.first().is_some()
}

// Decodes a stored entry. `Damaged` with its number if it is not the stored form of an entry.
fn decoded(alloc: Global, kept: &StoredEntry) -> Result<Entry, ReadFault>
    ensures { IsDecoded kept.now result }
{
    match decode(alloc, kept) {
        Ok(Some(entry)) => Ok(entry),
        Ok(None) => Err(ReadFault::Damaged(kept.seq)),
        Err(Memory) => Err(ReadFault::Memory),
    }
}

/// Returns the first logged query that waits, if its number is at most `number`. `Damaged` with its
/// number if it is not the stored form of an entry.
pub(crate) fn first_up_to(
    questions: &Ahead,
    alloc: Global,
    number: u64,
) -> Result<Option<Entry>, ReadFault>
    ensures { IsFirstUpTo number questions.now result }
{
    let Some(kept) = questions.first() else {
        return Ok(None);
    };
    if number < kept.seq {
        return Ok(None);
    }
    match decoded(alloc, kept) {
        Ok(entry) => Ok(Some(entry)),
        Err(fault) => Err(fault),
    }
}

/// Reads the next batch of logged queries of an audit's period. Nothing must be waiting. `end` is
/// the last entry number that the audit looks at.
pub(crate) fn read_ahead<P: Keeper>(
    questions: &mut Ahead,
    keeper: &mut P,
    alloc: Global,
    audit: &Audit,
    end: u64,
) -> Result<(), ReadFault>
    requires ready { IsReady true (P.state keeper.old) }
    requires used { questions.old.waiting ≡ [] }
    ensures reads { ReadsAhead audit.now end result questions.old questions.new
        (P.state keeper.old) (P.state keeper.new) }
{
    match keeper.read_asked(alloc, audit.from, audit.to, questions.reached(), PIECE) {
        Ok(piece) => {
            questions.put(piece, PIECE, end);
            Ok(())
        }
        Err(fault) => Err(fault_of(fault)),
    }
}
