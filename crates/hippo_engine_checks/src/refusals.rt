//! Refusals that several kinds of statement share.
ghost use Rattle.std.specs.Prelude.{◌≡◌, ◌≢◌, ◌⊎◌, ◌+◌, ◌<◌, ◌^◌, nat_le, OnOk, MatchResult};
ghost use Rattle.hippo_model.specs.declared.name_fault.NameFault.TheVariants as faults;
ghost use Rattle.hippo_report.specs.declared.refusal.Refusal.TheVariants as refusals;
ghost use Rattle.hippo_engine_checks.specs.Checks.{refused_if};

use hippo_model::NameFault;
use hippo_report::Refusal;
use hippo_values::{Boxed, Memory};
use std::alloc::Global;

/// The refusal of a statement that has no meaning, or out of memory.
pub(crate) fn name_refusal(fault: NameFault) -> Refusal
    ensures { (fault ≢ faults.Memory × result ≡ refusals.Meaningless fault)
        ⊎ (result ≡ refusals.Memory) }
{
    match fault {
        NameFault::Memory => Refusal::Memory,
        fault => Refusal::Meaningless(fault),
    }
}

/// The value in a box of its own, or out of memory.
pub(crate) fn boxed<T: Drop>(alloc: Global, found: T) -> Result<Boxed<T>, Refusal>
    ensures { MatchResult result (λ boxed. boxed ≡ found) (λ refusal. refusal ≡ refusals.Memory) }
{
    match Boxed::new(alloc, found) {
        Ok(boxed) => Ok(boxed),
        Err(Memory) => Err(Refusal::Memory),
    }
}

/// Checks that a history with this many entries may have one more; otherwise returns `HistoryFull`.
pub(crate) fn check_room(count: u64, limit: u32) -> Result<(), Refusal>
    ensures is { result ≡ refused_if (nat_le limit count) refusals.HistoryFull }
    ensures below { OnOk result (count + 1 < 2 ^ 63) }
{
    if u64::from(limit) <= count {
        Err(Refusal::HistoryFull)
    } else {
        Ok(())
    }
}
