//! EXPLAIN: which cells were denied to a logged question, and by which rules.
ghost use Rattle.std.specs.Prelude.{◌≢◌, true, Err as Bad};
ghost use Rattle.hippo_keeper.specs.Keeping.{IsReady};
ghost use Rattle.hippo_engine_rules.specs.declared.faults.EngineFault.TheVariants.{Write as WriteFailed};
ghost use Rattle.hippo_engine_lines.specs.Performing.{Explained};

use hippo_engine::Engine;
use hippo_engine_audits::tell_cells;
use hippo_engine_rules::EngineFault;
use hippo_keeper::{CountedKeeper, Steps};
use hippo_model::Entry;
use hippo_values::Boxed;
use std::alloc::Global;
use std::sync::ledger::Ledger;

/// Replies to the console with the cells that were denied to a question, and the rules that denied
/// them, as of the question's own time. Returns `EngineFault::Keeper` only if the keeper failed,
/// and `EngineFault::Damaged` only if the store is not transparent.
pub(crate) fn explain<P: CountedKeeper<L>, L: Ledger>(
    engine: &mut Engine,
    alloc: Global,
    keeper: &mut P,
    entry: Boxed<Entry>,
    steps: &mut Steps<L>,
) -> Result<(), EngineFault>
    requires ready { IsReady true (P.state keeper.old) }
    ensures explained { Explained entry result engine.old engine.new
        (P.state keeper.old) (P.state keeper.new) steps.old steps.new }
    ensures unwritten { result ≢ Bad WriteFailed }
{
    let told = tell_cells(
        alloc,
        keeper,
        &engine.state,
        entry.get(),
        &mut engine.reply,
        steps,
    );
    drop(entry);
    told
}
