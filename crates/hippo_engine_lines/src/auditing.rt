//! DURING: an audit of all queries that were asked so far.
ghost use Rattle.std.specs.Prelude.{◌≢◌, bytes_eq, Err as Bad};
ghost use Rattle.std.specs.List.{IsDistinct};
ghost use Rattle.hippo_stmt_lines.specs.Commands.{Command};
ghost use Rattle.hippo_engine_world.specs.Holding.{world_of};
ghost use Rattle.hippo_engine_checks.specs.declared.deeds.Deed.TheVariants as deeds;
ghost use Rattle.hippo_engine_checks.specs.Findings.{Does};
ghost use Rattle.hippo_engine_rules.specs.declared.faults.EngineFault.TheVariants.{Write as WriteFailed};
ghost use Rattle.hippo_engine.specs.Carrying.{AtWork, Carries};

use hippo_engine::Engine;
use hippo_engine_audits::tell_flags;
use hippo_engine_rules::EngineFault;
use hippo_keeper::{CountedKeeper, Steps};
use hippo_model::Audit;
use hippo_values::Boxed;
use std::alloc::Global;
use std::sync::ledger::Ledger;

/// Replies with the questions that an audit flags, among all that were asked so far. Returns
/// `EngineFault::Keeper` only if the keeper failed, and `EngineFault::Damaged` only if the store is
/// not transparent.
pub(crate) fn audit_history<P: CountedKeeper<L>, L: Ledger>(
    engine: &mut Engine,
    alloc: Global,
    keeper: &mut P,
    audit: Boxed<Audit>,
    steps: &mut Steps<L>,
) -> Result<(), EngineFault>
    requires at_work { AtWork engine.old (P.state keeper.old) }
    requires differ { IsDistinct bytes_eq audit.tables }
    ensures carries { (command : Command)
        → Does command (deeds.Audit audit) engine.old.state (world_of engine.old.world)
        → Carries command result engine.old engine.new
        (P.state keeper.old) (P.state keeper.new) steps.old steps.new }
    ensures unwritten { result ≢ Bad WriteFailed }
{
    tell_flags(
        alloc,
        keeper,
        &engine.state,
        engine.world.format,
        audit.into_inner(),
        &mut engine.reply,
        steps,
    )
}
