//! Stepping the audit jobs of the console.
ghost use Rattle.std.specs.Prelude.{◌≢◌, Err as Bad};
ghost use Rattle.hippo_stmt_lines.specs.Forms as requests;
ghost use Rattle.hippo_report.specs.declared.speaker.Speaker.TheVariants.{Console};
ghost use Rattle.hippo_stmt_lines.specs.Commands.{make_request};
ghost use Rattle.hippo_engine_rules.specs.declared.faults.EngineFault.TheVariants.{Write as WriteFailed};
ghost use Rattle.hippo_engine_world.specs.Holding.{world_of};
ghost use Rattle.hippo_engine_checks.specs.Checks.{HasJob};
ghost use Rattle.hippo_engine.specs.Carrying.{AtWork, Carries};

use hippo_audit_job::Past;
use hippo_engine::Engine;
use hippo_engine_audits::tell_step;
use hippo_engine_rules::EngineFault;
use hippo_keeper::{CountedKeeper, Steps};
use std::alloc::Global;
use std::sync::ledger::Ledger;

/// Lets the job at a number look at up to `count` more entries. Writes the flags that it finds to
/// the reply; when out of memory, the flags wait. Returns `EngineFault::Keeper` only if the keeper
/// failed, and `EngineFault::Damaged` only if the store is not transparent. Each version that is
/// read counts as a step.
pub(crate) fn step_job<P: CountedKeeper<L>, L: Ledger>(
    engine: &mut Engine,
    alloc: Global,
    keeper: &mut P,
    number: u8,
    count: u32,
    steps: &mut Steps<L>,
) -> Result<(), EngineFault>
    requires at_work { AtWork engine.old (P.state keeper.old) }
    requires there { HasJob (world_of engine.old.world) number }
    ensures carries { Carries (make_request Console (requests.steps number count)) result
        engine.old engine.new
        (P.state keeper.old) (P.state keeper.new) steps.old steps.new }
    ensures unwritten { result ≢ Bad WriteFailed }
{
    let at = usize::from(number);
    match engine.world.jobs.take(at) {
        Some(mut job) => {
            let past = Past {
                catalog: &engine.state.catalog,
                book: &engine.state.book,
                count: engine.state.count,
            };
            let looked = job.step(keeper, alloc, count, &past, steps);
            let told = tell_step(
                alloc,
                engine.world.format,
                looked,
                &mut job,
                &mut engine.reply,
            );
            engine.world.jobs.put(at, Some(job));
            told
        }
        None => unreachable!(),
    }
}
