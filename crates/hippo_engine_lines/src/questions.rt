//! Answering a question of a session.
ghost use Rattle.std.specs.Prelude.{◌≢◌, ℕ, Err as Bad};
ghost use Rattle.hippo_engine_world.specs.Holding.{world_of};
ghost use Rattle.hippo_stmt_lines.specs.Commands.{Command};
ghost use Rattle.hippo_engine_rules.specs.declared.faults.EngineFault.TheVariants.{Write as WriteFailed};
ghost use Rattle.hippo_engine_checks.specs.Findings.{MayBeAsked};
ghost use Rattle.hippo_engine.specs.Carrying.{AtWork, Carries};

use hippo_engine::Engine;
use hippo_engine_audits::alarms_of;
use hippo_engine_checks::{Asking, Delivery, Question};
use hippo_engine_queries::{keep_and_answer, reply_to};
use hippo_engine_rules::EngineFault;
use hippo_engine_sessions::WorldView;
use hippo_keeper::Keeper;
use std::alloc::Global;

/// Answers a question of a session by its rows, by its rows as records, or by a cursor over them.
/// The question is stored first, and then answered over the history before it. Returns
/// `EngineFault::Keeper` only if the keeper failed.
pub(crate) fn answer_question<P: Keeper>(
    engine: &mut Engine,
    alloc: Global,
    keeper: &mut P,
    question: Question<'_>,
    delivery: Delivery,
) -> Result<(), EngineFault>
    requires at_work { AtWork engine.old (P.state keeper.old) }
    requires needs { (command : Command)
        × MayBeAsked command question delivery engine.old.state (world_of engine.old.world) }
    ensures carries { (command : Command) (steps : ℕ)
        → MayBeAsked command question.entry delivery engine.old.state (world_of engine.old.world)
        → Carries command result engine.old engine.new (P.state keeper.old) (P.state keeper.new)
        steps steps }
    ensures unwritten { result ≢ Bad WriteFailed }
{
    let session = question.session;
    match engine.world.session(session) {
        Some(asker) => {
            let asking = Asking {
                asker: &*asker,
                text: &*question.text,
                query: question.query,
                delivery,
            };
            let alarms = alarms_of(alloc, &engine.state, &engine.world, &asking);
            let kept = keep_and_answer(
                alloc,
                keeper,
                &mut engine.state,
                &engine.world,
                session,
                &asking,
            );
            drop(asking);
            reply_to(
                alloc,
                session,
                alarms,
                kept,
                &mut engine.world,
                &mut engine.reply,
            )
        }
        None => unreachable!(),
    }
}
