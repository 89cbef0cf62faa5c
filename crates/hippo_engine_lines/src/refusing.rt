//! Replying to a command that is not carried out.
ghost use Rattle.std.specs.Prelude.{◌≢◌, Err};
ghost use Rattle.hippo_engine_rules.specs.declared.faults.EngineFault.TheVariants.{Write as WriteFailed};
ghost use Rattle.hippo_engine_lines.specs.Performing.{SaysUnjudged};

use hippo_backlog::ReadFault;
use hippo_engine::Engine;
use hippo_engine_checks::Unjudged;
use hippo_engine_rules::{EngineFault, refuse, refuse_out_of_memory};
use hippo_report::{Refusal, Speaker};

/// Replies with the reason why a command is not carried out. Returns `EngineFault::Keeper` only if
/// the keeper failed, and `EngineFault::Damaged` only if the store is not transparent.
pub(crate) fn refuse_unjudged(
    engine: &mut Engine,
    who: Speaker,
    unjudged: Unjudged,
) -> Result<(), EngineFault>
    ensures says { SaysUnjudged who unjudged result engine.old engine.new }
    ensures unwritten { result ≢ Err WriteFailed }
{
    match unjudged {
        Unjudged::Refused(refusal) => {
            refuse(who, &refusal, &mut engine.reply);
            drop(refusal);
            Ok(())
        }
        Unjudged::NoQuestion(number) => {
            refuse(
                Speaker::Console,
                &Refusal::NoSuchQuery(number),
                &mut engine.reply,
            );
            Ok(())
        }
        Unjudged::Unread(ReadFault::Memory) => {
            refuse_out_of_memory(Speaker::Console, &mut engine.reply);
            Ok(())
        }
        Unjudged::Unread(ReadFault::Keeper) => Err(EngineFault::Keeper),
        Unjudged::Unread(ReadFault::Damaged(number)) => Err(EngineFault::Damaged(number)),
    }
}
