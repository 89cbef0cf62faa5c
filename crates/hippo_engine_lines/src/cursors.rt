//! Fetching rows from a cursor.
ghost use Rattle.std.specs.Prelude.{◌≡◌, option_copied, option_and_then};
ghost use Rattle.hippo_engine_world.specs.Holding.{world_of};
ghost use Rattle.hippo_engine_sessions.specs.Worlds.{at_number, session_at};
ghost use Rattle.hippo_stmt_lines.specs.Commands.{Command};
ghost use Rattle.hippo_engine_checks.specs.declared.deeds.Deed.TheVariants as deeds;
ghost use Rattle.hippo_engine_checks.specs.Findings.{Does};
ghost use Rattle.hippo_engine.specs.Carrying.{IsQuiet};
ghost use Rattle.hippo_engine_lines.specs.Performing.{MayDo};

use hippo_engine::Engine;
use hippo_engine_audits::print_next;
use hippo_engine_rules::refuse_out_of_memory;
use hippo_engine_sessions::{Cursor, WorldView};
use hippo_engine_world::World;
use hippo_report::Speaker;
use hippo_values::Memory;

// The cursor at a number of an open session.
fn cursor_at(world: &World, session: u8, cursor: u8) -> Option<&Cursor>
    ensures { option_copied result
        ≡ option_and_then (λ held. at_number held.cursors cursor)
        (session_at (world_of world.now) session) }
{
    match world.session(session) {
        Some(held) => held.cursors.at(usize::from(cursor)),
        None => None,
    }
}

/// Replies with the next rows of a cursor. The cursor moves on only when the reply is complete.
/// When out of memory, replies with that refusal.
pub(crate) fn hand_out(engine: &mut Engine, session: u8, cursor: u8, count: u32)
    requires { MayDo (deeds.HandOut session cursor count) engine.old }
    ensures { (command : Command)
        → Does command (deeds.HandOut session cursor count) engine.old.state
        (world_of engine.old.world)
        → IsQuiet command engine.old engine.new }
{
    match cursor_at(&engine.world, session, cursor) {
        Some(held) => match print_next(session, held, count, &mut engine.reply) {
            Ok(()) => engine.world.move_on(session, cursor, count),
            Err(Memory) => refuse_out_of_memory(Speaker::Session(session), &mut engine.reply),
        },
        None => unreachable!(),
    }
}
