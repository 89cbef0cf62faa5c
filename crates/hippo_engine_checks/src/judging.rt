//! What to do for a command, or why not.
ghost use Rattle.std.specs.Prelude.{◌≡◌, true};
ghost use Rattle.hippo_keeper.specs.Keeping.{IsReady};
ghost use Rattle.hippo_stmt_lines.specs.Commands as commands;
ghost use Rattle.hippo_stmt_lines.specs.LentCommands.{command};
ghost use Rattle.hippo_replay.specs.Standing.{IsSound, IsTimely};
ghost use Rattle.hippo_engine_checks.specs.Findings.{IsOfLine, Judges, reads_nothing};

use crate::deeds::{Deed, Unjudged};
use crate::requests::{judge_clock, judge_request};
use crate::statements::{judge_statement, unread};
use hippo_engine_sessions::WorldView;
use hippo_keeper::{CountedKeeper, Steps};
use hippo_replay::State;
use hippo_report::Speaker;
use hippo_stmt_lines::Command;
use std::alloc::Global;
use std::sync::ledger::Ledger;

/// For whom the line of a command speaks.
pub fn who_commands(found: &Command<'_>) -> Speaker
    ensures { result ≡ commands.who_commands (command found.now) }
{
    match found {
        Command::Nothing => Speaker::Nobody,
        Command::Wrong { who, .. } => *who,
        Command::SetClock { .. } => Speaker::Nobody,
        Command::Request { who, .. } => *who,
        Command::Statement { who, .. } => *who,
    }
}

/// What to do for a command, or why not: its first refusal, or out of memory. An EXPLAIN of the
/// console looks up its question in the keeper's history, where each version that is read counts as
/// a step. No other command reads the history.
pub fn judge<'t, P: CountedKeeper<L>, L: Ledger, W: WorldView>(
    alloc: Global,
    state: &State,
    world: &W,
    keeper: &mut P,
    found: Command<'t>,
    steps: &mut Steps<L>,
) -> Result<Deed<'t>, Unjudged>
    requires sound { IsSound state.now }
    requires timely { IsTimely state.now (W.seen world.now).clock }
    requires ready { IsReady true (P.state keeper.old) }
    requires of_line { IsOfLine (command found) }
    ensures judges { Judges (command found.entry) result state.now (W.seen world.now)
        (P.state keeper.old)
        (P.state keeper.new)
        steps.old steps.new }
    ensures still { reads_nothing result ≡ true → keeper.new ≡ keeper.old }
    ensures idle { reads_nothing result ≡ true → steps.new ≡ steps.old }
{
    match found {
        Command::Nothing => Ok(Deed::DoNothing),
        Command::Wrong { refusal, .. } => Err(Unjudged::Refused(refusal)),
        Command::SetClock { moment } => unread(judge_clock(world, moment)),
        Command::Request { who, request } => {
            unread(judge_request(alloc, state, world, who, &request))
        }
        Command::Statement {
            who,
            statement,
            text,
        } => {
            let read = statement.get();
            let judged = judge_statement(alloc, state, world, keeper, who, read, text, steps);
            drop(statement);
            judged
        }
    }
}
