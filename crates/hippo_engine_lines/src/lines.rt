//! Carrying out a line of the input, and writing its reply.
ghost use Rattle.std.specs.Prelude.{◌≡◌, ◌≢◌, false, IsUtf8, Err, OnOk};
ghost use Rattle.hippo_io.specs.Faults.{HasRisen};
ghost use Rattle.hippo_io.specs.LineTexts.{line_text};
ghost use Rattle.hippo_io.specs.Told.{Appends, AppendsFront};
ghost use Rattle.hippo_stmt_lines.specs.Commands.{input_command};
ghost use Rattle.hippo_engine_rules.specs.declared.faults.EngineFault.TheVariants.{Write as WriteFailed};
ghost use Rattle.hippo_engine.specs.Carrying.{IsText, AtWork, is_carried, Carries};
ghost use Rattle.hippo_engine_lines.specs.Performing.{Needs, Performs, CarriesUnwritten};

use crate::auditing::audit_history;
use crate::cursors::hand_out;
use crate::explaining::explain;
use crate::jobs::step_job;
use crate::questions::answer_question;
use crate::refusing::refuse_unjudged;
use hippo_engine::Engine;
use hippo_engine_checks::{Deed, judge, who_commands};
use hippo_engine_rules::EngineFault;
use hippo_io::{Line, Sink};
use hippo_keeper::{CountedKeeper, Steps};
use hippo_stmt_lines::command_of;
use std::alloc::Global;
use std::sync::ledger::Ledger;

// The text of a line is UTF-8, by its type.
fn is_text(text: &str)
    ensures { IsUtf8 text.now }
{}

fn has_text(line: &Line<'_>)
    ensures { IsText (line_text line.now) }
{
    match line {
        Line::Text(text) => is_text(text),
        Line::TooLong | Line::NotUtf8 | Line::End => {}
    }
}

// Does the deed that was judged for a command.
fn perform<P: CountedKeeper<L>, L: Ledger>(
    engine: &mut Engine,
    alloc: Global,
    keeper: &mut P,
    deed: Deed<'_>,
    steps: &mut Steps<L>,
) -> Result<(), EngineFault>
    requires at_work { AtWork engine.old (P.state keeper.old) }
    requires needs { Needs deed engine.old }
    ensures performs { Performs deed.entry result engine.old engine.new
        (P.state keeper.old) (P.state keeper.new) steps.old steps.new }
    ensures unwritten { result ≢ Err WriteFailed }
{
    match deed {
        Deed::DoNothing => engine.do_nothing(),
        Deed::SetClock { moment } => engine.set_clock(moment),
        Deed::LogIn {
            session,
            user,
            pair,
        } => engine.log_in(alloc, session, user.into_inner(), pair.into_inner()),
        Deed::LogOut { session } => engine.log_out(session),
        Deed::HandOut {
            session,
            cursor,
            count,
        } => hand_out(engine, session, cursor, count),
        Deed::CloseCursor { session, cursor } => engine.close_cursor(session, cursor),
        Deed::StepJob { job, count } => {
            return step_job(engine, alloc, keeper, job, count, steps);
        }
        Deed::DropJob { job } => engine.drop_job(job),
        Deed::EndWatch { watch } => engine.end_watch(watch),
        Deed::Change { entry } => return engine.change(alloc, keeper, entry),
        Deed::Ask { question, delivery } => {
            return answer_question(engine, alloc, keeper, question, delivery);
        }
        Deed::Explain { entry } => return explain(engine, alloc, keeper, entry, steps),
        Deed::Audit { audit } => return audit_history(engine, alloc, keeper, audit, steps),
        Deed::BeginAudit { job, audit } => engine.begin_audit(alloc, job, audit.into_inner()),
        Deed::Watch { watch, audit } => engine.watch(alloc, watch, audit.into_inner()),
    }
    Ok(())
}

/// Carries out a line and completes its reply in memory: judges the line's command, then does what
/// was judged, or writes the refusal. What the line adds to the history is stored when the call
/// returns. Returns `EngineFault::Keeper` only if the keeper's count of faults rose; the engine
/// must not be used after that. Returns `EngineFault::Damaged` only if the store is not
/// transparent. Each version that is read counts as a step. The end of the input commands nothing.
pub fn answer_line<P: CountedKeeper<L>, L: Ledger>(
    engine: &mut Engine,
    alloc: Global,
    line: Line<'_>,
    keeper: &mut P,
    steps: &mut Steps<L>,
) -> Result<(), EngineFault>
    requires at_work { AtWork engine.old (P.state keeper.old) }
    ensures { CarriesUnwritten (input_command (line_text line.entry)) result engine.old engine.new
        (P.state keeper.old) (P.state keeper.new) steps.old steps.new }
{
    has_text(&line);
    let found = command_of(alloc, line);
    let who = who_commands(&found);
    match judge(alloc, &engine.state, &engine.world, keeper, found, steps) {
        Ok(deed) => perform(engine, alloc, keeper, deed, steps),
        Err(unjudged) => refuse_unjudged(engine, who, unjudged),
    }
}

/// Carries out a line, as `answer_line` does, and writes its reply if it was carried out. Returns
/// `EngineFault::Write` only if the sink's count of faults rose; a front part of the reply is then
/// written.
///
/// As an example, let session 1 be ann's, for `treatment` as a `nurse`, who may see only `pid` and
/// `name` of a patient:
///
/// ```text
/// line     1 SELECT name, phone FROM patient
/// kept     the question, as the next entry
/// written  1 row 'Ada', DENIED(0)
///          1 end 1
/// ```
pub fn carry_out_line<K: Sink, P: CountedKeeper<L>, L: Ledger>(
    engine: &mut Engine,
    alloc: Global,
    line: Line<'_>,
    keeper: &mut P,
    sink: &mut K,
    steps: &mut Steps<L>,
) -> Result<(), EngineFault>
    requires at_work { AtWork engine.old (P.state keeper.old) }
    ensures carries { Carries (input_command (line_text line.entry)) result engine.old engine.new
        (P.state keeper.old) (P.state keeper.new) steps.old steps.new }
    ensures written { OnOk result (Appends (K.written sink.old) (K.written sink.new)
        engine.new.reply) }
    ensures cut { result ≡ Err WriteFailed
        → AppendsFront (K.written sink.old) (K.written sink.new) engine.new.reply
        × HasRisen (K.faults sink.old) (K.faults sink.new) }
    ensures unwritten { is_carried result ≡ false → sink.new ≡ sink.old }
    ensures unfailed { result ≢ Err WriteFailed → K.faults sink.new ≡ K.faults sink.old }
{
    match answer_line(engine, alloc, line, keeper, steps) {
        Ok(()) => engine.write_reply(sink),
        Err(fault) => Err(fault),
    }
}
