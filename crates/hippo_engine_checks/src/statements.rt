//! Checks of statements: what to do for each, or why not.
ghost use Rattle.std.specs.Prelude.{◌≡◌, true, false};
ghost use Rattle.hippo_values.specs.Texts.{Txt as Text};
ghost use Rattle.hippo_stmt_ast.specs.declared.statement.Stmt.TheVariants as stmt;
ghost use Rattle.hippo_typing_catalog.specs.ChangesWanted.{changes_something};
ghost use Rattle.hippo_keeper.specs.Keeping.{IsReady};
ghost use Rattle.hippo_stmt_lines.specs.Commands as commands;
ghost use Rattle.hippo_typing_laws.specs.Written.{is_written};
ghost use Rattle.hippo_replay.specs.Standing.{IsSound, IsTimely};
ghost use Rattle.hippo_report.specs.declared.speaker.Speaker.TheVariants.{Nobody, Console, Session};
ghost use Rattle.hippo_replay.specs.declared.state.State.{State as HeldState};
ghost use Rattle.hippo_report.specs.declared.refusal.Refusal.TheVariants as refusals;
ghost use Rattle.hippo_engine_sessions.specs.Worlds.{World};
ghost use Rattle.hippo_engine_checks.specs.declared.deeds.Deed.TheVariants as kinds;
ghost use Rattle.hippo_engine_checks.specs.Findings.{IsOfLine, IsRefused, FindsDeed, begins, limit_of, begun_at, begun_with, free_to_begin, without_reading, Judges, reads_nothing};

use crate::asking::{judge_question, written_question};
use crate::audits::audit_in;
use crate::changes::entry_of_change;
use crate::deeds::{Deed, Unjudged};
use crate::entries::question_at;
use hippo_engine_sessions::WorldView;
use hippo_keeper::{CountedKeeper, Steps};
use hippo_model::Audit;
use hippo_replay::State;
use hippo_report::{Refusal, Speaker};
use hippo_stmt_ast::{RawAudit, Stmt};
use hippo_values::Boxed;
use std::alloc::Global;
use std::sync::ledger::Ledger;

fn judge_change<W: WorldView>(
    alloc: Global,
    state: &State,
    world: &W,
    statement: &Stmt,
) -> Result<Deed<'static>, Refusal>
    requires timely { IsTimely state.now (W.seen world.now).clock }
    requires changes { changes_something statement.now ≡ true }
    requires written { is_written statement.now ≡ true }
    ensures { (text : Text) → FindsDeed (commands.make_statement Console statement.now text) result
        state.now (W.seen world.now) }
{
    match entry_of_change(alloc, state, world, statement) {
        Ok(entry) => Ok(Deed::Change { entry }),
        Err(refusal) => Err(refusal),
    }
}

fn judge_audit(alloc: Global, state: &State, written: &RawAudit) -> Result<Deed<'static>, Refusal>
    requires sound { IsSound state.now }
    ensures { (text : Text) (world : World)
        → FindsDeed (commands.make_statement Console (stmt.Audit written.now) text) result state.now
        world }
{
    match audit_in(alloc, state, written) {
        Ok(audit) => Ok(Deed::Audit { audit }),
        Err(refusal) => Err(refusal),
    }
}

// An audit that outlives its line: a job, which looks back step by step, or a watch on later
// questions.
#[derive(Clone, Copy)]
enum LastingAudit {
    Job,
    Watch,
}

fn limit_of(lasting: LastingAudit) -> Refusal
    ensures { result ≡ limit_of lasting }
{
    match lasting {
        LastingAudit::Job => Refusal::JobLimit,
        LastingAudit::Watch => Refusal::WatchLimit,
    }
}

fn begun_at(lasting: LastingAudit, audit: Boxed<Audit>, number: usize) -> Deed<'static>
    ensures { result ≡ begun_at lasting number audit }
{
    match lasting {
        LastingAudit::Job => Deed::BeginAudit { job: number, audit },
        LastingAudit::Watch => Deed::Watch {
            watch: number,
            audit,
        },
    }
}

// The lowest free number for a job or for a watch.
fn free_number<W: WorldView>(world: &W, lasting: LastingAudit) -> Option<usize>
    ensures { result ≡ free_to_begin lasting (W.seen world.now) }
{
    match lasting {
        LastingAudit::Job => world.free_job(),
        LastingAudit::Watch => world.free_watch(),
    }
}

// Gives the job or the watch the free number.
fn begun_with(
    lasting: LastingAudit,
    audit: Boxed<Audit>,
    free: Option<usize>,
) -> Result<Deed<'static>, Refusal>
    ensures { result ≡ begun_with lasting audit free }
{
    match free {
        Some(number) => Ok(begun_at(lasting, audit, number)),
        None => {
            drop(audit);
            Err(limit_of(lasting))
        }
    }
}

// Checks a BEGIN AUDIT or a WATCH.
fn judge_begin<W: WorldView>(
    alloc: Global,
    state: &State,
    world: &W,
    lasting: LastingAudit,
    written: &RawAudit,
) -> Result<Deed<'static>, Refusal>
    requires sound { IsSound state.now }
    ensures { (text : Text) → FindsDeed (commands.make_statement Console
        (begins lasting written.now) text) result
        state.now (W.seen world.now) }
{
    match audit_in(alloc, state, written) {
        Ok(audit) => begun_with(lasting, audit, free_number(world, lasting)),
        Err(refusal) => Err(refusal),
    }
}

// A result that was found without reading. Inlined, since the result is large and would otherwise
// be copied in and out.
#[inline(always)]
pub(crate) fn unread<'t>(found: Result<Deed<'t>, Refusal>) -> Result<Deed<'t>, Unjudged>
    ensures { result ≡ without_reading found.entry }
{
    match found {
        Ok(deed) => Ok(deed),
        Err(refusal) => Err(Unjudged::Refused(refusal)),
    }
}

// EXPLAIN at the console: looks up the question with a number.
fn look_up<P: CountedKeeper<L>, L: Ledger>(
    alloc: Global,
    state: &State,
    keeper: &mut P,
    number: &i64,
    steps: &mut Steps<L>,
) -> Result<Deed<'static>, Unjudged>
    requires ready { IsReady true (P.state keeper.old) }
    ensures judges { (text : Text) (world : World)
        → Judges (commands.make_statement Console (stmt.Explain number.now) text) result
        state.now world (P.state keeper.old) (P.state keeper.new) steps.old steps.new }
    ensures looks { reads_nothing result ≡ false }
{
    match question_at(alloc, keeper, state, number, steps) {
        Ok(Some(entry)) => Ok(Deed::Explain { entry }),
        Ok(None) => Err(Unjudged::NoQuestion(*number)),
        Err(fault) => Err(Unjudged::Unread(fault)),
    }
}

// What to do for a statement of a session. It asks a question, or is refused.
fn statement_of_session<'t, W: WorldView>(
    alloc: Global,
    state: &State,
    world: &W,
    session: u8,
    statement: &Stmt,
    text: &'t str,
) -> Result<Deed<'t>, Refusal>
    requires sound { IsSound state.now }
    requires timely { IsTimely state.now (W.seen world.now).clock }
    requires of_line { IsOfLine (commands.make_statement (Session session) statement.now text.now) }
    ensures { FindsDeed (commands.make_statement (Session session) statement.now text.now) result
        state.now (W.seen world.now) }
{
    match written_question(statement) {
        Some(written) => judge_question(alloc, state, world, session, &written, text),
        None => Err(Refusal::ConsoleOnly),
    }
}

// What to do for a statement of the console. Only EXPLAIN reads the history.
fn statement_of_console<P: CountedKeeper<L>, L: Ledger, W: WorldView>(
    alloc: Global,
    state: &State,
    world: &W,
    keeper: &mut P,
    statement: &Stmt,
    steps: &mut Steps<L>,
) -> Result<Deed<'static>, Unjudged>
    requires sound { IsSound state.now }
    requires timely { IsTimely state.now (W.seen world.now).clock }
    requires ready { IsReady true (P.state keeper.old) }
    requires written { is_written statement.now ≡ true }
    ensures judges { (text : Text)
        → Judges (commands.make_statement Console statement.now text) result state.now
        (W.seen world.now)
        (P.state keeper.old) (P.state keeper.new) steps.old steps.new }
    ensures still { reads_nothing result ≡ true → keeper.new ≡ keeper.old }
    ensures idle { reads_nothing result ≡ true → steps.new ≡ steps.old }
{
    match statement {
        Stmt::Explain(number) => look_up(alloc, state, keeper, number, steps),
        Stmt::Audit(written) => unread(judge_audit(alloc, state, written)),
        Stmt::BeginAudit(written) => unread(judge_begin(
            alloc,
            state,
            world,
            LastingAudit::Job,
            written,
        )),
        Stmt::Watch(written) => unread(judge_begin(
            alloc,
            state,
            world,
            LastingAudit::Watch,
            written,
        )),
        _ => match written_question(statement) {
            Some(_) => Err(Unjudged::Refused(Refusal::SessionsOnly)),
            None => unread(judge_change(alloc, state, world, statement)),
        },
    }
}

// Why a statement is refused when nobody speaks.
fn refused_to_nobody(statement: &Stmt) -> Refusal
    ensures { (text : Text) (state : HeldState) (world : World)
        → IsRefused (commands.make_statement Nobody statement.now text) result state world }
{
    match written_question(statement) {
        Some(_) => Refusal::SessionsOnly,
        None => Refusal::ConsoleOnly,
    }
}

/// What to do for a statement in a text, or why not. Only sessions may ask questions, and only the
/// console may use the other statements. Only EXPLAIN reads the history.
pub(crate) fn judge_statement<'t, P: CountedKeeper<L>, L: Ledger, W: WorldView>(
    alloc: Global,
    state: &State,
    world: &W,
    keeper: &mut P,
    who: Speaker,
    statement: &Stmt,
    text: &'t str,
    steps: &mut Steps<L>,
) -> Result<Deed<'t>, Unjudged>
    requires sound { IsSound state.now }
    requires timely { IsTimely state.now (W.seen world.now).clock }
    requires ready { IsReady true (P.state keeper.old) }
    requires of_line { IsOfLine (commands.make_statement who statement.now text.now) }
    ensures judges { Judges (commands.make_statement who statement.now text.now) result
        state.now (W.seen world.now)
        (P.state keeper.old) (P.state keeper.new) steps.old steps.new }
    ensures still { reads_nothing result ≡ true → keeper.new ≡ keeper.old }
    ensures idle { reads_nothing result ≡ true → steps.new ≡ steps.old }
{
    match who {
        Speaker::Session(session) => {
            unread(statement_of_session(alloc, state, world, session, statement, text))
        }
        Speaker::Console => statement_of_console(alloc, state, world, keeper, statement, steps),
        Speaker::Nobody => Err(Unjudged::Refused(refused_to_nobody(statement))),
    }
}
