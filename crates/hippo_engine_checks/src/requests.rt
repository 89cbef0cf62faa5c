//! Checks of the clock and of requests, which short words make: what to do, or why not.
ghost use Rattle.std.specs.Prelude.{◌≡◌, int_lt, IfOk};
ghost use Rattle.hippo_stmt_lines.specs.Forms as requests;
ghost use Rattle.hippo_stmt_lines.specs.LentForms.{request};
ghost use Rattle.hippo_stmt_lines.specs.Commands as commands;
ghost use Rattle.hippo_replay.specs.declared.state.State.{State as HeldState};
ghost use Rattle.hippo_replay.specs.Standing.{IsTimely};
ghost use Rattle.hippo_report.specs.declared.speaker.Speaker.TheVariants.{Nobody, Console, Session};
ghost use Rattle.hippo_engine_sessions.specs.Worlds.{World};
ghost use Rattle.hippo_engine_checks.specs.Findings.{FindsDeed, IsRefused, is_of_session};

use crate::console_checks::{check_job, held_watch};
use crate::deeds::Deed;
use crate::loading::{Record, entry_of_record};
use crate::session_checks::{check_login, open_cursor, open_session};
use hippo_engine_sessions::WorldView;
use hippo_model::Pair;
use hippo_replay::State;
use hippo_report::{Refusal, Speaker};
use hippo_stmt_lines::{RequestForm, WrittenName};
use hippo_values::{Boxed, Memory, Moment, Name};
use std::alloc::Global;

fn is_earlier(moment: &Moment, clock: &Moment) -> bool
    ensures { result ≡ int_lt moment.now clock.now }
{
    moment.seconds() < clock.seconds()
}

/// The deed that sets the clock to a moment. A moment before the clock's is refused.
pub(crate) fn judge_clock<W: WorldView>(world: &W, moment: Moment) -> Result<Deed<'static>, Refusal>
    ensures { (state : HeldState) → FindsDeed (commands.set_clock moment) result state
        (W.seen world.now) }
{
    let clock = world.clock();
    if is_earlier(&moment, &clock) {
        Err(Refusal::MomentBack(clock))
    } else {
        Ok(Deed::SetClock { moment })
    }
}

// The names of a line that opens a session, in boxes, or out of memory.
fn login_names(
    alloc: Global,
    user: &WrittenName<'_>,
    purpose: &WrittenName<'_>,
    recipient: &WrittenName<'_>,
) -> Result<(Boxed<Name>, Boxed<Pair>), Memory>
    ensures user { IfOk result (λ names. names.0 ≡ user.now) }
    ensures purpose { IfOk result (λ names. names.1.purpose ≡ purpose.now) }
    ensures recipient { IfOk result (λ names. names.1.recipient ≡ recipient.now) }
{
    let user = user.name(alloc)?;
    let purpose = purpose.name(alloc)?;
    let recipient = recipient.name(alloc)?;
    let user = Boxed::new(alloc, user)?;
    let pair = Boxed::new(alloc, Pair { purpose, recipient })?;
    Ok((user, pair))
}

fn judge_user<W: WorldView>(
    state: &State,
    world: &W,
    session: u8,
    user: Boxed<Name>,
    pair: Boxed<Pair>,
) -> Result<Deed<'static>, Refusal>
    ensures { FindsDeed (commands.make_request (Session session)
        (requests.logs_in user pair.purpose pair.recipient)) result
        state.now (W.seen world.now) }
{
    match check_login(state, world, session, user.get(), pair.get()) {
        Ok(()) => Ok(Deed::LogIn {
            session,
            user,
            pair,
        }),
        Err(refusal) => Err(refusal),
    }
}

fn judge_login<W: WorldView>(
    alloc: Global,
    state: &State,
    world: &W,
    session: u8,
    user: &WrittenName<'_>,
    purpose: &WrittenName<'_>,
    recipient: &WrittenName<'_>,
) -> Result<Deed<'static>, Refusal>
    ensures { FindsDeed (commands.make_request (Session session)
        (requests.logs_in user.now purpose.now recipient.now)) result
        state.now (W.seen world.now) }
{
    match login_names(alloc, user, purpose, recipient) {
        Ok((user, pair)) => judge_user(state, world, session, user, pair),
        Err(Memory) => Err(Refusal::Memory),
    }
}

fn judge_logout<W: WorldView>(world: &W, session: u8) -> Result<Deed<'static>, Refusal>
    ensures { (state : HeldState) → FindsDeed (commands.make_request (Session session)
        requests.logs_out) result state (W.seen world.now) }
{
    match open_session(world, session) {
        Ok(_) => Ok(Deed::LogOut { session }),
        Err(refusal) => Err(refusal),
    }
}

fn judge_fetch<W: WorldView>(
    world: &W,
    session: u8,
    cursor: u8,
    count: u32,
) -> Result<Deed<'static>, Refusal>
    ensures { (state : HeldState)
        → FindsDeed (commands.make_request (Session session) (requests.fetches cursor count)) result
        state (W.seen world.now) }
{
    match open_cursor(world, session, cursor) {
        Ok(_) => Ok(Deed::HandOut {
            session,
            cursor,
            count,
        }),
        Err(refusal) => Err(refusal),
    }
}

fn judge_close<W: WorldView>(world: &W, session: u8, cursor: u8) -> Result<Deed<'static>, Refusal>
    ensures { (state : HeldState)
        → FindsDeed (commands.make_request (Session session) (requests.closes cursor)) result state
        (W.seen world.now) }
{
    match open_cursor(world, session, cursor) {
        Ok(_) => Ok(Deed::CloseCursor { session, cursor }),
        Err(refusal) => Err(refusal),
    }
}

fn judge_step<W: WorldView>(world: &W, job: u8, count: u32) -> Result<Deed<'static>, Refusal>
    ensures { (state : HeldState)
        → FindsDeed (commands.make_request Console (requests.steps job count)) result state
        (W.seen world.now) }
{
    check_job(world, job).map(|()| Deed::StepJob { job, count })
}

fn judge_drop<W: WorldView>(world: &W, job: u8) -> Result<Deed<'static>, Refusal>
    ensures { (state : HeldState)
        → FindsDeed (commands.make_request Console (requests.drops job)) result state
        (W.seen world.now) }
{
    check_job(world, job).map(|()| Deed::DropJob { job })
}

fn judge_unwatch<W: WorldView>(world: &W, watch: u8) -> Result<Deed<'static>, Refusal>
    ensures { (state : HeldState)
        → FindsDeed (commands.make_request Console (requests.unwatches watch)) result state
        (W.seen world.now) }
{
    held_watch(world, watch).map(|()| Deed::EndWatch { watch })
}

fn judge_load<W: WorldView>(
    alloc: Global,
    state: &State,
    world: &W,
    loaded: &Record<'_>,
) -> Result<Deed<'static>, Refusal>
    requires timely { IsTimely state.now (W.seen world.now).clock }
    ensures { FindsDeed (commands.make_request Console
        (requests.loads loaded.now.table.now loaded.now.text.now)) result state.now
        (W.seen world.now) }
{
    match entry_of_record(alloc, state, world, loaded) {
        Ok(entry) => Ok(Deed::Change { entry }),
        Err(refusal) => Err(refusal),
    }
}

// What to do for a request in a session. A request that only the console may make is refused.
fn request_of_session<W: WorldView>(
    asked: &RequestForm<'_>,
    alloc: Global,
    state: &State,
    world: &W,
    session: u8,
) -> Result<Deed<'static>, Refusal>
    ensures { FindsDeed (commands.make_request (Session session) (request asked.now)) result
        state.now (W.seen world.now) }
{
    match asked {
        RequestForm::Login {
            user,
            purpose,
            recipient,
        } => judge_login(alloc, state, world, session, user, purpose, recipient),
        RequestForm::Logout => judge_logout(world, session),
        RequestForm::Fetch { cursor, count } => judge_fetch(world, session, *cursor, *count),
        RequestForm::Close { cursor } => judge_close(world, session, *cursor),
        RequestForm::Step { .. } => Err(Refusal::ConsoleOnly),
        RequestForm::Drop { .. } => Err(Refusal::ConsoleOnly),
        RequestForm::Unwatch { .. } => Err(Refusal::ConsoleOnly),
        RequestForm::Load { .. } => Err(Refusal::ConsoleOnly),
    }
}

// What to do for a request at the console. A request that only a session may make is refused.
fn request_of_console<W: WorldView>(
    asked: &RequestForm<'_>,
    alloc: Global,
    state: &State,
    world: &W,
) -> Result<Deed<'static>, Refusal>
    requires timely { IsTimely state.now (W.seen world.now).clock }
    ensures { FindsDeed (commands.make_request Console (request asked.now)) result state.now
        (W.seen world.now) }
{
    match asked {
        RequestForm::Step { job, count } => judge_step(world, *job, *count),
        RequestForm::Drop { job } => judge_drop(world, *job),
        RequestForm::Unwatch { watch } => judge_unwatch(world, *watch),
        RequestForm::Load {
            table,
            record: text,
        } => judge_load(alloc, state, world, &Record { table, text: *text }),
        RequestForm::Login { .. } => Err(Refusal::SessionsOnly),
        RequestForm::Logout => Err(Refusal::SessionsOnly),
        RequestForm::Fetch { .. } => Err(Refusal::SessionsOnly),
        RequestForm::Close { .. } => Err(Refusal::SessionsOnly),
    }
}

fn is_of_session(asked: &RequestForm<'_>) -> bool
    ensures { result ≡ is_of_session (request asked.now) }
{
    match asked {
        RequestForm::Login { .. } => true,
        RequestForm::Logout => true,
        RequestForm::Fetch { .. } => true,
        RequestForm::Close { .. } => true,
        RequestForm::Step { .. } => false,
        RequestForm::Drop { .. } => false,
        RequestForm::Unwatch { .. } => false,
        RequestForm::Load { .. } => false,
    }
}

// Why a request is refused when nobody speaks.
fn refused_to_nobody(asked: &RequestForm<'_>) -> Refusal
    ensures { (state : HeldState) (world : World)
        → IsRefused (commands.make_request Nobody (request asked.now)) result state world }
{
    if is_of_session(asked) {
        Refusal::SessionsOnly
    } else {
        Refusal::ConsoleOnly
    }
}

/// What to do for a request, or why not. Each request is open either to sessions or to the console.
pub(crate) fn judge_request<W: WorldView>(
    alloc: Global,
    state: &State,
    world: &W,
    who: Speaker,
    asked: &RequestForm<'_>,
) -> Result<Deed<'static>, Refusal>
    requires timely { IsTimely state.now (W.seen world.now).clock }
    ensures { FindsDeed (commands.make_request who (request asked.now)) result state.now
        (W.seen world.now) }
{
    match who {
        Speaker::Session(session) => request_of_session(asked, alloc, state, world, session),
        Speaker::Console => request_of_console(asked, alloc, state, world),
        Speaker::Nobody => Err(refused_to_nobody(asked)),
    }
}
