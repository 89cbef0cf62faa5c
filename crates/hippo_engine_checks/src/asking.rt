//! Checks of the questions that sessions ask: what to do for each, or why it is refused.
ghost use Rattle.std.specs.Prelude.{◌≡◌, ◌+◌, ◌<◌, ◌≤◌, ◌^◌, length, true, MatchResult, IfOk, OnOk};
ghost use Rattle.std.specs.Prelude.{Ok as Good, Err as Bad};
ghost use Rattle.hippo_values.specs.Limits.{line_limit};
ghost use Rattle.hippo_model.specs.Terms.{History};
ghost use Rattle.hippo_report.specs.declared.refusal.Refusal.TheVariants.{Memory as NoMemory};
ghost use Rattle.hippo_report.specs.declared.speaker.Speaker.TheVariants as speaker;
ghost use Rattle.hippo_typing_catalog.specs.Catalogs.{known_at};
ghost use Rattle.hippo_typing_catalog.specs.Selects.{select_refused, query_of};
ghost use Rattle.hippo_typing_laws.specs.Written.{names_fit};
ghost use Rattle.hippo_replay.specs.Standing.{Represents, IsSound, IsTimely};
ghost use Rattle.hippo_engine_checks.specs.Checks.{Finds, open_session, unless_refused};
ghost use Rattle.hippo_engine_checks.specs.declared.asking.Delivery.TheVariants as delivered;
ghost use Rattle.hippo_engine_checks.specs.Judging.{delivery_for, judged_question, text_between};
ghost use Rattle.hippo_engine_checks.specs.Asking.{IsWritten, written_command, IsAnswerable};
ghost use Rattle.hippo_engine_checks.specs.Asking.{delivery_in_room, asking_with, deed_asked};
ghost use Rattle.hippo_engine_checks.specs.declared.deeds.Deed.TheVariants.{Ask};
ghost use Rattle.hippo_engine_checks.specs.Findings.{IsOfLine, FindsDeed};

use crate::deeds::{Deed, Question};
use crate::refusals::{boxed, check_room, name_refusal};
use crate::session_checks::{check_allowed, open_session};
use hippo_engine_sessions::{Session, WorldView};
use hippo_model::Query;
use hippo_replay::State;
use hippo_report::Refusal;
use hippo_stmt_ast::{RawSelect, Stmt};
use hippo_typing::resolve_select;
use hippo_typing_laws::{moment_fits, name_fits};
use hippo_values::{Boxed, LINE_LIMIT};
use std::alloc::Global;

/// The form in which a question wants its answer: as rows or as records in the reply, or in a
/// cursor.
#[derive(Clone, Copy, PartialEq, Eq)]
pub enum AnswerForm {
    Rows,
    Records,
    Cursor,
}

/// A question as the line writes it: its select, the form that it wants for its answer, and where
/// it begins and ends in the text, as byte offsets.
#[derive(Clone, Copy)]
pub struct WrittenQuestion<'a> {
    pub handing: AnswerForm,
    pub select: &'a RawSelect,
    pub start: usize,
    pub end: usize,
}

/// How the answer is delivered: in the form that the question wants and, for a cursor, with the
/// cursor's number.
#[derive(Clone, Copy, PartialEq, Eq)]
pub enum Delivery {
    Rows,
    Records,
    Cursor(u8),
}

/// A question that passed its checks: who asks, its text, the query that it means, and how its
/// answer is delivered.
#[derive(Drop)]
pub struct Asking<'a> {
    pub asker: &'a Session,
    pub text: &'a str,
    pub query: Boxed<Query>,
    pub delivery: Delivery,
}

/// The question that a statement asks, or none if the statement asks nothing.
pub(crate) fn written_question(statement: &Stmt) -> Option<WrittenQuestion<'_>>
    ensures { IsWritten statement.now result }
{
    let (handing, select, start, end) = match statement {
        Stmt::Select { select, start, end } => (AnswerForm::Rows, select, start, end),
        Stmt::Extract { select, start, end } => (AnswerForm::Records, select, start, end),
        Stmt::Ask { select, start, end } => (AnswerForm::Cursor, select, start, end),
        _ => return None,
    };
    Some(WrittenQuestion {
        handing,
        select,
        start: *start,
        end: *end,
    })
}

// The part of a text that is the question. If it cannot be cut out, or is longer than a line, the
// refusal is out of memory.
fn cut(text: &str, start: usize, end: usize) -> Result<&str, Refusal>
    ensures cut { MatchResult result (λ cut. cut.now ≡ text_between text.now start end)
        (λ refusal. refusal ≡ NoMemory) }
    ensures short { OnOk result (length (text_between text.now start end) ≤ line_limit) }
{
    match text.get(start..end) {
        Some(cut) => {
            if cut.len() > LINE_LIMIT {
                return Err(Refusal::Memory);
            }
            Ok(cut)
        }
        None => Err(Refusal::Memory),
    }
}

// The session that asks.
fn asker<W: WorldView>(world: &W, session: u8) -> Result<&Session, Refusal>
    ensures { MatchResult result (λ asker. open_session (W.seen world.now) session
        ≡ Good asker.now)
        (λ refusal. open_session (W.seen world.now) session ≡ Bad refusal) }
{
    open_session(world, session)
}

// The query that a select means.
fn meaning(alloc: Global, state: &State, select: &RawSelect) -> Result<Boxed<Query>, Refusal>
    requires { IsSound state.now }
    ensures found { (history : History) → Represents state.now history
        → Finds (λ query. query)
        (unless_refused (select_refused (known_at history) select.now)
        (query_of (known_at history) select.now)) result }
    ensures answerable { IfOk result (λ query. IsAnswerable state.now query) }
{
    match resolve_select(alloc, &state.catalog, select) {
        Ok(query) => boxed(alloc, query),
        Err(fault) => Err(name_refusal(fault)),
    }
}

// The number as one that a cursor can have. If it is too large for one, the refusal is out of
// memory.
fn cursor_number(number: usize) -> Result<Delivery, Refusal>
    ensures { MatchResult result (λ delivery. delivery ≡ delivered.Cursor number)
        (λ refusal. refusal ≡ NoMemory) }
{
    match u8::try_from(number) {
        Ok(number) => Ok(Delivery::Cursor(number)),
        Err(_) => Err(Refusal::Memory),
    }
}

fn free_cursor(asker: &Session) -> Result<Delivery, Refusal>
    ensures { Finds (λ delivery. delivery) (delivery_for AnswerForm.Cursor asker.now) result }
{
    match asker.cursors.free() {
        Some(number) => cursor_number(number),
        None => Err(Refusal::CursorLimit),
    }
}

// How the answer is delivered.
fn delivery_for(handing: AnswerForm, asker: &Session) -> Result<Delivery, Refusal>
    ensures { Finds (λ delivery. delivery) (delivery_for handing asker.now) result }
{
    match handing {
        AnswerForm::Rows => Ok(Delivery::Rows),
        AnswerForm::Records => Ok(Delivery::Records),
        AnswerForm::Cursor => free_cursor(asker),
    }
}

// How the answer is delivered, if the history has room for one more entry.
fn delivery_in_room(
    handing: AnswerForm,
    asker: &Session,
    count: u64,
    limit: u32,
) -> Result<Delivery, Refusal>
    ensures found { Finds (λ delivery. delivery) (delivery_in_room handing asker.now count limit)
        result }
    ensures below { OnOk result (count + 1 < 2 ^ 63) }
{
    let delivery = delivery_for(handing, asker)?;
    check_room(count, limit)?;
    Ok(delivery)
}

// The question with this delivery. If the delivery is refused, the question is dropped.
fn with_delivery(
    asking: Asking<'_>,
    delivery: Result<Delivery, Refusal>,
) -> Result<Asking<'_>, Refusal>
    ensures { result ≡ asking_with asking.entry delivery }
{
    match delivery {
        Ok(delivery) => Ok(Asking { delivery, ..asking }),
        Err(refusal) => {
            drop(asking);
            Err(refusal)
        }
    }
}

// The checks of a question whose own text is already cut out.
fn question<'a, W: WorldView>(
    alloc: Global,
    state: &State,
    world: &'a W,
    session: u8,
    written: &WrittenQuestion<'_>,
    text: &'a str,
) -> Result<Asking<'a>, Refusal>
    requires { IsSound state.now }
    ensures found { (history : History) → Represents state.now history → Finds (deed_asked session)
        (judged_question written.now.handing history (W.seen world.now) (speaker.Session session)
        written.now.select.now text.now)
        result }
    ensures asker { IfOk result (λ asking. open_session (W.seen world.now) session
        ≡ Good asking.asker.now) }
    ensures answerable { IfOk result (λ asking. IsAnswerable state.now asking.query) }
    ensures text { IfOk result (λ asking. asking.text.now ≡ text.now) }
    ensures below { OnOk result (state.now.count + 1 < 2 ^ 63) }
{
    let asker = asker(world, session)?;
    check_allowed(state, &asker.user, &asker.pair)?;
    let query = meaning(alloc, state, written.select)?;
    let delivery = delivery_in_room(written.handing, asker, state.count, world.limit());
    let asking = Asking {
        asker,
        text,
        query,
        delivery: Delivery::Rows,
    };
    with_delivery(asking, delivery)
}

// The types of the user, the purpose and the recipient guarantee that these names are in lower
// case.
fn names_fit(asker: &Session)
    ensures { names_fit asker.now.user asker.now.pair.purpose asker.now.pair.recipient ≡ true }
{
    name_fits(&asker.user);
    name_fits(&asker.pair.purpose);
    name_fits(&asker.pair.recipient);
}

// What to do for a question. Its text is borrowed from the line.
fn deed_of<'t>(session: u8, text: &'t str, asking: Asking<'_>) -> Deed<'t>
    ensures { result ≡ Ask (record {
      session = session;
      text = text.entry;
      query = asking.entry.query;
    })
        asking.entry.delivery }
{
    let question = Question {
        session,
        text,
        query: asking.query,
    };
    Deed::Ask {
        question,
        delivery: asking.delivery,
    }
}

/// What to do for a SELECT, an EXTRACT or an OPEN in a text. It is refused unless its session is
/// open, the user is still authorized, its names and types are valid, an OPEN finds a free cursor
/// in its session, and the history has room. It may also be refused when out of memory.
pub(crate) fn judge_question<'t, W: WorldView>(
    alloc: Global,
    state: &State,
    world: &W,
    session: u8,
    written: &WrittenQuestion<'_>,
    text: &'t str,
) -> Result<Deed<'t>, Refusal>
    requires sound { IsSound state.now }
    requires timely { IsTimely state.now (W.seen world.now).clock }
    requires of_line { IsOfLine (written_command session written.now text.now) }
    ensures { FindsDeed (written_command session written.now text.now) result state.now
        (W.seen world.now) }
{
    let part = cut(text, written.start, written.end)?;
    match question(alloc, state, world, session, written, part) {
        Ok(asking) => {
            names_fit(asking.asker);
            moment_fits(world.clock());
            Ok(deed_of(session, part, asking))
        }
        Err(refusal) => Err(refusal),
    }
}
