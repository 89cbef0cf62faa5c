//! Questions: storing each one before it is answered, and writing its reply.
ghost use Rattle.std.specs.Prelude.{◌≡◌, ◌≢◌, ◌⊎◌, ℕ, ◌+◌, ◌<◌, ◌≤◌, ◌^◌, List, [], ◌∷◌, ◌++◌};
ghost use Rattle.std.specs.Prelude.{true, Some, Ok as Good, Err as Bad, IfOk, OnOk};
ghost use Rattle.hippo_model.specs.declared.entry.Act.TheVariants.{Asked};
ghost use Rattle.hippo_model.specs.Terms.{History, ShownRow};
ghost use Rattle.hippo_model.specs.Validity.{may_follow};
ghost use Rattle.hippo_csv.specs.Records.{extract_line};
ghost use Rattle.hippo_report.specs.declared.refusal.Refusal.TheVariants.{TooManyRows as TooMany};
ghost use Rattle.hippo_report.specs.Cells.{answer_line};
ghost use Rattle.hippo_report.specs.declared.speaker.Speaker.TheVariants as speaker;
ghost use Rattle.hippo_report.specs.Refusals.{refusal_line};
ghost use Rattle.hippo_typing.specs.Meanings.{meaning};
ghost use Rattle.hippo_replay.specs.Standing.{Represents, MayFollow, IsNext, takes_no_memory};
ghost use Rattle.hippo_replay.specs.Recording.{IsBacked};
ghost use Rattle.hippo_engine_sessions.specs.declared.sessions.Session.{Session as KeptSession};
ghost use Rattle.hippo_engine_sessions.specs.Worlds.{session_at};
ghost use Rattle.hippo_engine_world.specs.Holding.{world_of, KeepsAudits};
ghost use Rattle.hippo_engine_rules.specs.declared.faults.EngineFault.TheVariants.{Write as WriteFailed};
ghost use Rattle.hippo_engine_rules.specs.Effects.{lines_and_count};
ghost use Rattle.hippo_engine_checks.specs.Asking.{question_of, question_entry, IsAnswerable};
ghost use Rattle.hippo_eval_answer.specs.Lines.{AreLinesOf};
ghost use Rattle.hippo_engine_checks.specs.declared.asking.Delivery.{Delivery};
ghost use Rattle.hippo_engine_queries.specs.Questions.{IsAnsweredBy, Asks, short_line, answer_said, world_left};
ghost use Rattle.hippo_engine_queries.specs.Questions.{IsUnkept, IsHandedOut, IsShortReply, HandsOutAnswer, Replies};

use crate::answered::{Answered, answer_of};
use hippo_csv::extract_lines;
use hippo_engine_checks::Asking;
use hippo_engine_rules::{EngineFault, Reply, refuse_out_of_memory};
use hippo_engine_sessions::Session;
use hippo_engine_world::World;
use hippo_eval::EvalFault;
use hippo_eval_answer::Lines;
use hippo_keeper::{Keeper, KeeperFault};
use hippo_model::{Act, CellRow, Entry};
use hippo_replay::State;
use hippo_report::{Refusal, Speaker, number_line, refusal_line};
use hippo_values::{Duplicate, Memory, Moment, Txt};
use std::alloc::Global;

fn asked_act(alloc: Global, asker: &Session, text: &str) -> Result<Act, Memory>
    ensures { IfOk result (λ act.
        act ≡ Asked asker.now.user asker.now.pair.purpose asker.now.pair.recipient text.now) }
{
    let user = asker.user.copy(alloc)?;
    let purpose = asker.pair.purpose.copy(alloc)?;
    let recipient = asker.pair.recipient.copy(alloc)?;
    let text = Txt::from_str(alloc, text)?;
    Ok(Act::Asked {
        user,
        purpose,
        recipient,
        text,
    })
}

// The entry of a question, as the next entry of the history.
fn entry_of(
    alloc: Global,
    state: &State,
    clock: &Moment,
    asking: &Asking<'_>,
) -> Result<Entry, Memory>
    requires { state.now.count + 1 < 2 ^ 63 }
    ensures { IfOk result (λ entry. entry
        ≡ question_entry state.now clock.now (question_of 0 asking.now)) }
{
    let act = asked_act(alloc, asking.asker, asking.text)?;
    Ok(Entry {
        seq: state.count + 1,
        moment: *clock,
        act,
    })
}

// Adds the next entry to the state, for an act that takes no memory.
fn take_in(alloc: Global, state: &mut State, entry: &Entry)
    requires next { IsNext state.old entry.now }
    requires room { takes_no_memory entry.now.act ≡ true }
    ensures { (history : History) → Represents state.old history
        → may_follow meaning history entry.now ≡ true
        → Represents state.new (history ++ entry.now ∷ []) }
{
    state.add(alloc, entry).unwrap();
}

// A question of a session in a world.
#[derive(Clone, Copy)]
struct SessionQuestion<'a> {
    world: &'a World,
    session: u8,
    asking: &'a Asking<'a>,
}

// Stores a question's entry, answers the question as of before that entry, and adds the entry to
// the state.
fn keep_entry<P: Keeper>(
    alloc: Global,
    keeper: &mut P,
    state: &mut State,
    question: &SessionQuestion<'_>,
    entry: &Entry,
) -> Result<Result<Answered, EvalFault>, KeeperFault>
    requires backed { IsBacked state.old (P.state keeper.old) }
    requires number { entry.now.seq < 2 ^ 63 }
    requires follows { MayFollow state.old entry.now }
    requires room { takes_no_memory entry.now.act ≡ true }
    requires answerable { IsAnswerable state.old question.now.asking.now.query }
    ensures asks { Asks entry.now (world_of question.now.world.now)
        (question_of question.now.session question.now.asking.now)
        question.now.asking.now.delivery result
        state.old state.new (P.state keeper.old) (P.state keeper.new) }
{
    match state.keep(alloc, keeper, entry) {
        Ok(()) => {
            state.order_for(alloc, question.asking.query.get());
            let answer = answer_of(
                alloc,
                state,
                question.world,
                question.session,
                question.asking,
            );
            take_in(alloc, state, entry);
            Ok(answer)
        }
        Err(fault) => Err(fault),
    }
}

/// Stores a session's question as the next entry, and answers it as of before that entry. If
/// storing fails, returns the keeper's fault and leaves the state unchanged. The inner result is
/// the answer, or a fault if memory ran out or there are too many rows.
pub fn keep_and_answer<P: Keeper>(
    alloc: Global,
    keeper: &mut P,
    state: &mut State,
    world: &World,
    session: u8,
    asking: &Asking<'_>,
) -> Result<Result<Answered, EvalFault>, KeeperFault>
    requires backed { IsBacked state.old (P.state keeper.old) }
    requires number { state.old.count + 1 < 2 ^ 63 }
    requires follows { MayFollow state.old
        (question_entry state.old world.now.clock (question_of 0 asking.now)) }
    requires answerable { IsAnswerable state.old asking.now.query }
    ensures asks { let question = question_of session asking.now in
        Asks (question_entry state.old world.now.clock question) (world_of world.now) question
        asking.now.delivery result
        state.old state.new (P.state keeper.old) (P.state keeper.new) }
{
    match entry_of(alloc, state, &world.clock, asking) {
        Ok(entry) => {
            let question = SessionQuestion {
                world,
                session,
                asking,
            };
            let answer = keep_entry(alloc, keeper, state, &question, &entry);
            drop(entry);
            answer
        }
        Err(Memory) => Err(KeeperFault::Memory),
    }
}

// Appends the lines of the rows, then their number.
fn append_lines(session: u8, lines: &Lines, reply: &mut Reply) -> Result<(), Memory>
    ensures { (rows : List ShownRow) → AreLinesOf session rows lines.now
        → OnOk result (reply.new ≡ reply.old
        ++ lines_and_count session (answer_line session) rows) }
{
    reply.append(lines.text.as_str())?;
    number_line(session, "end", lines.count as u64, reply)
}

// Appends rows as records, then their number.
fn append_records(
    alloc: Global,
    session: u8,
    rows: &[CellRow],
    reply: &mut Reply,
) -> Result<(), Memory>
    ensures { OnOk result (reply.new ≡ reply.old
        ++ lines_and_count session (extract_line session) rows.now) }
{
    extract_lines(alloc, session, rows, reply)?;
    number_line(session, "end", rows.len() as u64, reply)
}

// Appends the reply of an answer: its rows, its rows as records, or the number of the cursor that
// will hold it.
fn append_answer(
    alloc: Global,
    session: u8,
    answer: &Answered,
    reply: &mut Reply,
) -> Result<(), Memory>
    ensures { (delivery : Delivery) (rows : List ShownRow)
        → IsAnsweredBy session (Good answer.now) delivery rows
        → OnOk result (reply.new ≡ reply.old ++ answer_said session delivery rows) }
{
    match answer {
        Answered::Lines(lines) => append_lines(session, lines, reply),
        Answered::Records(rows) => append_records(alloc, session, rows.as_slice(), reply),
        Answered::Held(cursor, _) => number_line(session, "cursor", u64::from(*cursor), reply),
    }
}

// Replaces the reply by that of an answer, followed by the watches' alarms.
fn print_answer(
    alloc: Global,
    session: u8,
    answer: &Answered,
    alarms: &str,
    reply: &mut Reply,
) -> Result<(), Memory>
    ensures { (delivery : Delivery) (rows : List ShownRow)
        → IsAnsweredBy session (Good answer.now) delivery rows
        → OnOk result (reply.new ≡ answer_said session delivery rows ++ alarms.now) }
{
    reply.clear();
    append_answer(alloc, session, answer, reply)?;
    reply.append(alarms)
}

// Replaces the reply by the refusal of an answer with too many rows, followed by the watches'
// alarms.
fn print_too_many(session: u8, alarms: &str, reply: &mut Reply) -> Result<(), Memory>
    ensures { OnOk result
        (reply.new ≡ refusal_line (speaker.Session session) TooMany ++ alarms.now) }
{
    reply.clear();
    refusal_line(Speaker::Session(session), &Refusal::TooManyRows, reply)?;
    reply.append(alarms)
}

// The result when storing a question fails: the keeper's failure, or a reply that memory ran out.
fn say_unkept(session: u8, fault: KeeperFault, reply: &mut Reply) -> Result<(), EngineFault>
    ensures said { IsUnkept fault session result reply.new }
    ensures unwritten { result ≢ Bad WriteFailed }
{
    match fault {
        KeeperFault::Failed => Err(EngineFault::Keeper),
        KeeperFault::Memory => {
            refuse_out_of_memory(Speaker::Session(session), reply);
            Ok(())
        }
    }
}

// Moves an answer to its cursor, if a cursor is to hold it; otherwise frees it. Takes no memory.
fn keep_answer(session: u8, answer: Answered, world: &mut World)
    ensures left { (delivery : Delivery) (rows : List ShownRow)
        → IsAnsweredBy session (Good answer) delivery rows → (asker : KeptSession)
        → session_at (world_of world.old) session ≡ Some asker
        → world_of world.new ≡ world_left (world_of world.old) session asker delivery rows }
    ensures audits { KeepsAudits world.old world.new }
{
    match answer {
        Answered::Lines(lines) => drop(lines),
        Answered::Records(rows) => drop(rows),
        Answered::Held(cursor, rows) => world.open_cursor(session, cursor, rows),
    }
}

// Replies with an answer that does not have too many rows, or that memory ran out.
fn hand_out_rows(
    alloc: Global,
    session: u8,
    answer: Answered,
    alarms: &str,
    world: &mut World,
    reply: &mut Reply,
)
    ensures said { (delivery : Delivery) (rows : List ShownRow)
        → IsAnsweredBy session (Good answer) delivery rows
        → IsHandedOut session delivery rows alarms.now reply.new (world_of world.old)
        (world_of world.new)
        ⊎ IsShortReply session reply.new (world_of world.old) (world_of world.new) }
    ensures audits { KeepsAudits world.old world.new }
{
    match print_answer(alloc, session, &answer, alarms, reply) {
        Ok(()) => keep_answer(session, answer, world),
        Err(Memory) => {
            drop(answer);
            refuse_out_of_memory(Speaker::Session(session), reply);
        }
    }
}

// Replies that an answer has too many rows, or that memory ran out.
fn say_too_many(session: u8, alarms: &str, reply: &mut Reply)
    ensures { (reply.new ≡ refusal_line (speaker.Session session) TooMany ++ alarms.now)
        ⊎ (reply.new ≡ short_line session) }
{
    if print_too_many(session, alarms, reply).is_err() {
        refuse_out_of_memory(Speaker::Session(session), reply);
    }
}

// Replies with an answer's rows, or opens a cursor over them; or replies that they are too many, or
// that memory ran out.
fn hand_out_answer(
    alloc: Global,
    session: u8,
    answer: Result<Answered, EvalFault>,
    alarms: &str,
    world: &mut World,
    reply: &mut Reply,
)
    ensures said { (delivery : Delivery) (rows : List ShownRow)
        → IsAnsweredBy session answer delivery rows
        → IsHandedOut session delivery rows alarms.now reply.new (world_of world.old)
        (world_of world.new)
        ⊎ IsShortReply session reply.new (world_of world.old) (world_of world.new) }
    ensures audits { KeepsAudits world.old world.new }
{
    match answer {
        Ok(answer) => hand_out_rows(alloc, session, answer, alarms, world, reply),
        Err(EvalFault::TooManyRows) => say_too_many(session, alarms, reply),
        Err(EvalFault::Memory) => refuse_out_of_memory(Speaker::Session(session), reply),
    }
}

// Replies with an answer and the watches' alarms.
fn hand_out(
    alloc: Global,
    session: u8,
    answer: Result<Answered, EvalFault>,
    alarms: Result<Txt, Memory>,
    world: &mut World,
    reply: &mut Reply,
)
    ensures said { (delivery : Delivery) (rows : List ShownRow)
        → IsAnsweredBy session answer delivery rows
        → HandsOutAnswer session delivery rows alarms reply.new (world_of world.old)
        (world_of world.new) }
    ensures audits { KeepsAudits world.old world.new }
{
    match alarms {
        Ok(alarms) => {
            hand_out_answer(alloc, session, answer, alarms.as_str(), world, reply);
            drop(alarms);
        }
        Err(Memory) => {
            drop(answer);
            refuse_out_of_memory(Speaker::Session(session), reply);
        }
    }
}

/// Writes the reply to a question, given the watches' alarms and the result of `keep_and_answer`:
/// its rows, its rows as records, or the number of the cursor that holds them; or that they are too
/// many, or that memory ran out. Returns `EngineFault::Keeper` only if the keeper failed.
pub fn reply_to(
    alloc: Global,
    session: u8,
    alarms: Result<Txt, Memory>,
    kept: Result<Result<Answered, EvalFault>, KeeperFault>,
    world: &mut World,
    reply: &mut Reply,
) -> Result<(), EngineFault>
    ensures said { (delivery : Delivery) → Replies session delivery alarms kept result reply.new
        (world_of world.old) (world_of world.new) }
    ensures audits { KeepsAudits world.old world.new }
    ensures unwritten { result ≢ Bad WriteFailed }
{
    match kept {
        Ok(answer) => {
            hand_out(alloc, session, answer, alarms, world, reply);
            Ok(())
        }
        Err(fault) => {
            drop(alarms);
            say_unkept(session, fault, reply)
        }
    }
}
