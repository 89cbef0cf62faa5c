//! The answer of a query over the state of a history.
ghost use Rattle.std.specs.Prelude.{◌≡◌, List, length, IfOk};
ghost use Rattle.hippo_model.specs.Terms.{History, Meaning, ShownRow};
ghost use Rattle.hippo_model.specs.Forms.{rows_by_form};
ghost use Rattle.hippo_model.specs.Masking.{masked_answer};
ghost use Rattle.hippo_policy.specs.Books.{BookRepresents};
ghost use Rattle.hippo_tables.specs.Standing.{TablesStandFor, AreKeptTables};
ghost use Rattle.hippo_eval.specs.Walks.{rows_of};
ghost use Rattle.hippo_eval.specs.Answering.{IsAnswered};
ghost use Rattle.hippo_join_implied.specs.Implied.{query_with_implied};
ghost use Rattle.hippo_rewrite.specs.Rewriting.{rewritten_query};
ghost use Rattle.hippo_eval_answer.specs.States.{AreStateOf, IsMasked, answer_from, rules_from};
ghost use Rattle.hippo_eval_answer.specs.Lines.{IsSaid};

use crate::inquiry::Inquiry;
use crate::lines::{Lines, lines_of, printed_lines};
use crate::standpoint::Standpoint;
use hippo_distinct::distinct;
use hippo_eval::{ANSWER_LIMIT, EvalFault};
use hippo_groups::grouped;
use hippo_join::{plan, run};
use hippo_join_implied::add_implied;
use hippo_model::{Answer, ChoiceView, Form, Masked, Names, Query, RulesInForce};
use hippo_policy::ChoicesAt;
use hippo_rewrite::rewrite;
use hippo_tables::{schemas_of, sets_of};
use hippo_values::Memory;
use std::alloc::Global;

// The rules in force of a query's tables, at a standpoint.
fn rules_of(
    alloc: Global,
    standpoint: &Standpoint<'_>,
    names: &Names,
) -> Result<RulesInForce, Memory>
    requires { AreKeptTables standpoint.now.tables.now names.now }
    ensures { IfOk result (λ rules. (history : History)
        → BookRepresents standpoint.now.book.now history
        → TablesStandFor standpoint.now.tables.now history
        → rules ≡ rules_from standpoint.now history names.now) }
{
    let schemas = schemas_of(alloc, standpoint.tables, names)?;
    let pair = standpoint.pair;
    standpoint.book.rules_in_force(
        alloc,
        standpoint.count,
        standpoint.moment,
        &pair.purpose,
        &pair.recipient,
        &schemas,
    )
}

// The query with the rules written into it, and with what its condition then implies.
fn rewritten(alloc: Global, query: &Query, rules: &RulesInForce) -> Result<Masked, Memory>
    ensures { IfOk result (λ made. made
        ≡ query_with_implied (rewritten_query rules.now query.now)) }
{
    let mut masked = rewrite(alloc, query, rules)?;
    add_implied(alloc, &mut masked.cond)?;
    Ok(masked)
}

// The query with the rules in force written into it, and with what its condition then implies.
fn masked_query(alloc: Global, standpoint: &Standpoint<'_>, query: &Query) -> Result<Masked, Memory>
    requires { AreKeptTables standpoint.now.tables.now query.now.tables }
    ensures { IfOk result (IsMasked standpoint.now query.now) }
{
    let rules = rules_of(alloc, standpoint, &query.tables)?;
    rewritten(alloc, query, &rules)
}

// The masked query with the rows and the choices that it is answered over, at a standpoint.
fn inquiry_of<'s>(
    alloc: Global,
    standpoint: &'s Standpoint<'_>,
    query: &Query,
    masked: &'s Masked,
) -> Result<Inquiry<'s>, Memory>
    requires { IsMasked standpoint.now query.now masked.now }
    ensures tables { IfOk result (λ inquiry.
        length inquiry.sets ≡ length inquiry.query.now.tables) }
    ensures answers { IfOk result (λ inquiry. (meaning : Meaning) (history : History)
        → AreStateOf meaning standpoint.now history
        → rows_by_form query.now.form (masked_answer
        (⟦<ChoicesAt<'static> as ChoiceView>⟧.choices inquiry.choices) inquiry.query.now
        (rows_of inquiry.sets)) ≡ answer_from standpoint.now history query.now) }
{
    let sets = sets_of(alloc, standpoint.tables, &query.tables)?;
    let choices = standpoint.book.choices_at(standpoint.count);
    Ok(Inquiry {
        query: masked,
        sets,
        choices,
    })
}

// The rows of an answer, by the query's form.
fn formed(alloc: Global, form: &Form, inquiry: &Inquiry<'_>) -> Result<Answer, EvalFault>
    requires { length inquiry.now.sets ≡ length inquiry.now.query.now.tables }
    ensures { IsAnswered ANSWER_LIMIT (rows_by_form form.now (masked_answer
        (⟦<ChoicesAt<'static> as ChoiceView>⟧.choices inquiry.now.choices) inquiry.now.query.now
        (rows_of inquiry.now.sets))) result }
{
    match form {
        Form::Plain => {
            let plan = plan(alloc, inquiry.query, &inquiry.sets, &inquiry.choices)?;
            run(alloc, &plan, inquiry.query, &inquiry.sets, &inquiry.choices)
        }
        Form::Distinct => distinct(alloc, inquiry.query, &inquiry.sets, &inquiry.choices),
        Form::Grouped(shape) => {
            grouped(alloc, inquiry.query, &inquiry.sets, &inquiry.choices, shape)
        }
    }
}

// The lines of an answer's rows.
fn said(alloc: Global, session: u8, answer: Result<Answer, EvalFault>) -> Result<Lines, EvalFault>
    ensures { (rows : List ShownRow) → IsAnswered ANSWER_LIMIT rows answer
        → IsSaid ANSWER_LIMIT session rows result }
{
    let rows = answer?;
    Ok(lines_of(alloc, session, rows.as_slice())?)
}

// The lines of the rows of an answer, by the query's form.
fn lines(alloc: Global, session: u8, form: &Form, inquiry: &Inquiry<'_>) -> Result<Lines, EvalFault>
    requires { length inquiry.now.sets ≡ length inquiry.now.query.now.tables }
    ensures { IsSaid ANSWER_LIMIT session (rows_by_form form.now (masked_answer
        (⟦<ChoicesAt<'static> as ChoiceView>⟧.choices inquiry.now.choices) inquiry.now.query.now
        (rows_of inquiry.now.sets))) result }
{
    match form {
        Form::Plain => printed_lines(alloc, session, inquiry),
        _ => said(alloc, session, formed(alloc, form, inquiry)),
    }
}

// The answer to a query at a standpoint, by its masked query.
fn answer_masked(
    alloc: Global,
    standpoint: &Standpoint<'_>,
    query: &Query,
    masked: &Masked,
) -> Result<Answer, EvalFault>
    requires { IsMasked standpoint.now query.now masked.now }
    ensures { (meaning : Meaning) (history : History) → AreStateOf meaning standpoint.now history
        → IsAnswered ANSWER_LIMIT (answer_from standpoint.now history query.now) result }
{
    let inquiry = inquiry_of(alloc, standpoint, query, masked)?;
    let answer = formed(alloc, &query.form, &inquiry);
    drop(inquiry);
    answer
}

// The lines of the answer to a query at a standpoint, by its masked query.
fn lines_masked(
    alloc: Global,
    standpoint: &Standpoint<'_>,
    query: &Query,
    masked: &Masked,
    session: u8,
) -> Result<Lines, EvalFault>
    requires { IsMasked standpoint.now query.now masked.now }
    ensures { (meaning : Meaning) (history : History) → AreStateOf meaning standpoint.now history
        → IsSaid ANSWER_LIMIT session (answer_from standpoint.now history query.now) result }
{
    let inquiry = inquiry_of(alloc, standpoint, query, masked)?;
    let lines = lines(alloc, session, &query.form, &inquiry);
    drop(inquiry);
    lines
}

// As `lines_masked`, or the fault if the masked query was out of memory. `masked` is borrowed,
// since moving it costs more than looking at it.
fn lines_if_masked(
    alloc: Global,
    standpoint: &Standpoint<'_>,
    query: &Query,
    masked: &Result<Masked, Memory>,
    session: u8,
) -> Result<Lines, EvalFault>
    requires { IfOk masked.now (IsMasked standpoint.now query.now) }
    ensures { (meaning : Meaning) (history : History) → AreStateOf meaning standpoint.now history
        → IsSaid ANSWER_LIMIT session (answer_from standpoint.now history query.now) result }
{
    match masked {
        Ok(made) => lines_masked(alloc, standpoint, query, made, session),
        Err(Memory) => Err(EvalFault::Memory),
    }
}

/// The answer to a query at a standpoint, for its purpose and recipient at its moment: the query's
/// result over the views of its tables, after the entries that the book and the tables represent.
/// The rules in force are written into the query (LeFevre and others, Limiting Disclosure in
/// Hippocratic Databases, VLDB 2004), and the rewritten query is answered over the unmasked rows.
/// All tables of the query must exist. Returns `TooManyRows` exactly when the answer has more than
/// 100,000 rows.
///
/// An example over `patient (pid, name, phone)` with the row `1, 'Ada', '555-1'`, where `pid` and
/// `name` are allowed and no rule names `phone`:
///
/// ```text
/// SELECT name, phone FROM patient                   'Ada', DENIED(0)
/// SELECT name FROM patient WHERE phone = '555-1'    no row: a denied cell is null
/// SELECT name FROM patient WHERE phone IS NULL      'Ada'
/// ```
pub fn answer(
    alloc: Global,
    standpoint: &Standpoint<'_>,
    query: &Query,
) -> Result<Answer, EvalFault>
    requires { AreKeptTables standpoint.now.tables.now query.now.tables }
    ensures { (meaning : Meaning) (history : History) → AreStateOf meaning standpoint.now history
        → IsAnswered ANSWER_LIMIT (answer_from standpoint.now history query.now) result }
{
    let masked = masked_query(alloc, standpoint, query)?;
    let answer = answer_masked(alloc, standpoint, query, &masked);
    drop(masked);
    answer
}

/// The answer to a query as the lines of its rows for a session, each printed as by `answer_line`.
/// Without DISTINCT and groups, each line is printed directly from the tables' rows, and no cell is
/// copied. Requirements and errors are those of `answer`.
pub fn answer_as_lines(
    alloc: Global,
    standpoint: &Standpoint<'_>,
    query: &Query,
    session: u8,
) -> Result<Lines, EvalFault>
    requires { AreKeptTables standpoint.now.tables.now query.now.tables }
    ensures { (meaning : Meaning) (history : History) → AreStateOf meaning standpoint.now history
        → IsSaid ANSWER_LIMIT session (answer_from standpoint.now history query.now) result }
{
    let masked = masked_query(alloc, standpoint, query);
    let lines = lines_if_masked(alloc, standpoint, query, &masked, session);
    drop(masked);
    lines
}
