//! The lines that show one entry.
ghost use Rattle.std.specs.Prelude.{◌≡◌, ◌++◌, option_copied, OnOk, codes};
ghost use Rattle.hippo_values_text.specs.Dates.{moment_text};
ghost use Rattle.hippo_history_statements.specs.Telling.{act_statement};
ghost use Rattle.hippo_history_top.specs.ByNames.{schema_named, shown_as};
ghost use Rattle.hippo_history_top.specs.Showing.{console_lines, session_lines, act_lines, stands_at, clock_line};

use crate::asking::Form;
use hippo_history_formats::{Question, append_entry, append_moment, question_of};
use hippo_history_statements::{append_act_statement, table_named};
use hippo_model::{Act, Entry, Schema};
use hippo_typing_catalog::Catalog;
use hippo_values::{Memory, Moment, Txt};
use std::alloc::Global;

/// The schema of the table that an act names.
pub(crate) fn schema_named<'a>(catalog: &'a Catalog, act: &Act) -> Option<&'a Schema>
    ensures { option_copied result ≡ schema_named catalog.now.names act.now }
{
    match table_named(act) {
        None => None,
        Some(table) => catalog.table(table),
    }
}

// Whether the clock is set to this moment.
fn stands_at(clock: &Option<Moment>, moment: &Moment) -> bool
    ensures { result ≡ stands_at clock.now moment.now }
{
    match clock {
        None => false,
        Some(set) => set.seconds() == moment.seconds(),
    }
}

// Appends a line that sets the clock.
fn append_at(moment: &Moment, out: &mut Txt) -> Result<(), Memory>
    ensures { OnOk result (out.new ≡ out.old
        ++ (codes "at " ++ (moment_text moment.now ++ codes "\n"))) }
{
    out.append("at ")?;
    append_moment(moment, out)?;
    out.append("\n")
}

/// Appends a line that sets the clock, unless it is already set to this moment.
pub(crate) fn append_clock(
    clock: &Option<Moment>,
    moment: &Moment,
    out: &mut Txt,
) -> Result<(), Memory>
    ensures { OnOk result (out.new ≡ out.old ++ clock_line clock.now moment.now) }
{
    if stands_at(clock, moment) {
        Ok(())
    } else {
        append_at(moment, out)
    }
}

fn append_console(alloc: Global, catalog: &Catalog, act: &Act, out: &mut Txt) -> Result<(), Memory>
    ensures { OnOk result (out.new
        ≡ out.old ++ console_lines (act_statement (schema_named catalog.now.names act.now) act.now)) }
{
    out.append("0 ")?;
    append_act_statement(alloc, schema_named(catalog, act), act, out)?;
    out.append("\n")
}

fn append_login(question: &Question<'_>, out: &mut Txt) -> Result<(), Memory>
    ensures { OnOk result (out.new ≡ out.old ++ (codes "1 login " ++ (question.now.user.now
        ++ (codes " " ++ (question.now.purpose.now
        ++ (codes " " ++ question.now.recipient.now)))))) }
{
    out.append("1 login ")?;
    out.append(question.user.as_str())?;
    out.append(" ")?;
    out.append(question.purpose.as_str())?;
    out.append(" ")?;
    out.append(question.recipient.as_str())
}

// Appends the lines of a session that asks one question.
fn append_session(question: &Question<'_>, out: &mut Txt) -> Result<(), Memory>
    ensures { OnOk result (out.new ≡ out.old
        ++ session_lines question.now.user.now question.now.purpose.now
        question.now.recipient.now question.now.text.now) }
{
    append_login(question, out)?;
    out.append("\n1 ")?;
    out.append(question.text.as_str())?;
    out.append("\n1 logout\n")
}

/// Appends the lines that repeat an act.
#[tactic(auto, using(crate::proofs::QuestionLemmas::statement_as_lines))]
pub(crate) fn append_act(
    alloc: Global,
    catalog: &Catalog,
    act: &Act,
    out: &mut Txt,
) -> Result<(), Memory>
    ensures { OnOk result (out.new
        ≡ out.old ++ act_lines (schema_named catalog.now.names act.now) act.now) }
{
    match question_of(act) {
        None => append_console(alloc, catalog, act, out),
        Some(question) => append_session(&question, out),
    }
}

fn append_script(
    alloc: Global,
    catalog: &Catalog,
    clock: &Option<Moment>,
    entry: &Entry,
    out: &mut Txt,
) -> Result<(), Memory>
    ensures { OnOk result (out.new
        ≡ out.old ++ (clock_line clock.now entry.now.moment
        ++ act_lines (schema_named catalog.now.names entry.now.act) entry.now.act)) }
{
    append_clock(clock, &entry.moment, out)?;
    append_act(alloc, catalog, &entry.act, out)
}

/// Appends an entry as it is shown. `clock` is the moment of the entry that was shown last.
pub(crate) fn append_shown(
    alloc: Global,
    catalog: &Catalog,
    form: Form,
    clock: &Option<Moment>,
    entry: &Entry,
    out: &mut Txt,
) -> Result<(), Memory>
    ensures { OnOk result (out.new ≡ out.old
        ++ shown_as catalog.now.names form clock.now entry.now) }
{
    match form {
        Form::Listing(format) => {
            let schema = schema_named(catalog, &entry.act);
            append_entry(alloc, format, schema, entry, out)
        }
        Form::Script => append_script(alloc, catalog, clock, entry, out),
    }
}
