//! An entry as a line in each format.
ghost use Rattle.std.specs.Prelude.{◌≡◌, ◌++◌, option_copied, IfOk, OnOk, codes};
ghost use Rattle.hippo_values_text.specs.Dates.{moment_text};
ghost use Rattle.hippo_history_statements.specs.Telling.{act_statement};
ghost use Rattle.hippo_history_formats.specs.Formats.{json_line, csv_line, entry_by};
ghost use Rattle.hippo_history_formats.specs.Shown.{shown_data, shown_fields, Shows};

use crate::objects::entry_json;
use crate::questions::{Question, question_of};
use crate::records::{append_record, entry_record};
use hippo_history_statements::{append_act_statement, entry_line};
use hippo_model::{Act, Entry, Schema};
use hippo_report::Format;
use hippo_values::{Memory, Moment, Txt};
use hippo_values_text::moment_text;
use std::alloc::Global;

/// What is shown of an act: a question, or the statement that made another act.
#[derive(Drop)]
pub(crate) enum Told<'a> {
    Asked(Question<'a>),
    Made(Txt),
}

/// What is shown of an entry.
#[derive(Drop)]
pub(crate) struct Shown<'a> {
    pub entry: u64,
    pub moment: Txt,
    pub told: Told<'a>,
}

/// Appends a moment.
pub fn append_moment(moment: &Moment, out: &mut Txt) -> Result<(), Memory>
    ensures { OnOk result (out.new ≡ out.old ++ moment_text moment.now) }
{
    match str::from_utf8(&moment_text(*moment)) {
        Ok(text) => out.append(text),
        Err(_) => unreachable!(),
    }
}

/// A moment as every line shows it.
pub(crate) fn moment_of(alloc: Global, moment: &Moment) -> Result<Txt, Memory>
    ensures { IfOk result (λ text. text ≡ moment_text moment.now) }
{
    let mut text = Txt::new(alloc);
    append_moment(moment, &mut text)?;
    Ok(text)
}

// The statement that made an act.
fn told_text(alloc: Global, schema: Option<&Schema>, act: &Act) -> Result<Txt, Memory>
    ensures { IfOk result (λ text. text ≡ act_statement (option_copied schema.entry) act.now) }
{
    let mut text = Txt::new(alloc);
    append_act_statement(alloc, schema, act, &mut text)?;
    Ok(text)
}

/// Appends a text as a line.
pub(crate) fn append_text_line(text: &str, out: &mut Txt) -> Result<(), Memory>
    ensures { OnOk result (out.new ≡ out.old ++ (text.now ++ codes "\n")) }
{
    out.append(text)?;
    out.append("\n")
}

// What is shown of an entry at this moment.
#[tactic(auto, using(crate::proofs::QuestionLemmas::statement_shown, crate::proofs::QuestionLemmas::question_shown))]
fn shown_at<'a>(
    alloc: Global,
    schema: Option<&Schema>,
    entry: &'a Entry,
    moment: Txt,
) -> Result<Shown<'a>, Memory>
    ensures { IfOk result (λ shown. Shows (option_copied schema.entry) entry.now.seq moment
        entry.now.act shown) }
{
    match question_of(&entry.act) {
        None => {
            let told = Told::Made(told_text(alloc, schema, &entry.act)?);
            Ok(Shown {
                entry: entry.seq,
                moment,
                told,
            })
        }
        Some(question) => Ok(Shown {
            entry: entry.seq,
            moment,
            told: Told::Asked(question),
        }),
    }
}

fn shown_of<'a>(
    alloc: Global,
    schema: Option<&Schema>,
    entry: &'a Entry,
) -> Result<Shown<'a>, Memory>
    ensures { IfOk result (λ shown. Shows (option_copied schema.entry) entry.now.seq
        (moment_text entry.now.moment) entry.now.act shown) }
{
    let moment = moment_of(alloc, &entry.moment)?;
    shown_at(alloc, schema, entry, moment)
}

fn append_json(alloc: Global, shown: &Shown<'_>, out: &mut Txt) -> Result<(), Memory>
    ensures { OnOk result (out.new ≡ out.old ++ json_line (shown_data shown.now)) }
{
    let text = entry_json(alloc, shown)?;
    append_text_line(text.as_str(), out)
}

fn append_csv(alloc: Global, shown: &Shown<'_>, out: &mut Txt) -> Result<(), Memory>
    ensures { OnOk result (out.new ≡ out.old ++ csv_line (shown_fields shown.now)) }
{
    let fields = entry_record(alloc, shown)?;
    append_record(alloc, &fields, out)
}

/// Appends an entry as a line in a format.
pub fn append_entry(
    alloc: Global,
    format: Format,
    schema: Option<&Schema>,
    entry: &Entry,
    out: &mut Txt,
) -> Result<(), Memory>
    ensures { OnOk result (out.new ≡ out.old
        ++ entry_by format (option_copied schema.entry) entry.now) }
{
    match format {
        Format::Text => entry_line(alloc, schema, entry, out),
        Format::Json => {
            let shown = shown_of(alloc, schema, entry)?;
            append_json(alloc, &shown, out)
        }
        Format::Csv => {
            let shown = shown_of(alloc, schema, entry)?;
            append_csv(alloc, &shown, out)
        }
    }
}
