//! What the words of a call ask for.
ghost use Rattle.std.specs.Prelude.{◌≡◌, codes, map, option_and_then, IfOk};
ghost use Rattle.clap.specs.Words.{first_of, rows_of, found_of};
ghost use Rattle.hippo_values.specs.Names.{name_of};
ghost use Rattle.hippo_stmt_lines.specs.Moments.{moment_in};
ghost use Rattle.hippo_serve_args.specs.declared.calls.Job.TheVariants.{Run, Drill};
ghost use Rattle.hippo_program_args.specs.Arguments.{FindsMatches, number_or};
ghost use Rattle.hippo_serve_args.specs.CommandLine.{command_line, setting_with, load_with, job_named, job_in, call_in, call_of};

use crate::arguments::{ARGUMENTS, short_or};
use crate::calls::{Call, Job, Setting};
use clap::ArgMatches;
use hippo_program_args::{format_of, matches_in, text_of, texts_of};
use hippo_report::Format;
use hippo_values::{Memory, Moment, Name, Txt};
use hippo_values_text::read_moment;
use std::alloc::Global;

// What the command finds in the words. `None` exactly when the command does not take them.
fn found_in<'w>(alloc: Global, words: &'w [&'w str]) -> Result<Option<ArgMatches<'w>>, Memory>
    ensures { IfOk result (FindsMatches command_line (map (λ word. word.now) words.now)) }
{
    matches_in(alloc, "hippo", &ARGUMENTS, words)
}

fn setting_with(matches: &ArgMatches<'_>, format: Format) -> Result<Setting, Memory>
    ensures { IfOk result (λ setting. setting
        ≡ setting_with (rows_of (found_of matches.now)) format) }
{
    Ok(Setting {
        limit: short_or(matches, "history", 4_000_000)?,
        format,
    })
}

fn moment_in(text: &str) -> Option<Moment>
    ensures { result ≡ moment_in text.now }
{
    read_moment(text)
}

fn moment_of(matches: &ArgMatches<'_>) -> Option<Moment>
    ensures { result ≡ option_and_then moment_in
        (first_of (codes "moment") (rows_of (found_of matches.now))) }
{
    moment_in(text_of(matches, "moment")?)
}

fn table_of(alloc: Global, matches: &ArgMatches<'_>) -> Result<Option<Name>, Memory>
    ensures { IfOk result (λ table.
        table ≡ option_and_then name_of (first_of (codes "table")
        (rows_of (found_of matches.now)))) }
{
    match text_of(matches, "table") {
        None => Ok(None),
        Some(text) => Name::from_word(alloc, text),
    }
}

fn load_of(alloc: Global, matches: &ArgMatches<'_>, format: Format) -> Result<Option<Job>, Memory>
    ensures { IfOk result (λ job. job ≡ load_with (rows_of (found_of matches.now)) format) }
{
    let setting = setting_with(matches, format)?;
    let Some(table) = table_of(alloc, matches)? else {
        return Ok(None);
    };
    let Some(moment) = moment_of(matches) else {
        return Ok(None);
    };
    Ok(Some(Job::Load {
        setting,
        table,
        moment,
    }))
}

fn run_of(matches: &ArgMatches<'_>, format: Format) -> Result<Job, Memory>
    ensures { IfOk result (λ job. job ≡ Run
        (setting_with (rows_of (found_of matches.now)) format)) }
{
    Ok(Job::Run(setting_with(matches, format)?))
}

fn drill_of(matches: &ArgMatches<'_>) -> Result<Job, Memory>
    ensures { IfOk result (λ job. job ≡ Drill
        (number_or 2000 (first_of (codes "size") (rows_of (found_of matches.now))))
        (number_or 7 (first_of (codes "number") (rows_of (found_of matches.now))))) }
{
    Ok(Job::Drill {
        size: short_or(matches, "size", 2000)?,
        number: short_or(matches, "number", 7)?,
    })
}

fn job_named(
    alloc: Global,
    matches: &ArgMatches<'_>,
    format: Format,
    name: &str,
) -> Result<Option<Job>, Memory>
    ensures { IfOk result (λ job. job ≡ job_named (rows_of (found_of matches.now)) format
        name.now) }
{
    match name {
        "run" => Ok(Some(run_of(matches, format)?)),
        "load" => load_of(alloc, matches, format),
        "check" => Ok(Some(Job::Check)),
        "drill" => Ok(Some(drill_of(matches)?)),
        _ => Ok(None),
    }
}

fn job_of(alloc: Global, matches: &ArgMatches<'_>) -> Result<Option<Job>, Memory>
    ensures { IfOk result (λ job. job ≡ job_in (rows_of (found_of matches.now))) }
{
    let Some(format) = format_of(matches) else {
        return Ok(None);
    };
    match text_of(matches, "job") {
        None => Ok(None),
        Some(name) => job_named(alloc, matches, format, name),
    }
}

fn call_with(alloc: Global, matches: &ArgMatches<'_>) -> Result<Option<Call>, Memory>
    ensures { IfOk result (λ call. call ≡ call_in (rows_of (found_of matches.now))) }
{
    let store = Txt::from_str(alloc, text_of(matches, "store").unwrap_or(""))?;
    match job_of(alloc, matches)? {
        None => Ok(None),
        Some(job) => Ok(Some(Call { store, job })),
    }
}

#[tactic(auto, unfolding(crate::specs::CommandLine::call_of))]
fn call_in(alloc: Global, words: &[&str]) -> Result<Option<Call>, Memory>
    ensures { IfOk result (λ call. call ≡ call_of (map (λ word. word.now) words.now)) }
{
    match found_in(alloc, words)? {
        None => Ok(None),
        Some(matches) => call_with(alloc, &matches),
    }
}

/// Returns what the words of a call ask for. The job may come before, between or after the options,
/// which are written `--NAME VALUE` or `--NAME=VALUE`. An option that the job does not use has no
/// effect.
///
/// Returns `None` if the words are not those of a job: a word is unknown, an option occurs twice, a
/// number is out of its bounds, a format is not one of the three, or a load lacks its table or its
/// moment. The only error is running out of memory.
///
/// ```text
/// run --store clinic.db --format json
/// load --table patient --moment 2024-01-02T08:00:00Z
/// ```
pub fn call_of(alloc: Global, words: &[Txt]) -> Result<Option<Call>, Memory>
    ensures { IfOk result (λ call. call ≡ call_of words.now) }
{
    let texts = texts_of(alloc, words)?;
    call_in(alloc, &texts)
}
