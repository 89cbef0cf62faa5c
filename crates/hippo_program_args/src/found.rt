//! What a command finds in the words of a call.
ghost use Rattle.std.specs.Prelude.{◌≡◌, ◌≢◌, None, true, map, option_map, IfOk};
ghost use Rattle.std.specs.Str.Parse.{digits_value, without_leading_plus};
ghost use Rattle.clap.specs.Words.{app_of, rows_of, found_of, first_of, kind_of, is_simple_and_free};
ghost use Rattle.clap.specs.declared.error.kind.ErrorKind.TheVariants.{OutOfMemory};
ghost use Rattle.hippo_program_args.specs.Arguments.{rule_by, command_with, FindsMatches, number_or, format_named, format_in};

use crate::arguments::{Argument, command_of};
use clap::error::ErrorKind;
use clap::{ArgMatches, Command, Error};
use hippo_report::Format;
use hippo_values::{Memory, Txt};
use std::alloc::Global;

/// Returns the words as texts.
pub fn texts_of<'w>(alloc: Global, words: &'w [Txt]) -> Result<Vec<&'w str>, Memory>
    ensures { IfOk result (λ texts. map (λ text. text.now) texts.items ≡ words.now) }
{
    let mut texts = Vec::with_capacity(alloc, words.len())?;
    for word in words {
        texts.push(word.as_str())?;
    }
    Ok(texts)
}

// The result when the command answers an error: nothing is found, or memory ran out.
fn none_found<'a>(error: Error) -> Result<Option<ArgMatches<'a>>, Memory>
    ensures { IfOk result (λ found. (found ≡ None) × (kind_of error ≢ OutOfMemory)) }
{
    match error.kind() {
        ErrorKind::OutOfMemory => Err(Memory),
        _ => Ok(None),
    }
}

// What a command finds in the words.
fn found_by<'w>(
    command: Command<'w>,
    words: &'w [&'w str],
) -> Result<Option<ArgMatches<'w>>, Memory>
    requires simple { is_simple_and_free (app_of command) ≡ true }
    ensures { IfOk result (FindsMatches (app_of command.entry) (map (λ word. word.now) words.now)) }
{
    match command.try_get_matches_from(words) {
        Ok(matches) => Ok(Some(matches)),
        Err(error) => none_found(error),
    }
}

/// Returns what a program's command, with this name and these arguments, finds in the words. `None`
/// exactly when the command does not take them. The only error is running out of memory.
pub fn matches_in<'w>(
    alloc: Global,
    name: &'w str,
    arguments: &[Argument<'w>],
    words: &'w [&'w str],
) -> Result<Option<ArgMatches<'w>>, Memory>
    requires simple { is_simple_and_free (command_with name.now (map rule_by arguments.now))
        ≡ true }
    ensures { IfOk result
        (FindsMatches (command_with name.now (map rule_by arguments.now))
        (map (λ word. word.now) words.now)) }
{
    found_by(command_of(alloc, name, arguments)?, words)
}

/// Returns the text that is given for this name.
pub fn text_of<'w>(matches: &ArgMatches<'w>, name: &str) -> Option<&'w str>
    ensures { option_map (λ text. text.now) result
        ≡ first_of name.now (rows_of (found_of matches.now)) }
{
    matches.get_str(name)
}

// The number that a text writes. A text that is not a number has already been refused.
fn number_in(text: &str) -> Result<u64, Memory>
    ensures { IfOk result (λ number. number ≡ digits_value 10 (without_leading_plus text.now)) }
{
    match text.parse::<u64>() {
        Ok(number) => Ok(number),
        Err(_) => Err(Memory),
    }
}

/// Returns the number that is given for this name, or `otherwise` if none is given.
pub fn number_or(matches: &ArgMatches<'_>, name: &str, otherwise: u64) -> Result<u64, Memory>
    ensures { IfOk result (λ number.
        number ≡ number_or otherwise (first_of name.now (rows_of (found_of matches.now)))) }
{
    match text_of(matches, name) {
        None => Ok(otherwise),
        Some(text) => number_in(text),
    }
}

fn format_named(name: &str) -> Option<Format>
    ensures { result ≡ format_named name.now }
{
    match name {
        "text" => Some(Format::Text),
        "json" => Some(Format::Json),
        "csv" => Some(Format::Csv),
        _ => None,
    }
}

/// Returns the format that is given for `format`: `Text` if none is given, `None` if it is not one
/// of the three.
pub fn format_of(matches: &ArgMatches<'_>) -> Option<Format>
    ensures { result ≡ format_in (rows_of (found_of matches.now)) }
{
    format_named(text_of(matches, "format").unwrap_or("text"))
}
