//! What the words of a call ask for.
ghost use Rattle.std.specs.Prelude.{◌≡◌, ◌||◌, not, codes, map, is_some, option_map, option_and_then, IfOk};
ghost use Rattle.clap.specs.Words.{first_of, rows_of, found_of};
ghost use Rattle.hippo_program_args.specs.Arguments.{FindsMatches, format_in};
ghost use Rattle.hippo_history_top.specs.declared.asking.Layout.TheVariants.{Html};
ghost use Rattle.hippo_history_top.specs.declared.asking.View.TheVariants.{Digest};
ghost use Rattle.hippo_history_top.specs.CommandLine.{showing_command_line, is_on, has_end, entry_fits, has_form, is_page, page_fits, users_fit, bound_fits, has_selection, digest_fits, has_other_view, patient_fits, options_fit, scope_of, is_text_format, format_fits, shown_form, acts_in, excerpt_view, page_end, page_to, roster_to, number_given, inquiry_view, listing_in, view_in, call_with, call_in_format, is_html, page_call, showing_call, asked_of, has_view, carry_fits};

use crate::arguments::{ARGUMENTS, is_on};
use crate::asking::{Acts, Call, Excerpt, Form, Inquiry, Layout, Page, Roster, Scope, View};
use crate::bounds::{first_in, last_in, number_given, page_end};
use crate::patients::patient_number;
use clap::ArgMatches;
use hippo_program_args::{format_of, matches_in, text_of, texts_of};
use hippo_report::Format;
use hippo_values::{Memory, Name, Txt};
use std::alloc::Global;

// What the command finds in the words. `None` exactly when the command does not take them.
fn found_in<'w>(alloc: Global, words: &'w [&'w str]) -> Result<Option<ArgMatches<'w>>, Memory>
    ensures { IfOk result (FindsMatches showing_command_line (map (λ word. word.now) words.now)) }
{
    matches_in(alloc, "hippo_history", &ARGUMENTS, words)
}

fn is_there(matches: &ArgMatches<'_>, name: &str) -> bool
    ensures { result ≡ is_some (first_of name.now (rows_of (found_of matches.now))) }
{
    text_of(matches, name).is_some()
}

fn has_end(matches: &ArgMatches<'_>) -> bool
    ensures { result ≡ has_end (rows_of (found_of matches.now)) }
{
    is_there(matches, "from") || is_there(matches, "to")
}

fn entry_fits(matches: &ArgMatches<'_>) -> bool
    ensures { result ≡ entry_fits (rows_of (found_of matches.now)) }
{
    !(is_there(matches, "entry") && has_end(matches))
}

fn has_form(matches: &ArgMatches<'_>) -> bool
    ensures { result ≡ has_form (rows_of (found_of matches.now)) }
{
    is_on(matches, "tables") || is_on(matches, "script")
}

fn is_of_entries(matches: &ArgMatches<'_>) -> bool
    ensures { result ≡ (has_end (rows_of (found_of matches.now))
        || has_form (rows_of (found_of matches.now))) }
{
    has_end(matches) || has_form(matches)
}

fn is_page(matches: &ArgMatches<'_>) -> bool
    ensures { result ≡ is_page (rows_of (found_of matches.now)) }
{
    is_on(matches, "rules") || is_on(matches, "users")
}

fn page_fits(matches: &ArgMatches<'_>) -> bool
    ensures { result ≡ page_fits (rows_of (found_of matches.now)) }
{
    !(is_page(matches) && is_of_entries(matches))
}

fn is_of_rules(matches: &ArgMatches<'_>) -> bool
    ensures { result ≡ (is_on (codes "rules") (rows_of (found_of matches.now))
        || is_some (first_of (codes "table") (rows_of (found_of matches.now)))) }
{
    is_on(matches, "rules") || is_there(matches, "table")
}

fn users_fit(matches: &ArgMatches<'_>) -> bool
    ensures { result ≡ users_fit (rows_of (found_of matches.now)) }
{
    !(is_on(matches, "users") && is_of_rules(matches))
}

fn has_no_bound(matches: &ArgMatches<'_>) -> bool
    ensures { result ≡ (not (is_page (rows_of (found_of matches.now)))
        || is_some (first_of (codes "entry") (rows_of (found_of matches.now)))) }
{
    !is_page(matches) || is_there(matches, "entry")
}

fn bound_fits(matches: &ArgMatches<'_>) -> bool
    ensures { result ≡ bound_fits (rows_of (found_of matches.now)) }
{
    !(is_there(matches, "at") && has_no_bound(matches))
}

fn has_selection(matches: &ArgMatches<'_>) -> bool
    ensures { result ≡ has_selection (rows_of (found_of matches.now)) }
{
    is_there(matches, "entry")
        || is_there(matches, "from")
        || is_there(matches, "table")
        || is_there(matches, "format")
}

fn is_of_no_digest(matches: &ArgMatches<'_>) -> bool
    ensures { result ≡ (has_selection (rows_of (found_of matches.now))
        || has_form (rows_of (found_of matches.now))
        || is_page (rows_of (found_of matches.now))) }
{
    has_selection(matches) || has_form(matches) || is_page(matches)
}

fn digest_fits(matches: &ArgMatches<'_>) -> bool
    ensures { result ≡ digest_fits (rows_of (found_of matches.now)) }
{
    !(is_on(matches, "digest") && is_of_no_digest(matches))
}

fn has_view(matches: &ArgMatches<'_>) -> bool
    ensures { result ≡ has_view (rows_of (found_of matches.now)) }
{
    has_form(matches) || is_page(matches) || is_on(matches, "digest")
}

fn has_other_view(matches: &ArgMatches<'_>) -> bool
    ensures { result ≡ has_other_view (rows_of (found_of matches.now)) }
{
    is_there(matches, "entry") || is_there(matches, "table") || has_view(matches)
}

fn patient_fits(matches: &ArgMatches<'_>) -> bool
    ensures { result ≡ patient_fits (rows_of (found_of matches.now)) }
{
    !(is_there(matches, "patient") && has_other_view(matches))
}

fn is_of_no_carry(matches: &ArgMatches<'_>) -> bool
    ensures { result ≡ (has_selection (rows_of (found_of matches.now))
        || is_some (first_of (codes "to") (rows_of (found_of matches.now)))
        || has_view (rows_of (found_of matches.now))
        || is_some (first_of (codes "patient") (rows_of (found_of matches.now)))) }
{
    has_selection(matches)
        || is_there(matches, "to")
        || has_view(matches)
        || is_there(matches, "patient")
}

fn carry_fits(matches: &ArgMatches<'_>) -> bool
    ensures { result ≡ carry_fits (rows_of (found_of matches.now)) }
{
    !(is_on(matches, "carry") && is_of_no_carry(matches))
}

fn fits(matches: &ArgMatches<'_>) -> bool
    ensures { result ≡ options_fit (rows_of (found_of matches.now)) }
{
    entry_fits(matches)
        && page_fits(matches)
        && users_fit(matches)
        && bound_fits(matches)
        && digest_fits(matches)
        && patient_fits(matches)
        && carry_fits(matches)
}

fn scope_of(alloc: Global, matches: &ArgMatches<'_>) -> Result<Option<Scope>, Memory>
    ensures { IfOk result (λ scope. scope
        ≡ scope_of (first_of (codes "table") (rows_of (found_of matches.now)))) }
{
    match text_of(matches, "table") {
        None => Ok(Some(Scope::Whole)),
        Some(word) => Ok(Name::from_word(alloc, word)?.map(Scope::Table)),
    }
}

fn is_text(format: Format) -> bool
    ensures { result ≡ is_text_format format }
{
    match format {
        Format::Text => true,
        Format::Json | Format::Csv => false,
    }
}

fn format_fits(matches: &ArgMatches<'_>, format: Format) -> bool
    ensures { result ≡ format_fits (rows_of (found_of matches.now)) format }
{
    is_text(format) || !is_on(matches, "script")
}

fn form_of(matches: &ArgMatches<'_>, format: Format) -> Form
    ensures { result ≡ shown_form (rows_of (found_of matches.now)) format }
{
    if is_on(matches, "script") {
        Form::Script
    } else {
        Form::Listing(format)
    }
}

fn acts_of(matches: &ArgMatches<'_>) -> Acts
    ensures { result ≡ acts_in (rows_of (found_of matches.now)) }
{
    if is_on(matches, "tables") {
        Acts::Tables
    } else {
        Acts::All
    }
}

fn excerpt_of(matches: &ArgMatches<'_>, format: Format, scope: Scope) -> Option<View>
    ensures { result ≡ excerpt_view (rows_of (found_of matches.now)) format scope }
{
    let first = first_in(matches)?;
    let last = last_in(matches)?;
    Some(View::Entries(Excerpt {
        first,
        last,
        acts: acts_of(matches),
        scope,
        form: form_of(matches, format),
    }))
}

fn page_of(matches: &ArgMatches<'_>, format: Format, scope: Scope) -> Option<View>
    ensures { result ≡ option_map (page_to format scope)
        (page_end (rows_of (found_of matches.now))) }
{
    let last = page_end(matches)?;
    Some(View::Rules(Page {
        last,
        scope,
        format,
    }))
}

fn roster_of(matches: &ArgMatches<'_>, format: Format) -> Option<View>
    ensures { result ≡ option_map (roster_to format) (page_end (rows_of (found_of matches.now))) }
{
    let last = page_end(matches)?;
    Some(View::Users(Roster { last, format }))
}

fn digest_of(matches: &ArgMatches<'_>) -> Option<View>
    ensures { result ≡ option_map Digest (number_given (codes "to") (rows_of (found_of matches.now))) }
{
    Some(View::Digest(number_given(matches, "to")?))
}

fn inquiry_of(matches: &ArgMatches<'_>, layout: Layout, word: &str) -> Option<View>
    ensures { result ≡ inquiry_view (rows_of (found_of matches.now)) layout word.now }
{
    let first = first_in(matches)?;
    let last = last_in(matches)?;
    let patient = patient_number(word)?;
    Some(View::Patient(Inquiry {
        patient,
        first,
        last,
        layout,
    }))
}

fn listing_of(matches: &ArgMatches<'_>, format: Format, scope: Scope) -> Option<View>
    ensures { result ≡ listing_in (rows_of (found_of matches.now)) format scope }
{
    if is_on(matches, "rules") {
        page_of(matches, format, scope)
    } else if is_on(matches, "users") {
        roster_of(matches, format)
    } else if is_on(matches, "digest") {
        digest_of(matches)
    } else if is_on(matches, "carry") {
        Some(View::Carry)
    } else {
        excerpt_of(matches, format, scope)
    }
}

fn view_of(matches: &ArgMatches<'_>, format: Format, scope: Scope) -> Option<View>
    ensures { result ≡ view_in (rows_of (found_of matches.now)) format scope }
{
    match text_of(matches, "patient") {
        None => listing_of(matches, format, scope),
        Some(word) => inquiry_of(matches, Layout::Lines(format), word),
    }
}

fn call_with(alloc: Global, matches: &ArgMatches<'_>, view: View) -> Result<Call, Memory>
    ensures { IfOk result (λ call. call ≡ call_with (rows_of (found_of matches.now)) view) }
{
    let store = Txt::from_str(alloc, text_of(matches, "store").unwrap_or(""))?;
    Ok(Call { store, view })
}

// The view that is asked for, of a table or of all.
fn view_in(alloc: Global, matches: &ArgMatches<'_>, format: Format) -> Result<Option<View>, Memory>
    ensures { IfOk result (λ view. view ≡ option_and_then
        (view_in (rows_of (found_of matches.now)) format)
        (scope_of (first_of (codes "table") (rows_of (found_of matches.now))))) }
{
    match scope_of(alloc, matches)? {
        None => Ok(None),
        Some(scope) => Ok(view_of(matches, format, scope)),
    }
}

fn asked_by(alloc: Global, matches: &ArgMatches<'_>, format: Format) -> Result<Option<Call>, Memory>
    ensures { IfOk result (λ call. call ≡ call_in_format (rows_of (found_of matches.now)) format) }
{
    if !format_fits(matches, format) {
        return Ok(None);
    }
    match view_in(alloc, matches, format)? {
        None => Ok(None),
        Some(view) => Ok(Some(call_with(alloc, matches, view)?)),
    }
}

fn is_html(matches: &ArgMatches<'_>) -> bool
    ensures { result ≡ is_html (rows_of (found_of matches.now)) }
{
    match text_of(matches, "format") {
        None => false,
        Some(text) => text == "html",
    }
}

fn page_of_patient(matches: &ArgMatches<'_>) -> Option<View>
    ensures { result ≡ option_and_then (inquiry_view (rows_of (found_of matches.now)) Html)
        (first_of (codes "patient") (rows_of (found_of matches.now))) }
{
    inquiry_of(matches, Layout::Html, text_of(matches, "patient")?)
}

fn page_asked(alloc: Global, matches: &ArgMatches<'_>) -> Result<Option<Call>, Memory>
    ensures { IfOk result (λ call. call ≡ page_call (rows_of (found_of matches.now))) }
{
    match page_of_patient(matches) {
        None => Ok(None),
        Some(view) => Ok(Some(call_with(alloc, matches, view)?)),
    }
}

fn lines_asked(alloc: Global, matches: &ArgMatches<'_>) -> Result<Option<Call>, Memory>
    ensures { IfOk result (λ call. call ≡ option_and_then
        (call_in_format (rows_of (found_of matches.now)))
        (format_in (rows_of (found_of matches.now)))) }
{
    match format_of(matches) {
        None => Ok(None),
        Some(format) => asked_by(alloc, matches, format),
    }
}

fn asked_with(alloc: Global, matches: &ArgMatches<'_>) -> Result<Option<Call>, Memory>
    ensures { IfOk result (λ call. call ≡ showing_call (rows_of (found_of matches.now))) }
{
    if !fits(matches) {
        return Ok(None);
    }
    if is_html(matches) {
        page_asked(alloc, matches)
    } else {
        lines_asked(alloc, matches)
    }
}

#[tactic(auto, unfolding(crate::specs::CommandLine::asked_of))]
fn asked_in(alloc: Global, words: &[&str]) -> Result<Option<Call>, Memory>
    ensures { IfOk result (λ call. call ≡ asked_of (map (λ word. word.now) words.now)) }
{
    match found_in(alloc, words)? {
        None => Ok(None),
        Some(matches) => asked_with(alloc, &matches),
    }
}

/// Returns what the words of a call ask for. The words are options in any order, `--NAME VALUE` or
/// `--NAME=VALUE`, and the store must be among them. The only error is running out of memory.
///
/// Returns `None` if the command does not take the words:
///
/// - a word is unknown, or an option occurs twice;
/// - a number is out of its bounds; the word after `--from`, `--to` or `--at` is neither a number nor
///   a moment; a table's name is not a name; or a format is not one of the three,
///   nor `html` with `--patient`;
/// - `--entry` is given with `--from` or `--to`;
/// - `--rules` or `--users` is given with `--from`, `--to`, `--tables` or `--script`;
/// - `--users` is given with `--rules` or `--table`;
/// - `--at` is given without `--rules` and `--users`, or with `--entry`;
/// - `--script` is given with another format than text;
/// - `--digest` is given with anything but `--store` and `--to`, which is then a number;
/// - `--patient` is given with anything but `--store`, `--from`, `--to` and `--format`, or the word
///   after it is not a number of 64 bits.
/// - `--carry` is given with anything but `--store`.
///
/// ```text
/// --store clinic.db --entry 18
/// --store clinic.db --from 10 --to 20 --table patient
/// --store clinic.db --from 2024-03-04T00:00:00Z --to 2024-03-05T23:59:59Z
/// --store clinic.db --script
/// --store clinic.db --tables
/// --store clinic.db --rules
/// --store clinic.db --rules --entry 18 --table patient
/// --store clinic.db --rules --at 2024-03-05T23:59:59Z
/// --store clinic.db --users
/// --store clinic.db --rules --format csv
/// --store clinic.db --digest
/// --store clinic.db --digest --to 17
/// --store clinic.db --patient 2
/// --store clinic.db --patient=-5 --from 2024-03-04T00:00:00Z --format csv
/// --store clinic.db --patient 2 --format html
/// --store clinic.db --carry
/// ```
pub fn asked_of(alloc: Global, words: &[Txt]) -> Result<Option<Call>, Memory>
    ensures { IfOk result (λ call. call ≡ asked_of words.now) }
{
    let texts = texts_of(alloc, words)?;
    asked_in(alloc, &texts)
}
