//! The ends of a stretch of entries, as words write them.
ghost use Rattle.std.specs.Prelude.{◌≡◌, Some, ◌&&◌, nat_le};
ghost use Rattle.std.specs.Option.{option_map_or};
ghost use Rattle.clap.specs.Words.{first_of, rows_of, found_of};
ghost use Rattle.hippo_stmt_lines.specs.Moments.{moment_in};
ghost use Rattle.hippo_history_top.specs.declared.asking.Bound.TheVariants.{Number};
ghost use Rattle.hippo_history_top.specs.CommandLine.{entry_number, bound_of, bound_word, first_in, last_in, page_end, number_given};

use crate::asking::Bound;
use clap::ArgMatches;
use hippo_program_args::text_of;
use hippo_values::Moment;
use hippo_values_text::read_moment;

const LAST: u64 = 4_000_000;

fn is_number(number: u64) -> bool
    ensures { result ≡ (nat_le 1 number && nat_le number 4000000) }
{
    1 <= number && number <= LAST
}

// The number of an entry that a word writes.
fn entry_number(word: &str) -> Option<u64>
    ensures { result ≡ entry_number word.now }
{
    match u64::from_str_radix(word, 10) {
        Ok(number) => is_number(number).then_some(number),
        Err(_) => None,
    }
}

fn moment_in(word: &str) -> Option<Moment>
    ensures { result ≡ moment_in word.now }
{
    read_moment(word)
}

fn bound_of(word: &str) -> Option<Bound>
    ensures { result ≡ bound_of word.now }
{
    match entry_number(word) {
        Some(number) => Some(Bound::Number(number)),
        None => moment_in(word).map(Bound::At),
    }
}

// The word of a bound: one entry alone is both bounds.
fn bound_or(matches: &ArgMatches<'_>, name: &str, otherwise: Bound) -> Option<Bound>
    ensures { result
        ≡ option_map_or bound_of (bound_word name.now (rows_of (found_of matches.now)))
        (Some otherwise) }
{
    match text_of(matches, "entry").or(text_of(matches, name)) {
        None => Some(otherwise),
        Some(word) => bound_of(word),
    }
}

/// Where the entries that are asked for begin; `None` if the word is not a bound.
pub(crate) fn first_in(matches: &ArgMatches<'_>) -> Option<Bound>
    ensures { result ≡ first_in (rows_of (found_of matches.now)) }
{
    bound_or(matches, "from", Bound::Number(1))
}

/// Where the entries that are asked for end; `None` if the word is not a bound.
pub(crate) fn last_in(matches: &ArgMatches<'_>) -> Option<Bound>
    ensures { result ≡ last_in (rows_of (found_of matches.now)) }
{
    bound_or(matches, "to", Bound::Number(LAST))
}

/// Where the entries end after which rules or authorizations are in force; `None` if the word is
/// not a bound.
pub(crate) fn page_end(matches: &ArgMatches<'_>) -> Option<Bound>
    ensures { result ≡ page_end (rows_of (found_of matches.now)) }
{
    bound_or(matches, "at", Bound::Number(LAST))
}

/// The number that an option gives, or the highest one; `None` if the word is no entry's number.
pub(crate) fn number_given(matches: &ArgMatches<'_>, name: &str) -> Option<u64>
    ensures { result ≡ number_given name.now (rows_of (found_of matches.now)) }
{
    match text_of(matches, name) {
        None => Some(LAST),
        Some(word) => entry_number(word),
    }
}
