//! The reading of a request: a short word and its arguments.
ghost use Rattle.std.specs.Prelude.{◌≡◌, option_map};
ghost use Rattle.hippo_stmt_lines.specs.Words.{words_of};
ghost use Rattle.hippo_stmt_lines.specs.Forms.{login_of, logout_of, one_number, two_numbers, fetch_of, step_of, load_of, request_by};
ghost use Rattle.hippo_stmt_lines.specs.LentForms.{request};

use crate::forms::RequestForm;
use crate::numbers::{number, small_number};
use crate::short_words::ShortWord;
use crate::words::{first_word, only_word, split_at_space, three_words, trimmed, two_words};
use crate::written_name::WrittenName;
use hippo_values::{CURSOR_LIMIT, FETCH_LIMIT, JOB_LIMIT, STEP_LIMIT, WATCH_LIMIT};

fn login_of(arguments: &str) -> Option<RequestForm<'_>>
    ensures { option_map request result ≡ login_of (words_of arguments.now) }
{
    let (user, purpose, recipient) = three_words(arguments)?;
    Some(RequestForm::Login {
        user: WrittenName::from_word(user)?,
        purpose: WrittenName::from_word(purpose)?,
        recipient: WrittenName::from_word(recipient)?,
    })
}

fn logout_of(arguments: &str) -> Option<RequestForm<'_>>
    ensures { option_map request result ≡ logout_of (words_of arguments.now) }
{
    match first_word(arguments) {
        None => Some(RequestForm::Logout),
        Some(_) => None,
    }
}

// The number that the only word writes, from 1.
fn one_number(arguments: &str, most: u8) -> Option<u8>
    ensures { result ≡ one_number most (words_of arguments.now) }
{
    small_number(only_word(arguments)?, 1, most)
}

// The numbers that the two words write, each from 1.
fn two_numbers(arguments: &str, most: u8, most_after: u32) -> Option<(u8, u32)>
    ensures { result ≡ two_numbers most most_after (words_of arguments.now) }
{
    let (word, remaining) = two_words(arguments)?;
    let first = small_number(word, 1, most)?;
    let second = number(remaining, 1, most_after)?;
    Some((first, second))
}

fn fetch_of(arguments: &str) -> Option<RequestForm<'_>>
    ensures { option_map request result ≡ fetch_of (words_of arguments.now) }
{
    let (cursor, count) = two_numbers(arguments, CURSOR_LIMIT, FETCH_LIMIT)?;
    Some(RequestForm::Fetch { cursor, count })
}

fn step_of(arguments: &str) -> Option<RequestForm<'_>>
    ensures { option_map request result ≡ step_of (words_of arguments.now) }
{
    let (job, count) = two_numbers(arguments, JOB_LIMIT, STEP_LIMIT)?;
    Some(RequestForm::Step { job, count })
}

fn load_of(text: &str) -> Option<RequestForm<'_>>
    ensures { option_map request result ≡ load_of text.now }
{
    let (_, remaining) = split_at_space(trimmed(text))?;
    let (table, record) = split_at_space(trimmed(remaining))?;
    let table = WrittenName::from_word(table)?;
    Some(RequestForm::Load { table, record })
}

/// The request that a text makes, given its short word, or none if the arguments do not have the
/// word's form. The short word is the first word of the text.
pub fn request_by<'a>(
    short: ShortWord,
    text: &'a str,
    arguments: &'a str,
) -> Option<RequestForm<'a>>
    ensures { option_map request result ≡ request_by short text.now (words_of arguments.now) }
{
    match short {
        ShortWord::Login => login_of(arguments),
        ShortWord::Logout => logout_of(arguments),
        ShortWord::Fetch => fetch_of(arguments),
        ShortWord::Close => Some(RequestForm::Close {
            cursor: one_number(arguments, CURSOR_LIMIT)?,
        }),
        ShortWord::Step => step_of(arguments),
        ShortWord::Drop => Some(RequestForm::Drop {
            job: one_number(arguments, JOB_LIMIT)?,
        }),
        ShortWord::Unwatch => Some(RequestForm::Unwatch {
            watch: one_number(arguments, WATCH_LIMIT)?,
        }),
        ShortWord::Load => load_of(text),
    }
}
