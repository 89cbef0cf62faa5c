//! The reading of a line as one of the forms.
ghost use Rattle.std.specs.Prelude.{◌≡◌, option_map};
ghost use Rattle.hippo_stmt_lines.specs.Forms.{is_comment, is_silent, at_of, form_with, session_form, line_form};
ghost use Rattle.hippo_stmt_lines.specs.Words.{words_of};
ghost use Rattle.hippo_stmt_lines.specs.LentForms.{form};

use crate::forms::LineForm;
use crate::numbers::small_number;
use crate::requests::request_by;
use crate::short_words::{equals_folded, short_word_of};
use crate::words::{first_word, is_blank, only_word, split_at_space};
use hippo_values::SESSION_LIMIT;

fn is_comment(line: &[u8]) -> bool
    ensures { result ≡ is_comment line.now }
{
    match line {
        [first, ..] => *first == b'#',
        [] => false,
    }
}

fn is_silent(line: &str) -> bool
    ensures { result ≡ is_silent line.now }
{
    is_comment(line.as_bytes()) || is_blank(line)
}

fn at_of(text: &str) -> Option<LineForm<'_>>
    ensures { option_map form result ≡ at_of text.now }
{
    let moment = only_word(text)?;
    Some(LineForm::At { moment })
}

// The form of a line with a session's number followed by this text.
fn form_with(session: u8, text: &str) -> Option<LineForm<'_>>
    ensures { option_map form result ≡ form_with session text.now (words_of text.now) }
{
    let (word, arguments) = first_word(text)?;
    match short_word_of(word) {
        Some(short) => {
            let request = request_by(short, text, arguments)?;
            Some(LineForm::Short { session, request })
        }
        None => Some(LineForm::Statement { session, text }),
    }
}

fn session_form<'a>(number: &str, text: &'a str) -> Option<LineForm<'a>>
    ensures { option_map form result ≡ session_form number.now text.now }
{
    form_with(small_number(number, 0, SESSION_LIMIT)?, text)
}

/// The form of a line of the input, given without its line feed, or none if it has no form. Words
/// are separated by one or more spaces, and short words may be in upper or lower case.
pub fn line_form(line: &str) -> Option<LineForm<'_>>
    ensures { option_map form result ≡ line_form line.now }
{
    if is_silent(line) {
        return Some(LineForm::Silent);
    }
    let (first, remaining) = split_at_space(line)?;
    if equals_folded("at", first) {
        at_of(remaining)
    } else {
        session_form(first, remaining)
    }
}
