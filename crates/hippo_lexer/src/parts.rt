//! The first token of a text, by its kind: words, numbers, quoted texts, days and signs.
ghost use Rattle.std.specs.Prelude.{◌≡◌, true, if◌then◌else◌, Ok, ◌+◌, ◌++◌, ◌<◌, ◌≤◌, ◌^◌, length, drop, IfOk, IfSome};
ghost use Rattle.std.specs.Char.{is_ascii_alphabetic};
ghost use Rattle.hippo_values.specs.Names.{is_word_byte, is_word};
ghost use Rattle.hippo_lexer.specs.Spelling.{is_blank, begins_with};
ghost use Rattle.hippo_lexer.specs.Cutting.{GivesOutcome, kind_of_word, word_kind, word_len, digits_len, blanks_len, sign_len, number_len, number_of, word_first, number_first, closing, quoted_first, IsNumeral, day_of, day_first, is_date, date_first, quoted_token, sign_token, token_first};

use crate::faults::LexFault;
use crate::kinds::TokenKind;
use crate::signs::sign_first;
use hippo_values::{CellText, DayNumber, Keyword, Memory, Txt, Word, read_word};
use hippo_values_text::read_day;
use std::alloc::Global;

// 1 for each byte that is a letter, a digit or `_`. A lookup takes half the time of the tests.
const WORD_BYTES: [u8; 256] = [
    0, 0, 0, 0, 0, 0, 0, 0, 0, 0, 0, 0, 0, 0, 0, 0, 0, 0, 0, 0, 0, 0, 0, 0, 0, 0, 0, 0, 0, 0, 0, 0,
    0, 0, 0, 0, 0, 0, 0, 0, 0, 0, 0, 0, 0, 0, 0, 0, 1, 1, 1, 1, 1, 1, 1, 1, 1, 1, 0, 0, 0, 0, 0, 0,
    0, 1, 1, 1, 1, 1, 1, 1, 1, 1, 1, 1, 1, 1, 1, 1, 1, 1, 1, 1, 1, 1, 1, 1, 1, 1, 1, 0, 0, 0, 0, 1,
    0, 1, 1, 1, 1, 1, 1, 1, 1, 1, 1, 1, 1, 1, 1, 1, 1, 1, 1, 1, 1, 1, 1, 1, 1, 1, 1, 0, 0, 0, 0, 0,
    0, 0, 0, 0, 0, 0, 0, 0, 0, 0, 0, 0, 0, 0, 0, 0, 0, 0, 0, 0, 0, 0, 0, 0, 0, 0, 0, 0, 0, 0, 0, 0,
    0, 0, 0, 0, 0, 0, 0, 0, 0, 0, 0, 0, 0, 0, 0, 0, 0, 0, 0, 0, 0, 0, 0, 0, 0, 0, 0, 0, 0, 0, 0, 0,
    0, 0, 0, 0, 0, 0, 0, 0, 0, 0, 0, 0, 0, 0, 0, 0, 0, 0, 0, 0, 0, 0, 0, 0, 0, 0, 0, 0, 0, 0, 0, 0,
    0, 0, 0, 0, 0, 0, 0, 0, 0, 0, 0, 0, 0, 0, 0, 0, 0, 0, 0, 0, 0, 0, 0, 0, 0, 0, 0, 0, 0, 0, 0, 0,
];

fn is_word_byte(byte: u8) -> bool
    ensures { result ≡ is_word_byte byte }
{
    WORD_BYTES[usize::from(byte)] == 1
}

fn is_blank(byte: u8) -> bool
    ensures { result ≡ is_blank byte }
{
    byte == b' ' || byte == b'\t'
}

fn word_len(bytes: &[u8]) -> usize
    ensures { result ≡ word_len bytes.now }
{
    bytes.iter().take_while(|byte| is_word_byte(**byte)).count()
}

fn digits_len(bytes: &[u8]) -> usize
    ensures len { result ≡ digits_len bytes.now }
    ensures within { result ≤ length bytes.now }
{
    bytes
        .iter()
        .take_while(|byte| byte.is_ascii_digit())
        .count()
}

fn blanks_len(bytes: &[u8]) -> usize
    ensures { result ≡ blanks_len bytes.now }
{
    bytes.iter().take_while(|byte| is_blank(**byte)).count()
}

// The text made of its front and its last run.
fn ended(alloc: Global, front: Txt, run: &str) -> Result<CellText, Memory>
    ensures { IfOk result (λ text. text ≡ front ++ run.now) }
{
    if front.len() == 0 {
        return CellText::from_str(alloc, run);
    }
    let mut text = front;
    text.append(run)?;
    CellText::from_str(alloc, text.as_str())
}

// After an opening quote: the text up to the closing quote, and the length including that quote.
fn closing(alloc: Global, remaining: &str) -> Result<Option<(CellText, usize)>, Memory>
    ensures found { IfOk result (λ found. found ≡ closing remaining.now) }
    ensures within { IfOk result (λ found. IfSome found (λ quoted. quoted.1 ≤ length remaining.now)) }
{
    let mut text = Txt::new(alloc);
    let mut rest = remaining;
    while let Some((run, after)) = rest.split_once('\'') {
        match after.strip_prefix('\'') {
            None => return Ok(Some((ended(alloc, text, run)?, remaining.len() - after.len()))),
            Some(next) => {
                text.append(run)?;
                text.append("'")?;
                rest = next;
            }
        }
    }
    Ok(None)
}

// The quoted text at the front, and its length including the quotes.
#[tactic(auto, unfolding(crate::specs::Cutting::quoted_first))]
fn quoted_first(alloc: Global, text: &str) -> Result<Option<(CellText, usize)>, Memory>
    ensures found { IfOk result (λ found. found ≡ quoted_first text.now) }
    ensures within { IfOk result (λ found. IfSome found (λ quoted. quoted.1 ≤ length text.now)) }
{
    match text.strip_prefix('\'') {
        None => Ok(None),
        Some(remaining) => match closing(alloc, remaining)? {
            None => Ok(None),
            Some((quoted, len)) => Ok(Some((quoted, 1 + len))),
        },
    }
}

fn begins_with_word_byte(bytes: &[u8]) -> bool
    ensures { result ≡ begins_with is_word_byte bytes.now }
{
    match bytes {
        [] => false,
        [first, ..] => is_word_byte(*first),
    }
}

fn begins_with_letter(bytes: &[u8]) -> bool
    ensures { result ≡ begins_with is_ascii_alphabetic bytes.now }
{
    match bytes {
        [] => false,
        [first, ..] => first.is_ascii_alphabetic(),
    }
}

fn sign_len(bytes: &[u8]) -> usize
    ensures { result ≡ sign_len bytes.now }
{
    match bytes {
        [b'-', ..] => 1,
        _ => 0,
    }
}

// The number written by digits, with or without a `-`; none if it does not fit.
fn number_of(text: &str) -> Option<i64>
    requires { IsNumeral text.now }
    ensures { result ≡ number_of text.now }
{
    text.parse::<i64>().ok()
}

// The length of the number at the front, including its `-`.
fn number_len(bytes: &[u8]) -> usize
    ensures { result ≡ number_len bytes.now }
{
    let sign = sign_len(bytes);
    sign + digits_len(&bytes[sign..])
}

// The number at the front, and its length.
#[tactic(auto, unfolding(crate::specs::Cutting::number_first))]
fn number_first(place: usize, text: &str) -> Result<(TokenKind, usize), LexFault>
    requires { place + length text.now < 2 ^ 64 }
    ensures { GivesOutcome result (number_first place text.now) }
{
    let bytes = text.as_bytes();
    let len = number_len(bytes);
    if len == sign_len(bytes) {
        return Err(LexFault::BadToken(place));
    }
    let (digits, remaining) = text.split_at(len);
    let number = number_of(digits).ok_or(LexFault::NumberTooLarge(place))?;
    if begins_with_word_byte(remaining.as_bytes()) {
        return Err(LexFault::BadToken(place + len));
    }
    Ok((TokenKind::Number(number), len))
}

// The day written in a text.
fn day_of(text: &CellText) -> Option<DayNumber>
    ensures { result ≡ day_of text.now }
{
    read_day(text.as_str())
}

// The day in a quoted text after the word DATE. `len` counts the bytes before the quoted text, from
// that word on.
#[tactic(auto, unfolding(crate::specs::Cutting::day_first))]
fn day_first(
    place: usize,
    len: usize,
    quoted: CellText,
    quoted_len: usize,
) -> Result<(TokenKind, usize), LexFault>
    requires { len + quoted_len < 2 ^ 64 }
    ensures { GivesOutcome result (day_first place len (quoted, quoted_len)) }
{
    let day = day_of(&quoted).ok_or(LexFault::BadDate(place))?;
    Ok((TokenKind::Day(day), len + quoted_len))
}

// The token of the word DATE, of `len` bytes, and its length.
#[tactic(auto, unfolding(crate::specs::Cutting::date_first))]
fn date_first(
    alloc: Global,
    place: usize,
    len: usize,
    remaining: &str,
) -> Result<(TokenKind, usize), LexFault>
    requires { len + length remaining.now < 2 ^ 64 }
    ensures { GivesOutcome result (date_first place len remaining.now) }
{
    let blanks = blanks_len(remaining.as_bytes());
    match quoted_first(alloc, &remaining[blanks..])? {
        None => Ok((TokenKind::Keyword(Keyword::KDate), len)),
        Some((quoted, quoted_len)) => day_first(place, len + blanks, quoted, quoted_len),
    }
}

// The token of a classified word of `len` bytes, and its length.
fn said_first(
    alloc: Global,
    place: usize,
    len: usize,
    remaining: &str,
    word: Word,
) -> Result<(TokenKind, usize), LexFault>
    requires { len + length remaining.now < 2 ^ 64 }
    ensures { GivesOutcome result (if is_date (kind_of_word word)
        then date_first place len remaining.now else Ok (kind_of_word word, len)) }
{
    match word {
        Word::Name(name) => Ok((TokenKind::Word(name), len)),
        Word::Keyword(Keyword::KDate) => date_first(alloc, place, len, remaining),
        Word::Keyword(keyword) => Ok((TokenKind::Keyword(keyword), len)),
        Word::Unsupported(word) => Ok((TokenKind::Unsupported(word), len)),
    }
}

// The token of the word at the front, and its length.
#[tactic(auto, unfolding(crate::specs::Cutting::word_first))]
fn word_first(alloc: Global, place: usize, text: &str) -> Result<(TokenKind, usize), LexFault>
    requires { begins_with is_ascii_alphabetic text.now ≡ true }
    ensures { GivesOutcome result (word_first place text.now) }
{
    let len = word_len(text.as_bytes());
    let (word, remaining) = text.split_at(len);
    let said = read_word(alloc, word)?.ok_or(LexFault::BadToken(place))?;
    said_first(alloc, place, len, remaining, said)
}

fn quoted_token(alloc: Global, place: usize, text: &str) -> Result<(TokenKind, usize), LexFault>
    ensures { GivesOutcome result (quoted_token place text.now) }
{
    let (quoted, len) = quoted_first(alloc, text)?.ok_or(LexFault::BadToken(place))?;
    Ok((TokenKind::Quoted(quoted), len))
}

fn sign_token(place: usize, text: &str) -> Result<(TokenKind, usize), LexFault>
    ensures { GivesOutcome result (sign_token place text.now) }
{
    let (sign, len) = sign_first(text.as_bytes()).ok_or(LexFault::BadToken(place))?;
    Ok((TokenKind::Symbol(sign), len))
}

/// The first token of a text that does not begin with a blank: its kind and its length. The text
/// begins at `place`.
#[tactic(auto, unfolding(crate::specs::Cutting::token_first))]
pub fn token_first(alloc: Global, place: usize, text: &str) -> Result<(TokenKind, usize), LexFault>
    requires { place + length text.now < 2 ^ 64 }
    ensures { GivesOutcome result (token_first place text.now) }
{
    if begins_with_letter(text.as_bytes()) {
        return word_first(alloc, place, text);
    }
    match text.as_bytes() {
        [b'0'..=b'9' | b'-', ..] => number_first(place, text),
        [b'\'', ..] => quoted_token(alloc, place, text),
        _ => sign_token(place, text),
    }
}

/// The text without the blanks at its front.
pub fn without_blanks(text: &str) -> &str
    ensures rest { result.now ≡ drop (blanks_len text.now) text.now }
    ensures within { length result.now ≤ length text.now }
{
    &text[blanks_len(text.as_bytes())..]
}
