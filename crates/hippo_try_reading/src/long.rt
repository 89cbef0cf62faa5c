//! Rows of long texts. A row gives a prefix, a part with the number of times that it is repeated,
//! and a suffix.

use std::alloc::{AllocError, Global};

// The text before the next mark of a row, and the text after it.
fn up_to_mark(row: &str) -> (&str, &str) {
    row.split_once('~').unwrap_or((row, ""))
}

fn repeated(alloc: Global, front: &str, part: &str, count: usize) -> Result<String, AllocError> {
    let mut text = String::from_str(alloc, front)?;
    for _ in 0..count {
        text.push_str(part)?;
    }
    Ok(text)
}

/// Returns the text that a row writes, and the part of its reading that is to be counted. The row
/// has, separated by marks: a prefix, a part, how often it is repeated, a suffix, and the part of
/// the reading.
pub fn long_text(alloc: Global, row: &str) -> Result<(String, &str), AllocError> {
    let (front, rest) = up_to_mark(row);
    let (part, rest) = up_to_mark(rest);
    let (count, rest) = up_to_mark(rest);
    let (back, counted) = up_to_mark(rest);
    let mut text = repeated(alloc, front, part, count.parse().unwrap_or(0))?;
    text.push_str(back)?;
    Ok((text, counted))
}

// How often a part is repeated at the beginning of a text, and the text after the repetitions.
fn at_front<'a>(text: &'a str, part: &str) -> (usize, &'a str) {
    let mut rest = text;
    for count in 0..text.len() {
        match rest.strip_prefix(part) {
            Some(remaining) => rest = remaining,
            None => return (count, rest),
        }
    }
    (text.len(), rest)
}

/// Shortens a reading: the first occurrence of `part`, and the occurrences that directly follow it,
/// are written as in a row.
pub fn short_reading(alloc: Global, reading: &str, part: &str) -> Result<String, AllocError> {
    if part.is_empty() {
        return String::from_str(alloc, reading);
    }
    let Some((front, remaining)) = reading.split_once(part) else {
        return String::from_str(alloc, reading);
    };
    let (more, rest) = at_front(remaining, part);
    format!(in alloc; "{front}~{part}~{}~{rest}", more.saturating_add(1))
}
