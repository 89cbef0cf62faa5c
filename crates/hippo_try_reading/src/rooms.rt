//! Shows what fits in the memory for the longest line, and the CSV record of a row.

use crate::or_out_of_memory;
use hippo_csv::extract_line;
use hippo_entry_hex::first_word;
use hippo_model::{Cell, CellRow};
use hippo_values::{Memory, RoomyTxt, Sequence, Txt, Value};
use std::alloc::{AllocError, Global};

// The longest line, in bytes.
const LONGEST: usize = 65_536;

// Appends a character this many times.
fn fill(room: &mut RoomyTxt<LONGEST>, character: char, count: usize) -> Result<(), Memory> {
    for _ in 0..count {
        room.push(character)?;
    }
    Ok(())
}

// The number of bytes after each of two fillings.
fn filled(alloc: Global, character: char, count: usize) -> Result<[usize; 2], Memory> {
    let mut room = RoomyTxt::with_room(alloc)?;
    let mut lengths = [0; 2];
    for length in &mut lengths {
        fill(&mut room, character, count)?;
        *length = room.len();
        room.clear();
    }
    Ok(lengths)
}

/// Shows how many bytes the memory for the longest line holds after a character was appended to it
/// this many times, and again after it was emptied and filled once more.
pub fn filled_twice(alloc: Global, text: &str) -> Result<String, AllocError> {
    let (character, count) = first_word(text);
    let character = character.chars().next().unwrap_or(' ');
    let lengths = filled(alloc, character, count.parse().unwrap_or(0));
    format!(in alloc; "{lengths:?}")
}

// The cell that a word writes: a number, or `!` followed by the number of the rule that denies it.
// Any other word is NULL.
fn cell(word: &str) -> Cell {
    if let Some(rule) = word.strip_prefix('!') {
        return Cell::Denied(rule.parse().unwrap_or(0));
    }
    match word.parse() {
        Ok(number) => Cell::Shown(Value::Int(number)),
        Err(_) => Cell::Shown(Value::Null),
    }
}

fn cells(alloc: Global, text: &str) -> Result<CellRow, Memory> {
    let mut row = Sequence::new(alloc);
    for word in text.split(' ') {
        row.push(cell(word))?;
    }
    Ok(row)
}

fn record(alloc: Global, text: &str) -> Result<String, Memory> {
    let row = cells(alloc, text)?;
    let mut out = Txt::from_str(alloc, "1 ok\n")?;
    extract_line(alloc, 1, &row, &mut out)?;
    Ok(format!(in alloc; "{:?}", out.as_str())?)
}

/// Shows the record of a row of numbers and denied cells, as session 1 receives it after its first
/// line.
pub fn shown_record(alloc: Global, text: &str) -> Result<String, AllocError> {
    or_out_of_memory(record(alloc, text))
}
