//! Stored entries as texts, for the programs that run worked rows: the rows give entries in this
//! form, and show them in it.
#![tactic(auto)]

ghost use Rattle.std.specs.Prelude.{◌≡◌};
ghost use Rattle.std.specs.List.{before_first, after_first};
ghost use Rattle.hippo_values.specs.Texts.{is_space};

use hippo_model::StoredEntry;
use hippo_values::{Bytes, Memory, Txt};
use std::alloc::Global;

/// Splits a text at its first space: the word before the space, and the text after it. A text
/// without a space is returned whole, with an empty rest.
pub fn first_word(text: &str) -> (&str, &str)
    ensures word { result.0.now ≡ before_first is_space text.now }
    ensures rest { result.1.now ≡ after_first is_space text.now }
{
    text.split_once(' ').unwrap_or((text, ""))
}

// The bytes in hexadecimal digits. Other characters count as out of memory.
fn bytes_of(alloc: Global, digits: &str) -> Result<Bytes, Memory> {
    match hex::decode(alloc, digits.as_bytes()) {
        Ok(bytes) => Ok(Bytes::from_vec(bytes)),
        Err(_) => Err(Memory),
    }
}

/// Reads a stored entry from a text: its number, its moment in seconds, its kind, its table or a
/// hyphen for none, and its body in hexadecimal digits. A word that is not a number counts as 0. A
/// body that is not hexadecimal digits counts as out of memory.
pub fn stored(alloc: Global, text: &str) -> Result<StoredEntry, Memory> {
    let (seq, rest) = first_word(text);
    let (moment, rest) = first_word(rest);
    let (kind, rest) = first_word(rest);
    let (table, digits) = first_word(rest);
    let table = if table == "-" { "" } else { table };
    let body = bytes_of(alloc, digits)?;
    let table = Txt::from_str(alloc, table)?;
    Ok(StoredEntry {
        seq: seq.parse().unwrap_or(0),
        moment: moment.parse().unwrap_or(0),
        kind: kind.parse().unwrap_or(0),
        table,
        body,
    })
}

/// Writes an entry as a line that [`stored`] reads.
pub fn written(alloc: Global, entry: &StoredEntry) -> Result<String, Memory> {
    let StoredEntry {
        seq,
        moment,
        kind,
        table,
        body,
    } = entry;
    let table = if table.len() == 0 {
        "-"
    } else {
        table.as_str()
    };
    let digits = hex::encode(alloc, body.as_slice())?;
    Ok(format!(in alloc; "{seq} {moment} {kind} {table} {digits}\n")?)
}
