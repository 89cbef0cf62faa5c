//! Shortens long outputs.

use hippo_entry_hex::first_word;
use hippo_values::Memory;
use std::alloc::Global;

const LONG: usize = 200;

fn begin_alike(left: &str, right: &str) -> bool {
    let (left, left_rest) = first_word(left);
    let (right, right_rest) = first_word(right);
    left == right && first_word(left_rest).0 == first_word(right_rest).0
}

// Appends a line for a group: how many lines it has, and the last of them or that line's number of
// bytes.
fn add_group(alloc: Global, text: &mut String, count: u64, last: &str) -> Result<(), Memory> {
    if count == 0 {
        return Ok(());
    }
    let line = if last.len() > LONG {
        format!(in alloc; "{count}: {} bytes\n", last.len())?
    } else {
        format!(in alloc; "{count}: {last}\n")?
    };
    text.push_str(line.as_str())?;
    Ok(())
}

/// Returns a line for each group of consecutive lines that begin with the same two words: how many
/// lines it has, and the last of them, or the number of that line's bytes if there are more than
/// 200.
pub fn brief(alloc: Global, output: &str) -> Result<String, Memory> {
    let mut text = String::new(alloc);
    let mut last = "";
    let mut count = 0_u64;
    for line in output.lines() {
        if !begin_alike(last, line) {
            add_group(alloc, &mut text, count, last)?;
            count = 0;
        }
        last = line;
        count = count.saturating_add(1);
    }
    add_group(alloc, &mut text, count, last)?;
    Ok(text)
}
