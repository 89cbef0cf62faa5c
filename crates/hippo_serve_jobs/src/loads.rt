//! The lines that a load makes.
ghost use Rattle.std.specs.Prelude.{◌≡◌, ◌+◌, ◌≤◌, ◌++◌, length};
ghost use Rattle.hippo_values.specs.Limits.{line_limit};
ghost use Rattle.hippo_serve_jobs.specs.Loads.{made_room, load_text, at_line};

use hippo_values::{Memory, Moment, Name, RoomyTxt};
use hippo_values_text::moment_text;

// The highest number of bytes in a line that a load makes: `0 load TABLE RECORD`.
const MADE_ROOM: usize = 65_607;

/// The text of a line that a load makes. Its memory is allocated before the first line is read.
pub type MadeText = RoomyTxt<MADE_ROOM>;

// Appends a text that fits the allocated memory.
fn add(text: &str, made: &mut MadeText)
    requires room { length made.old + length text.now ≤ made_room }
    ensures { made.new ≡ made.old ++ text.now }
{
    match made.append(text) {
        Ok(()) => {}
        Err(Memory) => unreachable!(),
    }
}

/// Writes the line that loads a record of a table into `made`.
pub fn make_load(table: &Name, fields: &str, made: &mut MadeText)
    requires short { length fields.now ≤ line_limit }
    ensures { made.new ≡ load_text table.now fields.now }
{
    made.clear();
    add("0 load ", made);
    add(table.as_str(), made);
    add(" ", made);
    add(fields, made);
}

/// Writes the line that sets the clock into `made`.
pub fn make_clock(moment: Moment, made: &mut MadeText)
    ensures { made.new ≡ at_line moment }
{
    made.clear();
    add("at ", made);
    match str::from_utf8(&moment_text(moment)) {
        Ok(text) => add(text, made),
        Err(_) => unreachable!(),
    }
}
