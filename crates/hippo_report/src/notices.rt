//! Replies that confirm a line, or give the number of rows or flags.
ghost use Rattle.hippo_report.specs.Adding.{AddsWithin};
ghost use Rattle.hippo_report.specs.Notices.{done_line, number_line};

use crate::pieces::append_pieces;
use crate::speaker::Speaker;
use hippo_values::{Memory, RoomyTxt};
use itoa::Buffer;

/// Appends the reply to a line that was carried out: `N ok`. N is the session's number, 0 for the
/// console, and `-` if the line names no session. When out of memory the text is unchanged; within
/// its guaranteed capacity this never happens.
pub fn done_line<const ROOM: usize>(who: Speaker, out: &mut RoomyTxt<ROOM>) -> Result<(), Memory>
    ensures { AddsWithin ROOM (done_line who) result out.old out.new }
{
    match who {
        Speaker::Nobody => append_pieces(&["-", " ok\n"], out),
        Speaker::Console => append_pieces(&["0", " ok\n"], out),
        Speaker::Session(number) => append_pieces(&[Buffer::new().format(number), " ok\n"], out),
    }
}

/// Appends a word and a number, to a session or to the console: `N WORD NUMBER`. When out of memory
/// the text is unchanged; within its guaranteed capacity this never happens.
pub fn number_line<const ROOM: usize>(
    session: u8,
    word: &str,
    number: u64,
    out: &mut RoomyTxt<ROOM>,
) -> Result<(), Memory>
    ensures { AddsWithin ROOM (number_line session word.now number) result out.old out.new }
{
    append_pieces(
        &[
            Buffer::new().format(session),
            " ",
            word,
            " ",
            Buffer::new().format(number),
            "\n",
        ],
        out,
    )
}
