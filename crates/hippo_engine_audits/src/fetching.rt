//! The reply to a fetch: the next rows of a cursor.
ghost use Rattle.std.specs.Prelude.{◌≡◌, ◌++◌, nat_lt, flat_map, codes, if◌then◌else◌, OnOk};
ghost use Rattle.hippo_report.specs.Cells.{answer_line};
ghost use Rattle.hippo_report.specs.Notices.{number_line};
ghost use Rattle.hippo_engine_sessions.specs.Worlds.{rows_next, moved_on};
ghost use Rattle.hippo_engine_rules.specs.Effects.{handed_line};

use hippo_engine_rules::Reply;
use hippo_engine_sessions::Cursor;
use hippo_report::{answer_lines, number_line};
use hippo_values::Memory;

/// Appends a `part` line with the number that is done so far. Fails when out of memory.
pub(crate) fn append_part(session: u8, given: u64, out: &mut Reply) -> Result<(), Memory>
    ensures { OnOk result (out.new ≡ out.old ++ number_line session (codes "part") given) }
{
    number_line(session, "part", given, out)
}

/// Appends an `end` line with the total number. Fails when out of memory.
pub(crate) fn append_end(session: u8, total: u64, out: &mut Reply) -> Result<(), Memory>
    ensures { OnOk result (out.new ≡ out.old ++ number_line session (codes "end") total) }
{
    number_line(session, "end", total, out)
}

// Appends the number of rows that were fetched, if there are more; otherwise the number of all
// rows.
fn append_handed(session: u8, given: usize, total: usize, out: &mut Reply) -> Result<(), Memory>
    ensures { OnOk result (out.new ≡ out.old
        ++ (if nat_lt given total then number_line session (codes "part") given
        else number_line session (codes "end") total)) }
{
    if given < total {
        append_part(session, given as u64, out)
    } else {
        append_end(session, total as u64, out)
    }
}

fn given_after(cursor: &Cursor, count: u32) -> usize
    ensures { result ≡ (moved_on cursor.now count).given }
{
    let given = cursor.given.saturating_add(count as usize);
    given.min(cursor.answer.len())
}

/// Replaces the reply by up to `count` next rows of a session's cursor, and a line that says how
/// many were fetched. The caller moves the cursor on. Fails when out of memory.
pub fn print_next(session: u8, cursor: &Cursor, count: u32, reply: &mut Reply) -> Result<(), Memory>
    ensures { OnOk result (reply.new
        ≡ flat_map (answer_line session) (rows_next cursor.now count)
        ++ handed_line session (moved_on cursor.now count)) }
{
    reply.clear();
    answer_lines(session, cursor.rows_next(count), reply)?;
    append_handed(
        session,
        given_after(cursor, count),
        cursor.answer.len(),
        reply,
    )
}
