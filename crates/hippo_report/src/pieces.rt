//! Appends parts of a reply to a text.
ghost use Rattle.std.specs.Prelude.{◌≡◌, ◌+◌, ◌≤◌, length, map, IsOk};
ghost use Rattle.std.specs.Str.{IsAscii};
ghost use Rattle.std.specs.List.{concat};
ghost use Rattle.hippo_values_text.specs.Printing.{AppendsText};
ghost use Rattle.hippo_report.specs.Adding.{AddsWithin};

use hippo_values::{Memory, RoomyTxt};

fn append_each<const ROOM: usize>(pieces: &[&str], out: &mut RoomyTxt<ROOM>) -> Result<(), Memory>
    ensures adds { AppendsText (concat (map (λ piece. piece.now) pieces.now)) result out.old out.new }
    ensures room { length out.old + length (concat (map (λ piece. piece.now) pieces.now)) ≤ ROOM
        → IsOk result }
{
    for piece in pieces {
        out.append(piece)?;
    }
    Ok(())
}

/// Appends the pieces in order. When out of memory the text is unchanged; within its guaranteed
/// capacity this never happens.
pub fn append_pieces<const ROOM: usize>(
    pieces: &[&str],
    out: &mut RoomyTxt<ROOM>,
) -> Result<(), Memory>
    ensures { AddsWithin ROOM (concat (map (λ piece. piece.now) pieces.now)) result out.old out.new }
{
    let length = out.as_str().len();
    let printed = append_each(pieces, out);
    if printed.is_err() {
        out.truncate(length);
    }
    printed
}

/// ASCII bytes as a text.
pub fn ascii_text(bytes: &[u8]) -> &str
    requires { IsAscii bytes.now }
    ensures { result.now ≡ bytes.now }
{
    match str::from_utf8(bytes) {
        Ok(text) => text,
        Err(_) => unreachable!(),
    }
}
