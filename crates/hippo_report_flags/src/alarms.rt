//! The line by which a watch reports a flag.
ghost use Rattle.std.specs.Prelude.{◌≡◌, ◌++◌, OnOk};
ghost use Rattle.hippo_report_flags.specs.AlarmLines.{alarm_text};

use hippo_model::SharedTuple;
use hippo_report::{append_later, append_pieces};
use hippo_values::{Memory, RoomyTxt};
use itoa::Buffer;

/// Appends the line by which a watch reports that it flags a query: `0 alarm`, the watch's number,
/// the query's number, and the rows that they share, each after a space. The only error is out of
/// memory; part of the line may then have been appended.
pub fn alarm_line<const ROOM: usize>(
    watch: u64,
    question: u64,
    shared: &SharedTuple,
    out: &mut RoomyTxt<ROOM>,
) -> Result<(), Memory>
    ensures { OnOk result (out.new ≡ out.old ++ alarm_text watch question shared.now) }
{
    append_pieces(
        &[
            "0 alarm ",
            Buffer::new().format(watch),
            " ",
            Buffer::new().format(question),
        ],
        out,
    )?;
    append_later(" ", shared.as_slice(), out)?;
    out.append("\n")
}
