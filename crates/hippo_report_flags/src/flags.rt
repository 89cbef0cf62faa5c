//! Flagged queries.
ghost use Rattle.std.specs.Prelude.{◌≡◌, ◌++◌, codes, OnOk, OnErr};
ghost use Rattle.csv.specs.Writing.{default_writer, row_text};
ghost use Rattle.serde_json.specs.Written.{compact_text};
ghost use Rattle.hippo_values_text.specs.Printing.{AppendsText, KeepsFront};
ghost use Rattle.hippo_report.specs.Adding.{AddsWhole};
ghost use Rattle.hippo_report_flags.specs.Flags.{question_text, flag_text, flag_data, flag_fields, flag_line};

use crate::csv_flags::flag_bytes;
use crate::json_flags::flag_json;
use hippo_model::Flag;
use hippo_report::{Format, Printed, append_later, append_pieces, append_whole, ascii_text};
use hippo_values::{Memory, RoomyTxt};
use hippo_values_text::moment_text;
use itoa::Buffer;
use std::alloc::Global;
use std::marker::Model;

// A flag with the text of its moment.
#[derive(Drop)]
struct DatedFlag<'a> {
    flag: &'a Flag,
    moment: &'a str,
}

impl<'a> Model for DatedFlag<'a> {
    ghost use Rattle.std.specs.Prelude.{◌≡◌};
    ghost use Rattle.hippo_values_text.specs.Dates.{moment_text};
    ghost use Rattle.hippo_model.specs.declared.audit.Flag.{Flag as FlaggedQuestion};

    ghost Value = { FlaggedQuestion };

    ghost view = { λ dated. dated.flag.now };

    ghost invariant = { λ dated. dated.moment.now ≡ moment_text dated.flag.now.moment };
}

fn append_question<const ROOM: usize>(
    dated: &DatedFlag<'_>,
    out: &mut RoomyTxt<ROOM>,
) -> Result<(), Memory>
    ensures adds { AppendsText (question_text dated.now) result out.old out.new }
{
    append_pieces(
        &[
            Buffer::new().format(dated.flag.seq),
            " ",
            dated.moment,
            " ",
            dated.flag.user.as_str(),
            " ",
            dated.flag.pair.purpose.as_str(),
            " ",
            dated.flag.pair.recipient.as_str(),
        ],
        out,
    )
}

fn append_text<const ROOM: usize>(
    dated: &DatedFlag<'_>,
    out: &mut RoomyTxt<ROOM>,
) -> Result<(), Memory>
    ensures adds { AppendsText (flag_text dated.now) result out.old out.new }
{
    append_question(dated, out)?;
    append_later(" ", dated.flag.shared.as_slice(), out)?;
    out.append("\n")
}

fn append_json<const ROOM: usize>(
    alloc: Global,
    dated: &DatedFlag<'_>,
    out: &mut RoomyTxt<ROOM>,
) -> Result<(), Memory>
    ensures adds { AppendsText (compact_text (flag_data dated.now) ++ codes "\n")
        result out.old out.new }
{
    let text = flag_json(alloc, dated.flag, dated.moment)?;
    out.append(text.as_str())?;
    out.append("\n")
}

// A record is always a text. The other case cannot occur; it returns out of memory.
fn append_csv<const ROOM: usize>(
    alloc: Global,
    dated: &DatedFlag<'_>,
    out: &mut RoomyTxt<ROOM>,
) -> Result<(), Memory>
    ensures adds { AppendsText (row_text default_writer (flag_fields dated.now))
        result out.old out.new }
{
    let bytes = flag_bytes(alloc, dated.flag, dated.moment)?;
    match str::from_utf8(bytes.as_slice()) {
        Ok(text) => out.append(text),
        Err(_) => Err(Memory),
    }
}

#[tactic(auto, using(hippo_report::proofs::PieceLemmas::keeps_front_after))]
fn append_dated<const ROOM: usize>(
    alloc: Global,
    format: Format,
    dated: &DatedFlag<'_>,
    out: &mut RoomyTxt<ROOM>,
) -> Result<(), Memory>
    ensures ok { OnOk result (out.new ≡ out.old ++ flag_line format dated.now) }
    ensures err { OnErr result (KeepsFront out.old out.new) }
{
    out.append("0 flag ")?;
    match format {
        Format::Text => append_text(dated, out),
        Format::Json => append_json(alloc, dated, out),
        Format::Csv => append_csv(alloc, dated, out),
    }
}

// A flag as a format prints it.
#[derive(Clone, Copy)]
struct FlagLine<'a> {
    alloc: Global,
    format: Format,
    flag: &'a Flag,
}

fn append_flag<const ROOM: usize>(
    line: &FlagLine<'_>,
    out: &mut RoomyTxt<ROOM>,
) -> Result<(), Memory>
    ensures adds { AppendsText (flag_line line.now.format line.now.flag.now) result out.old out.new }
{
    let flag = line.flag;
    let text = moment_text(flag.moment);
    let dated = DatedFlag {
        flag,
        moment: ascii_text(&text),
    };
    append_dated(line.alloc, line.format, &dated, out)
}

impl<'a, const ROOM: usize> Printed<ROOM> for FlagLine<'a> {
    ghost use Rattle.hippo_report_flags.specs.Flags.{flag_line};

    ghost text = { λ line. flag_line line.format line.flag.now };

    fn print(&self, out: &mut RoomyTxt<ROOM>) -> Result<(), Memory> {
        append_flag(self, out)
    }
}

/// Appends one flagged query: `0 flag`, and then its number, moment, user, purpose, recipient and
/// shared tuple, as words, as a JSON object or as a CSV record. When out of memory the text is
/// unchanged.
pub fn flag_line<const ROOM: usize>(
    alloc: Global,
    format: Format,
    flag: &Flag,
    out: &mut RoomyTxt<ROOM>,
) -> Result<(), Memory>
    ensures { AddsWhole (flag_line format flag.now) result out.old out.new }
{
    let line = FlagLine {
        alloc,
        format,
        flag,
    };
    append_whole(&line, out)
}
