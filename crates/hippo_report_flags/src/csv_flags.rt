//! Flags as CSV (RFC 4180).
ghost use Rattle.std.specs.Prelude.{◌≡◌, IfOk, codes};
ghost use Rattle.csv.specs.Records.{fields_of};
ghost use Rattle.csv.specs.Writing.{default_writer, row_text};
ghost use Rattle.hippo_values_text.specs.Dates.{moment_text};
ghost use Rattle.hippo_report.specs.Cells.{separated_text, shared_text};
ghost use Rattle.hippo_report_flags.specs.Flags.{flag_fields};

use csv::{Error, StringRecord, WriterBuilder};
use hippo_model::Flag;
use hippo_report::append_joined;
use hippo_values::{Memory, Txt};
use itoa::Buffer;
use std::alloc::{AllocError, Global};

// The record of these fields, followed by a line feed.
fn record_text(alloc: Global, fields: &StringRecord) -> Result<Vec<u8>, Error>
    ensures { IfOk result (λ text. text.items ≡ row_text default_writer (fields_of fields.now)) }
{
    let mut writer = WriterBuilder::new().from_writer(Vec::new(alloc));
    writer.write_byte_record(fields.as_byte_record())?;
    match writer.into_inner() {
        Ok(text) => Ok(text),
        Err(refused) => Err(refused.into_error()),
    }
}

fn tuple_field(alloc: Global, flag: &Flag) -> Result<Txt, Memory>
    ensures { IfOk result (λ text. text ≡ separated_text shared_text (codes " ") flag.now.shared) }
{
    let mut text = Txt::new(alloc);
    append_joined(" ", flag.shared.as_slice(), &mut text)?;
    Ok(text)
}

fn flag_record(
    alloc: Global,
    flag: &Flag,
    moment: &str,
    tuple: &str,
) -> Result<StringRecord, AllocError>
    requires moment { moment.now ≡ moment_text flag.now.moment }
    requires tuple { tuple.now ≡ separated_text shared_text (codes " ") flag.now.shared }
    ensures { IfOk result (λ made. fields_of made ≡ flag_fields flag.now) }
{
    let mut record = StringRecord::new(alloc);
    record.push_field(Buffer::new().format(flag.seq))?;
    record.push_field(moment)?;
    record.push_field(flag.user.as_str())?;
    record.push_field(flag.pair.purpose.as_str())?;
    record.push_field(flag.pair.recipient.as_str())?;
    record.push_field(tuple)?;
    Ok(record)
}

/// The bytes of a flag as one record. The writer writes into memory, so each of its faults is out
/// of memory.
pub fn flag_bytes(alloc: Global, flag: &Flag, moment: &str) -> Result<Vec<u8>, Memory>
    requires moment { moment.now ≡ moment_text flag.now.moment }
    ensures { IfOk result (λ text. text.items ≡ row_text default_writer (flag_fields flag.now)) }
{
    let tuple = tuple_field(alloc, flag)?;
    let record = flag_record(alloc, flag, moment, tuple.as_str())?;
    record_text(alloc, &record).map_err(|_| Memory)
}
