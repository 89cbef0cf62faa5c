//! Splits a text that is one record into its fields.
ghost use Rattle.std.specs.Prelude.{◌≡◌, Some, IfOk, option_map};
ghost use Rattle.csv.specs.Reading.{strip_bom};
ghost use Rattle.csv.specs.Records.{fields_of};
ghost use Rattle.hippo_csv.specs.Extracting.{IsAtStart};
ghost use Rattle.hippo_csv.specs.Records.{record_fields};

use csv::{ByteRecord, Error, Reader, ReaderBuilder, StringRecord};
use hippo_values::{Memory, Sequence, Txt};
use std::alloc::Global;

/// The fields of a record.
pub type Fields = Sequence<Txt>;

// A reader of a text whose records may differ in length, so that differing lengths are never a
// fault.
fn reader_of(alloc: Global, text: &[u8]) -> Reader<&[u8]>
    ensures { IsAtStart (λ left. Some left.now) result (strip_bom text.now) }
{
    ReaderBuilder::new()
        .has_headers(false)
        .flexible(true)
        .from_reader(alloc, text)
}

// The record in a text that is exactly one record.
fn only_record(alloc: Global, text: &[u8]) -> Result<Option<StringRecord>, Error>
    ensures { IfOk result (λ found. option_map fields_of found ≡ record_fields text.now) }
{
    let mut reader = reader_of(alloc, text);
    let mut record = StringRecord::new(alloc);
    if !reader.read_record(&mut record)? {
        return Ok(None);
    }
    if reader.read_byte_record(&mut ByteRecord::new(alloc))? {
        return Ok(None);
    }
    Ok(Some(record))
}

fn copied_fields(alloc: Global, read: &StringRecord) -> Result<Fields, Memory>
    ensures { IfOk result (λ fields. fields ≡ fields_of read.now) }
{
    let mut fields = Fields::new(alloc);
    for field in read {
        fields.push(Txt::from_str(alloc, field)?)?;
    }
    Ok(fields)
}

/// The fields of a text that is exactly one RFC 4180 record, without a header line; none if the
/// text is not exactly one record. A byte order mark at the front is skipped, and empty lines are
/// not records. The only error is out of memory: the text is in memory and its records may have any
/// length.
pub fn read_fields(alloc: Global, text: &str) -> Result<Option<Fields>, Memory>
    ensures { IfOk result (λ fields. fields ≡ record_fields text.now) }
{
    match only_record(alloc, text.as_bytes()) {
        Ok(Some(record)) => Ok(Some(copied_fields(alloc, &record)?)),
        Ok(None) => Ok(None),
        Err(_) => Err(Memory),
    }
}
