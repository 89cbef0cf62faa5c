//! Reads the parts of an entry from bytes.
ghost use Rattle.std.specs.Prelude.{◌≡◌};
ghost use Rattle.std.specs.Int.{w32, w64};
ghost use Rattle.hippo_values.specs.Names.{name_of};
ghost use Rattle.hippo_entry_codec.specs.Readings.{GivesReading, ReadsFront, leading_byte, leading_bytes, leading_stored_number, leading_signed};
ghost use Rattle.hippo_entry_codec.specs.Readings.{stored_text, leading_text, leading_stored_name, leading_parts, leading_list, stored_day};
ghost use Rattle.hippo_entry_codec.specs.Readings.{leading_value, stored_column_kind, bool_of, item_kind_of, subject_of_byte};
ghost use Rattle.hippo_entry_codec.specs.Readings.{leading_stored_column, leading_schema};

use crate::fault::Fault;
use hippo_model::{Column, ColumnKind, ItemKind, Schema};
use hippo_values::{CellText, DayNumber, Name, Sequence, Txt, Value};
use std::alloc::Global;

/// A part of an entry that can be read.
pub trait Readable {
    ghost use Rattle.hippo_entry_codec.specs.Readings.{Reading, ReadsFront};

    ghost reading: { Reading Self };

    /// Reads the part at the front; returns it and the bytes after it.
    fn read(alloc: Global, bytes: &[u8]) -> Result<(Self, &[u8]), Fault>
    where
        Self: Sized,
        ensures { ReadsFront reading bytes.now result };
}

/// Reads the first byte; returns it and the bytes after it.
pub fn read_byte(bytes: &[u8]) -> Result<(u8, &[u8]), Fault>
    ensures { ReadsFront leading_byte bytes.now result }
{
    match bytes {
        [] => Err(Fault::NoPart),
        [first, rest @ ..] => Ok((*first, rest)),
    }
}

fn read_bytes(count: usize, bytes: &[u8]) -> Result<(&[u8], &[u8]), Fault>
    ensures { GivesReading (λ x. (x.0.now, x.1.now)) result (leading_bytes count bytes.now) }
{
    if bytes.len() < count {
        return Err(Fault::NoPart);
    }
    Ok(bytes.split_at(count))
}

/// Reads the 32-bit number at the front; returns it and the bytes after it.
pub fn read_short(bytes: &[u8]) -> Result<(u32, &[u8]), Fault>
    ensures { ReadsFront (leading_stored_number w32) bytes.now result }
{
    if bytes.len() < 4 {
        return Err(Fault::NoPart);
    }
    let (front, rest) = bytes.split_at(4);
    let number = u32::from_be_bytes([front[0], front[1], front[2], front[3]]);
    Ok((number, rest))
}

/// Reads the 64-bit number at the front; returns it and the bytes after it.
pub fn read_number(bytes: &[u8]) -> Result<(u64, &[u8]), Fault>
    ensures { ReadsFront (leading_stored_number w64) bytes.now result }
{
    if bytes.len() < 8 {
        return Err(Fault::NoPart);
    }
    let (front, rest) = bytes.split_at(8);
    let number = u64::from_be_bytes([
        front[0], front[1], front[2], front[3], front[4], front[5], front[6], front[7],
    ]);
    Ok((number, rest))
}

/// Reads the signed 64-bit number at the front; returns it and the bytes after it.
pub fn read_signed(bytes: &[u8]) -> Result<(i64, &[u8]), Fault>
    ensures { ReadsFront (leading_signed w64) bytes.now result }
{
    let (number, rest) = read_number(bytes)?;
    Ok((number.cast_signed(), rest))
}

fn text_of(bytes: &[u8]) -> Result<&str, Fault>
    ensures { GivesReading (λ text. text.now) result (stored_text bytes.now) }
{
    match str::from_utf8(bytes) {
        Ok(text) => Ok(text),
        Err(_) => Err(Fault::NoPart),
    }
}

/// Reads the text at the front, which follows its length; returns it and the bytes after it.
#[tactic(auto, unfolding(crate::specs::Readings::leading_text))]
pub fn read_text(alloc: Global, bytes: &[u8]) -> Result<(Txt, &[u8]), Fault>
    ensures { ReadsFront leading_text bytes.now result }
{
    let (count, rest) = read_short(bytes)?;
    let (inside, rest) = read_bytes(count as usize, rest)?;
    let text = text_of(inside)?;
    Ok((Txt::from_str(alloc, text)?, rest))
}

fn name_of(alloc: Global, word: &str) -> Result<Name, Fault>
    ensures { GivesReading (λ name. name) result (name_of word.now) }
{
    match Name::from_word(alloc, word)? {
        Some(name) => Ok(name),
        None => Err(Fault::NoPart),
    }
}

impl Readable for Name {
    ghost use Rattle.hippo_entry_codec.specs.Readings.{leading_stored_name};

    ghost reading = { leading_stored_name };

    #[tactic(auto, unfolding(crate::specs::Readings::leading_stored_name))]
    fn read(alloc: Global, bytes: &[u8]) -> Result<(Name, &[u8]), Fault> {
        let (count, rest) = read_byte(bytes)?;
        let (inside, rest) = read_bytes(usize::from(count), rest)?;
        let text = text_of(inside)?;
        let name = name_of(alloc, text)?;
        Ok((name, rest))
    }
}

impl Readable for usize {
    ghost use Rattle.hippo_entry_codec.specs.Readings.{leading_byte};

    ghost reading = { leading_byte };

    fn read(_alloc: Global, bytes: &[u8]) -> Result<(usize, &[u8]), Fault> {
        let (place, rest) = read_byte(bytes)?;
        Ok((usize::from(place), rest))
    }
}

fn read_parts<T: Readable + Drop>(
    alloc: Global,
    count: u8,
    bytes: &[u8],
) -> Result<(Sequence<T>, &[u8]), Fault>
    ensures { ReadsFront (leading_parts T.reading count) bytes.now result }
{
    let mut parts = Sequence::new(alloc);
    let mut rest = bytes;
    for _ in 0..count {
        let (part, after) = T::read(alloc, rest)?;
        parts.push(part)?;
        rest = after;
    }
    Ok((parts, rest))
}

impl<T: Readable + Drop> Readable for Sequence<T> {
    ghost use Rattle.hippo_entry_codec.specs.Readings.{leading_list};

    ghost reading = { leading_list T.reading };

    #[tactic(auto, unfolding(crate::specs::Readings::leading_list))]
    fn read(alloc: Global, bytes: &[u8]) -> Result<(Sequence<T>, &[u8]), Fault> {
        let (count, rest) = read_byte(bytes)?;
        read_parts(alloc, count, rest)
    }
}

fn day_of(number: i32) -> Result<DayNumber, Fault>
    ensures { GivesReading (λ day. day) result (stored_day number) }
{
    match DayNumber::new(number) {
        Some(day) => Ok(day),
        None => Err(Fault::NoPart),
    }
}

impl Readable for Value {
    ghost use Rattle.hippo_entry_codec.specs.Readings.{leading_value};

    ghost reading = { leading_value };

    #[tactic(auto, unfolding(crate::specs::Readings::leading_value))]
    fn read(alloc: Global, bytes: &[u8]) -> Result<(Value, &[u8]), Fault> {
        let (kind, rest) = read_byte(bytes)?;
        match kind {
            0 => Ok((Value::Null, rest)),
            1 => {
                let (number, rest) = read_signed(rest)?;
                Ok((Value::Int(number), rest))
            }
            2 => {
                let (text, rest) = read_text(alloc, rest)?;
                Ok((Value::Text(CellText::from_str(alloc, text.as_str())?), rest))
            }
            3 => {
                let (number, rest) = read_short(rest)?;
                let day = day_of(number.cast_signed())?;
                Ok((Value::Day(day), rest))
            }
            _ => Err(Fault::NoPart),
        }
    }
}

fn column_kind_of(byte: u8) -> Result<ColumnKind, Fault>
    ensures { GivesReading (λ kind. kind) result (stored_column_kind byte) }
{
    match byte {
        1 => Ok(ColumnKind::Integer),
        2 => Ok(ColumnKind::Text),
        3 => Ok(ColumnKind::Date),
        _ => Err(Fault::NoPart),
    }
}

/// The Boolean that a byte encodes: 0 is false, 1 is true, and any other byte is a fault.
pub fn bool_of(byte: u8) -> Result<bool, Fault>
    ensures { GivesReading (λ yes. yes) result (bool_of byte) }
{
    match byte {
        0 => Ok(false),
        1 => Ok(true),
        _ => Err(Fault::NoPart),
    }
}

/// The kind of an item that a byte encodes.
pub fn item_kind_of(byte: u8) -> Result<ItemKind, Fault>
    ensures { GivesReading (λ kind. kind) result (item_kind_of byte) }
{
    match byte {
        1 => Ok(ItemKind::OptIn),
        2 => Ok(ItemKind::OptOut),
        _ => Err(Fault::NoPart),
    }
}

fn subject_of_byte(byte: u8) -> Option<usize>
    ensures { result ≡ subject_of_byte byte }
{
    if byte == 0 {
        None
    } else {
        Some(usize::from(byte) - 1)
    }
}

impl Readable for Column {
    ghost use Rattle.hippo_entry_codec.specs.Readings.{leading_stored_column};

    ghost reading = { leading_stored_column };

    #[tactic(auto, unfolding(crate::specs::Readings::leading_stored_column))]
    fn read(alloc: Global, bytes: &[u8]) -> Result<(Column, &[u8]), Fault> {
        let (name, rest) = Name::read(alloc, bytes)?;
        let (byte, rest) = read_byte(rest)?;
        let kind = column_kind_of(byte)?;
        let (byte, rest) = read_byte(rest)?;
        let not_null = bool_of(byte)?;
        Ok((
            Column {
                name,
                kind,
                not_null,
            },
            rest,
        ))
    }
}

impl Readable for Schema {
    ghost use Rattle.hippo_entry_codec.specs.Readings.{leading_schema};

    ghost reading = { leading_schema };

    #[tactic(auto, unfolding(crate::specs::Readings::leading_schema))]
    fn read(alloc: Global, bytes: &[u8]) -> Result<(Schema, &[u8]), Fault> {
        let (name, rest) = Name::read(alloc, bytes)?;
        let (columns, rest) = Sequence::<Column>::read(alloc, rest)?;
        let (key, rest) = Sequence::<usize>::read(alloc, rest)?;
        let (byte, rest) = read_byte(rest)?;
        Ok((
            Schema {
                name,
                columns,
                key,
                subject: subject_of_byte(byte),
            },
            rest,
        ))
    }
}
