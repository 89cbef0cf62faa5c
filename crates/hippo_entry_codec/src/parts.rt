//! Writes the parts of an entry as bytes.
ghost use Rattle.std.specs.Prelude.{◌≡◌, [], ◌∷◌, ◌++◌, flat_map, IfOk, OnOk};
ghost use Rattle.hippo_model.specs.StoredForms.{number_bytes, signed_bytes, name_bytes, text_bytes, list_bytes};
ghost use Rattle.hippo_model.specs.StoredForms.{place_bytes, value_bytes, column_kind, column_bytes};

use hippo_model::{Column, ColumnKind};
use hippo_values::{Memory, Name, Sequence, Value};

/// A part of an entry that has its own bytes.
pub trait Part {
    ghost use Rattle.std.specs.Prelude.{ℕ, List, ◌≡◌, ◌++◌, OnOk};

    ghost bytes: { Self → List ℕ };

    /// Appends the bytes of the part. Fails only when out of memory.
    fn write(&self, out: &mut Vec<u8>) -> Result<(), Memory>
        ensures { OnOk result (out.new.items ≡ out.old.items ++ bytes self.now) };
}

/// The number as one byte. Each count and index in an entry that can be stored fits in one byte. A
/// larger number cannot occur; it returns out of memory.
pub fn one_byte(number: usize) -> Result<u8, Memory>
    ensures { IfOk result (λ byte. byte ≡ number) }
{
    match u8::try_from(number) {
        Ok(byte) => Ok(byte),
        Err(_) => Err(Memory),
    }
}

// The number in four bytes. The length of each text that can be stored fits.
fn four_bytes(number: usize) -> Result<u32, Memory>
    ensures { IfOk result (λ length. length ≡ number) }
{
    match u32::try_from(number) {
        Ok(length) => Ok(length),
        Err(_) => Err(Memory),
    }
}

/// Appends a byte. Fails only when out of memory.
pub fn write_byte(byte: u8, out: &mut Vec<u8>) -> Result<(), Memory>
    ensures { OnOk result (out.new.items ≡ out.old.items ++ byte ∷ []) }
{
    out.push(byte)?;
    Ok(())
}

/// Appends a 64-bit number. Fails only when out of memory.
pub fn write_number(number: u64, out: &mut Vec<u8>) -> Result<(), Memory>
    ensures { OnOk result (out.new.items ≡ out.old.items ++ number_bytes number) }
{
    out.extend_from_slice(&number.to_be_bytes())?;
    Ok(())
}

/// Appends a signed 64-bit number. Fails only when out of memory.
pub fn write_signed(number: i64, out: &mut Vec<u8>) -> Result<(), Memory>
    ensures { OnOk result (out.new.items ≡ out.old.items ++ signed_bytes number) }
{
    out.extend_from_slice(&number.cast_unsigned().to_be_bytes())?;
    Ok(())
}

/// Appends a text, with its length before it.
pub fn write_text(text: &str, out: &mut Vec<u8>) -> Result<(), Memory>
    ensures { OnOk result (out.new.items ≡ out.old.items ++ text_bytes text.now) }
{
    let length = four_bytes(text.len())?;
    out.extend_from_slice(&length.to_be_bytes())?;
    out.extend_from_slice(text.as_bytes())?;
    Ok(())
}

impl Part for Name {
    ghost use Rattle.hippo_model.specs.StoredForms.{name_bytes};

    ghost bytes = { name_bytes };

    fn write(&self, out: &mut Vec<u8>) -> Result<(), Memory> {
        let bytes = self.as_str().as_bytes();
        out.push(one_byte(bytes.len())?)?;
        out.extend_from_slice(bytes)?;
        Ok(())
    }
}

impl Part for usize {
    ghost use Rattle.hippo_model.specs.StoredForms.{place_bytes};

    ghost bytes = { place_bytes };

    fn write(&self, out: &mut Vec<u8>) -> Result<(), Memory> {
        out.push(one_byte(*self)?)?;
        Ok(())
    }
}

impl Part for Value {
    ghost use Rattle.hippo_model.specs.StoredForms.{value_bytes};

    ghost bytes = { value_bytes };

    fn write(&self, out: &mut Vec<u8>) -> Result<(), Memory> {
        match self {
            Value::Null => write_byte(0, out),
            Value::Int(number) => {
                out.push(1)?;
                write_signed(*number, out)
            }
            Value::Text(text) => {
                out.push(2)?;
                write_text(text.as_str(), out)
            }
            Value::Day(day) => {
                out.push(3)?;
                out.extend_from_slice(&day.day().cast_unsigned().to_be_bytes())?;
                Ok(())
            }
        }
    }
}

fn column_kind(kind: ColumnKind) -> u8
    ensures { result ≡ column_kind kind }
{
    match kind {
        ColumnKind::Integer => 1,
        ColumnKind::Text => 2,
        ColumnKind::Date => 3,
    }
}

impl Part for Column {
    ghost use Rattle.hippo_model.specs.StoredForms.{column_bytes};

    ghost bytes = { column_bytes };

    fn write(&self, out: &mut Vec<u8>) -> Result<(), Memory> {
        self.name.write(out)?;
        out.push(column_kind(self.kind))?;
        out.push(u8::from(self.not_null))?;
        Ok(())
    }
}

fn write_members<T: Part>(members: &[T], out: &mut Vec<u8>) -> Result<(), Memory>
    ensures { OnOk result (out.new.items ≡ out.old.items ++ flat_map T.bytes members.now) }
{
    for member in members {
        member.write(out)?;
    }
    Ok(())
}

impl<T: Part> Part for Sequence<T> {
    ghost use Rattle.hippo_model.specs.StoredForms.{list_bytes};

    ghost bytes = { list_bytes T.bytes };

    fn write(&self, out: &mut Vec<u8>) -> Result<(), Memory> {
        out.push(one_byte(self.len())?)?;
        write_members(self.as_slice(), out)
    }
}
