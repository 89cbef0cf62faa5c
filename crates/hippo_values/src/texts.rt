//! Texts that contracts see as their bytes.
ghost use Rattle.std.specs.Prelude.{◌≡◌, ◌+◌, ◌≤◌, ◌==◌, ◌&&◌, [], ◌++◌, length, take, nat_eq, refl, string_bytes, Some, IsOk, IfOk, OnOk, OnErr};
ghost use Rattle.std.specs.Char.{encode_utf8};
ghost use Rattle.std.specs.Str.{IsUtf8};
ghost use Rattle.std.specs.Ordering.{nat_cmp};
ghost use Rattle.std.specs.List.{list_all};
ghost use Rattle.std.specs.Cmp.{partial_equiv_from_equiv};
ghost use Rattle.std.specs.Cmp.Lexicographic.{pointwise, slice_cmp, nat_list_eq_equiv, nat_list_cmp_total, texts_ties, texts_po};
ghost use Rattle.hippo_values.specs.Texts.{is_plain, keeps_text_rule};

use crate::limits::TEXT_LIMIT;
use crate::memory::{Duplicate, Memory};
use std::alloc::Global;
use std::cmp::Ordering;
use std::fmt::{self, Debug, Formatter, Write};
use std::marker::Model;

/// A text that contracts see as the list of its bytes. Its capacity is always at least `ROOM`
/// bytes: appends within that capacity allocate nothing.
#[derive(Drop)]
pub struct RoomyTxt<const ROOM: usize> {
    text: String,
}

impl<const ROOM: usize> Model for RoomyTxt<ROOM> {
    ghost use Rattle.std.specs.Prelude.{List, ℕ, ◌≤◌, string_bytes, string_capacity};

    ghost Value = { List ℕ };

    ghost view = { λ txt. string_bytes txt.text };

    ghost invariant = { λ txt. ROOM ≤ string_capacity txt.text };
}

/// A text with no guaranteed capacity.
pub type Txt = RoomyTxt<0>;

impl RoomyTxt<0> {
    /// The empty text; allocates nothing.
    pub fn new(alloc: Global) -> Txt
        ensures { result ≡ [] }
    {
        RoomyTxt {
            text: String::new(alloc),
        }
    }

    /// A text with the same bytes. Fails only when out of memory.
    pub fn from_str(alloc: Global, text: &str) -> Result<Txt, Memory>
        ensures { IfOk result (λ txt. txt ≡ text.now) }
    {
        Ok(RoomyTxt {
            text: String::from_str(alloc, text)?,
        })
    }

    /// The text of a `String`; keeps the `String`'s memory.
    pub fn from_string(text: String) -> Txt
        ensures { result ≡ string_bytes text }
    {
        RoomyTxt { text }
    }
}

impl<const ROOM: usize> RoomyTxt<ROOM> {
    /// The empty text, with its `ROOM` bytes allocated. Fails only when out of memory.
    pub fn with_room(alloc: Global) -> Result<RoomyTxt<ROOM>, Memory>
        ensures { IfOk result (λ txt. txt ≡ []) }
    {
        Ok(RoomyTxt {
            text: String::with_capacity(alloc, ROOM)?,
        })
    }

    pub fn as_str(&self) -> &str
        ensures { result.now ≡ self.now }
    {
        self.text.as_str()
    }

    pub fn len(&self) -> usize
        ensures { result ≡ length self.now }
    {
        self.text.len()
    }

    /// Appends the bytes of `text`. Within the guaranteed capacity it allocates nothing.
    pub fn append(&mut self, text: &str) -> Result<(), Memory>
        ensures ok { OnOk result (self.new ≡ self.old ++ text.now) }
        ensures err { OnErr result (self.new ≡ self.old) }
        ensures room { length self.old + length text.now ≤ ROOM → IsOk result }
    {
        self.text.push_str(text)?;
        Ok(())
    }

    /// Appends a character. Within the guaranteed capacity it allocates nothing.
    pub fn push(&mut self, character: char) -> Result<(), Memory>
        ensures ok { OnOk result (self.new ≡ self.old ++ encode_utf8 character) }
        ensures err { OnErr result (self.new ≡ self.old) }
        ensures room { length self.old + length (encode_utf8 character) ≤ ROOM → IsOk result }
    {
        self.text.push(character)?;
        Ok(())
    }

    /// Drops everything after the first `length` bytes.
    pub fn truncate(&mut self, length: usize)
        requires { IsUtf8 (take length self.old) }
        ensures { self.new ≡ take length self.old }
    {
        self.text.truncate(length);
    }

    /// Removes all bytes.
    pub fn clear(&mut self)
        ensures { self.new ≡ [] }
    {
        self.text.clear();
    }
}

impl Duplicate for RoomyTxt<0> {
    fn copy(&self, alloc: Global) -> Result<Txt, Memory> {
        Txt::from_str(alloc, self.as_str())
    }
}

impl Debug for RoomyTxt<0> {
    fn fmt<W: Write>(&self, f: &mut Formatter<W>) -> fmt::Result {
        self.text.fmt(f)
    }
}

impl PartialEq for RoomyTxt<0> {
    ghost eq = { pointwise nat_eq };

    ghost laws = { partial_equiv_from_equiv nat_list_eq_equiv };

    fn eq(&self, other: &Txt) -> bool {
        self.as_str() == other.as_str()
    }
}

impl Eq for RoomyTxt<0> {
    ghost laws = { nat_list_eq_equiv };
}

impl PartialOrd for RoomyTxt<0> {
    ghost partial_cmp = { λ x y. Some (slice_cmp nat_cmp x y) };

    ghost laws = { texts_po };

    fn partial_cmp(&self, other: &Txt) -> Option<Ordering> {
        Some(self.cmp(other))
    }
}

impl Ord for RoomyTxt<0> {
    ghost cmp = { slice_cmp nat_cmp };

    ghost total = { nat_list_cmp_total };

    ghost matches_partial_cmp = { λ x y. refl };

    ghost matches_eq = { texts_ties };

    fn cmp(&self, other: &Txt) -> Ordering {
        self.as_str().cmp(other.as_str())
    }
}

fn is_plain(byte: u8) -> bool
    ensures { result ≡ is_plain byte }
{
    byte >= 32 && byte != 127
}

// The loop has no early exit, so the compiler can test many bytes at once.
fn are_plain(bytes: &[u8]) -> bool
    ensures { result ≡ list_all is_plain bytes.now }
{
    let mut are_plain = true;
    for byte in bytes {
        are_plain &= is_plain(*byte);
    }
    are_plain
}

/// Whether a text is allowed in a cell: at most 4096 bytes, and no character U+0000 to U+001F or
/// U+007F.
pub fn keeps_text_rule(text: &str) -> bool
    ensures { result ≡ keeps_text_rule text.now }
{
    let bytes = text.as_bytes();
    bytes.len() <= TEXT_LIMIT && are_plain(bytes)
}
