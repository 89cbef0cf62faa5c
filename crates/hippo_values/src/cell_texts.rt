//! The texts of cells. Short texts are stored inline in the value.
ghost use Rattle.std.specs.Prelude.{◌≡◌, ◌≤◌, length, nat_eq, refl, Some, IsOk, IfOk};
ghost use Rattle.std.specs.Ordering.{nat_cmp};
ghost use Rattle.std.specs.Cmp.{partial_equiv_from_equiv};
ghost use Rattle.std.specs.Cmp.Lexicographic.{pointwise, slice_cmp, nat_list_eq_equiv, nat_list_cmp_total, texts_ties, texts_po};
ghost use Rattle.std.specs.Cmp.Rules.{hashing};
ghost use Rattle.std.specs.Hash as fed;
ghost use Rattle.std.proofs.Common.{rules};
ghost use Rattle.hippo_values.specs.CellTexts.{held_text};
ghost use Rattle.hippo_values.specs.Limits.{short_text_limit};

use crate::memory::{Duplicate, Memory};
use std::alloc::Global;
use std::cmp::Ordering;
use std::fmt::{self, Debug, Formatter, Write};
use std::hash::{Hash, Hasher};
use std::marker::Model;
use std::rc::RcStr;

// Texts of up to this many bytes are stored inline.
const ROOM: usize = 22;

// A text stored inline.
#[derive(Drop)]
struct ShortText {
    len: u8,
    bytes: [u8; ROOM],
}

impl Model for ShortText {
    ghost use Rattle.std.specs.Prelude.{◌≤◌, List, ℕ, length, take};
    ghost use Rattle.std.specs.Str.{IsUtf8};

    ghost Value = { List ℕ };

    ghost view = { λ text. take text.len text.bytes };

    ghost invariant = { λ text. (text.len ≤ length text.bytes)
        × IsUtf8 (take text.len text.bytes) };
}

impl ShortText {
    fn new(text: &str) -> ShortText
        requires { length text.now ≤ ROOM }
        ensures { result ≡ text.now }
    {
        let mut bytes = [0; ROOM];
        bytes[..text.len()].copy_from_slice(text.as_bytes());
        let len = text.len() as u8;
        ShortText { len, bytes }
    }

    fn as_str(&self) -> &str
        ensures { result.now ≡ self.now }
    {
        // SAFETY: The bytes come from a `str`.
        unsafe { str::from_utf8_unchecked(&self.bytes[..usize::from(self.len)]) }
    }

    fn copy(&self) -> ShortText
        ensures { result ≡ self.now }
    {
        ShortText {
            len: self.len,
            bytes: self.bytes,
        }
    }
}

// Where a text's bytes are stored: inline, or in memory that all copies share.
#[derive(Drop)]
enum Held {
    Short(ShortText),
    Long(RcStr<Global>),
}

/// The text of a cell; contracts see it as the list of its bytes. Up to 22 bytes are stored inline;
/// a longer text is stored in memory that all its copies share.
#[derive(Drop)]
pub struct CellText {
    held: Held,
}

impl Model for CellText {
    ghost use Rattle.std.specs.Prelude.{List, ℕ};
    ghost use Rattle.hippo_values.specs.CellTexts.{held_text};

    ghost Value = { List ℕ };

    ghost view = { λ text. held_text text.held };
}

fn make_held(alloc: Global, text: &str) -> Result<Held, Memory>
    ensures made { IfOk result (λ held. held_text held ≡ text.now) }
    ensures short { length text.now ≤ ROOM → IsOk result }
{
    if text.len() <= ROOM {
        Ok(Held::Short(ShortText::new(text)))
    } else {
        Ok(Held::Long(RcStr::from_str(alloc, text)?))
    }
}

fn copy_held(held: &Held) -> Result<Held, Memory>
    ensures { IfOk result (λ made. held_text made ≡ held_text held.now) }
{
    match held {
        Held::Short(text) => Ok(Held::Short(text.copy())),
        Held::Long(text) => Ok(Held::Long(text.clone()?)),
    }
}

impl CellText {
    /// A text with the same bytes. A text of up to 22 bytes allocates nothing. Fails only when out
    /// of memory.
    pub fn from_str(alloc: Global, text: &str) -> Result<CellText, Memory>
        ensures made { IfOk result (λ made. made ≡ text.now) }
        ensures short { length text.now ≤ short_text_limit → IsOk result }
    {
        let held = make_held(alloc, text)?;
        Ok(CellText { held })
    }

    pub fn as_str(&self) -> &str
        ensures { result.now ≡ self.now }
    {
        match &self.held {
            Held::Short(text) => text.as_str(),
            Held::Long(text) => text.as_str(),
        }
    }
}

impl Duplicate for CellText {
    fn copy(&self, _alloc: Global) -> Result<CellText, Memory> {
        let held = copy_held(&self.held)?;
        Ok(CellText { held })
    }
}

impl Debug for CellText {
    fn fmt<W: Write>(&self, f: &mut Formatter<W>) -> fmt::Result {
        self.as_str().fmt(f)
    }
}

impl PartialEq for CellText {
    ghost eq = { pointwise nat_eq };

    ghost laws = { partial_equiv_from_equiv nat_list_eq_equiv };

    fn eq(&self, other: &CellText) -> bool {
        self.as_str() == other.as_str()
    }
}

impl Eq for CellText {
    ghost laws = { nat_list_eq_equiv };
}

impl PartialOrd for CellText {
    ghost partial_cmp = { λ x y. Some (slice_cmp nat_cmp x y) };

    ghost laws = { texts_po };

    fn partial_cmp(&self, other: &CellText) -> Option<Ordering> {
        Some(self.cmp(other))
    }
}

impl Ord for CellText {
    ghost cmp = { slice_cmp nat_cmp };

    ghost total = { nat_list_cmp_total };

    ghost matches_partial_cmp = { λ x y. refl };

    ghost matches_eq = { texts_ties };

    fn cmp(&self, other: &CellText) -> Ordering {
        self.as_str().cmp(other.as_str())
    }
}

impl Hash for CellText {
    ghost hash_input = { fed.str };

    ghost respects_eq = { Prim.search (hashing, rules) };

    fn hash<H: Hasher>(&self, state: &mut H) {
        self.as_str().hash(state);
    }
}
