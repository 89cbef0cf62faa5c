//! Names of tables, columns, purposes, recipients, items and users.
ghost use Rattle.std.specs.Prelude.{◌≡◌, ◌≤◌, true, length, take, nat_eq, refl, Some, IsTrue, IfOk};
ghost use Rattle.std.specs.Ordering.{nat_cmp};
ghost use Rattle.std.specs.Cmp.{partial_equiv_from_equiv};
ghost use Rattle.std.specs.Cmp.Lexicographic.{pointwise, slice_cmp, nat_list_eq_equiv, nat_list_cmp_total, texts_ties, texts_po};
ghost use Rattle.std.specs.Cmp.Rules.{hashing};
ghost use Rattle.std.specs.Hash as fed;
ghost use Rattle.std.proofs.Common.{rules};
ghost use Rattle.std.specs.List.{list_all};
ghost use Rattle.hippo_values.specs.Names.{lower_case, is_word_byte, begins_with_letter, is_word, reserved_of, is_name, name_of};

use crate::keywords::reserved_of;
use crate::limits::NAME_LIMIT;
use crate::memory::{Duplicate, Memory};
use std::alloc::Global;
use std::cmp::Ordering;
use std::fmt::{self, Debug, Formatter, Write};
use std::hash::{Hash, Hasher};
use std::marker::Model;

fn is_word_byte(byte: u8) -> bool
    ensures { result ≡ is_word_byte byte }
{
    byte.is_ascii_alphabetic() || byte.is_ascii_digit() || byte == b'_'
}

fn begins_with_letter(bytes: &[u8]) -> bool
    ensures { result ≡ begins_with_letter bytes.now }
{
    match bytes {
        [] => false,
        [first, ..] => first.is_ascii_alphabetic(),
    }
}

fn has_word_bytes(bytes: &[u8]) -> bool
    ensures { result ≡ list_all is_word_byte bytes.now }
{
    bytes.iter().all(|byte| is_word_byte(*byte))
}

fn is_word(word: &str) -> bool
    ensures { result ≡ is_word word.now }
{
    let bytes = word.as_bytes();
    begins_with_letter(bytes) && has_word_bytes(bytes)
}

/// Whether a word is a valid name, in any case: a letter, then letters, digits and `_`, at most 63
/// bytes in all, and not reserved.
pub fn is_name(word: &str) -> bool
    ensures { result ≡ is_name word.now }
{
    is_word(word) && word.len() <= NAME_LIMIT && reserved_of(word).is_none()
}

// A length rounded up to a multiple of 8, but at most `NAME_LIMIT`.
fn eights_above(len: usize) -> usize
    requires { len ≤ NAME_LIMIT }
    ensures { (len ≤ result) × (result ≤ NAME_LIMIT) }
{
    ((len + 7) & !7).min(NAME_LIMIT)
}

// The bytes of a short word in lower case, followed by zeros. Eight bytes are folded at a time.
fn folded_bytes(word: &str) -> [u8; NAME_LIMIT]
    requires { length word.now ≤ NAME_LIMIT }
    ensures front { take (length word.now) result ≡ lower_case word.now }
    ensures len { length result ≡ NAME_LIMIT }
{
    let mut bytes = [0; NAME_LIMIT];
    bytes[..word.len()].copy_from_slice(word.as_bytes());
    bytes[..eights_above(word.len())].make_ascii_lowercase();
    bytes
}

/// The name of a table, column, purpose, recipient, item or user: 1 to 63 bytes in lower case,
/// stored inline.
#[derive(Drop)]
pub struct Name {
    bytes: [u8; NAME_LIMIT],
    len: u8,
}

impl Model for Name {
    ghost use Rattle.std.specs.Prelude.{◌≡◌, ◌≤◌, List, ℕ, IsTrue, length, take};
    ghost use Rattle.std.specs.List.{list_all};
    ghost use Rattle.hippo_values.specs.Names.{lower_case, is_name};

    ghost Value = { List ℕ };

    ghost view = { λ name. take name.len name.bytes };

    ghost invariant = { λ name. (name.len ≤ length name.bytes)
        × IsTrue (is_name (take name.len name.bytes))
        × (lower_case (take name.len name.bytes) ≡ take name.len name.bytes) };
}

impl Name {
    /// The name that an unreserved word spells; none if the word is too long.
    pub(crate) fn unreserved(word: &str) -> Option<Name>
        requires form { is_word word.now ≡ true }
        requires free { reserved_of word.now ≡ None }
        ensures { result ≡ name_of word.now }
    {
        if word.len() > NAME_LIMIT {
            return None;
        }
        let bytes = folded_bytes(word);
        let len = word.len() as u8;
        Some(Name { bytes, len })
    }

    /// The name that a word spells, in lower case; none if the word does not have the form of a
    /// name or is reserved.
    pub fn from_word(_alloc: Global, word: &str) -> Result<Option<Name>, Memory>
        ensures { IfOk result (λ made. made ≡ name_of word.now) }
    {
        if !is_word(word) || reserved_of(word).is_some() {
            return Ok(None);
        }
        Ok(Name::unreserved(word))
    }

    fn as_bytes(&self) -> &[u8]
        ensures bytes { result.now ≡ self.now }
        ensures form { IsTrue (is_name self.now) }
        ensures case { lower_case self.now ≡ self.now }
    {
        &self.bytes[..usize::from(self.len)]
    }

    /// The bytes of the name.
    pub fn as_str(&self) -> &str
        ensures bytes { result.now ≡ self.now }
        ensures form { IsTrue (is_name self.now) }
        ensures case { lower_case self.now ≡ self.now }
    {
        // SAFETY: A name is ASCII.
        unsafe { str::from_utf8_unchecked(self.as_bytes()) }
    }
}

impl Duplicate for Name {
    fn copy(&self, _alloc: Global) -> Result<Name, Memory> {
        Ok(Name {
            bytes: self.bytes,
            len: self.len,
        })
    }
}

impl Debug for Name {
    fn fmt<W: Write>(&self, f: &mut Formatter<W>) -> fmt::Result {
        self.as_str().fmt(f)
    }
}

impl PartialEq for Name {
    ghost eq = { pointwise nat_eq };

    ghost laws = { partial_equiv_from_equiv nat_list_eq_equiv };

    fn eq(&self, other: &Name) -> bool {
        self.as_bytes() == other.as_bytes()
    }
}

impl Eq for Name {
    ghost laws = { nat_list_eq_equiv };
}

impl PartialOrd for Name {
    ghost partial_cmp = { λ x y. Some (slice_cmp nat_cmp x y) };

    ghost laws = { texts_po };

    fn partial_cmp(&self, other: &Name) -> Option<Ordering> {
        Some(self.cmp(other))
    }
}

impl Ord for Name {
    ghost cmp = { slice_cmp nat_cmp };

    ghost total = { nat_list_cmp_total };

    ghost matches_partial_cmp = { λ x y. refl };

    ghost matches_eq = { texts_ties };

    fn cmp(&self, other: &Name) -> Ordering {
        self.as_bytes().cmp(&other.as_bytes())
    }
}

impl Hash for Name {
    ghost hash_input = { fed.str };

    ghost respects_eq = { Prim.search (hashing, rules) };

    fn hash<H: Hasher>(&self, state: &mut H) {
        self.as_str().hash(state);
    }
}
