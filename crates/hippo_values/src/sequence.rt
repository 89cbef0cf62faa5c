//! Lists that contracts see as the list of their members.
ghost use Rattle.std.specs.Prelude.{◌≡◌, [], ◌∷◌, ◌++◌, ◌<◌, ◌↔◌, length, take, slice_get, Some, IsTrue, IfOk, OnOk, OnErr};
ghost use Rattle.std.specs.Hash as fed;
ghost use Rattle.std.specs.Hash.{items_Alike};
ghost use Rattle.std.specs.Cmp.Lexicographic.{pointwise, slice_cmp, slice_partial_cmp, lists_per, lists_equiv, lists_po, lists_total, lists_agrees, lists_ties};

use crate::memory::{Duplicate, Memory};
use std::alloc::Global;
use std::cmp::Ordering;
use std::fmt::{self, Debug, Formatter, Write};
use std::hash::{Hash, Hasher};
use std::marker::Model;

/// A `Vec` that contracts see as the list of its members. Contracts say nothing about its capacity.
#[derive(Drop)]
pub struct Sequence<T> {
    members: Vec<T>,
}

impl<T> Model for Sequence<T> {
    ghost use Rattle.std.specs.Prelude.{List};
    ghost use Rattle.std.specs.Coded.{coded_list};

    ghost Value = { List T };

    ghost coded = { coded_list T.code };

    ghost view = { λ sequence. sequence.members.items };
}

impl<T> Sequence<T> {
    /// The empty list; allocates nothing.
    pub fn new(alloc: Global) -> Sequence<T>
        ensures { result ≡ [] }
    {
        Sequence {
            members: Vec::new(alloc),
        }
    }

    /// The members of a `Vec`; keeps the `Vec`'s memory.
    pub fn from_vec(members: Vec<T>) -> Sequence<T>
        ensures { result ≡ members.items }
    {
        Sequence { members }
    }

    /// The members as a `Vec`; keeps the list's memory.
    pub fn into_vec(self) -> Vec<T>
        ensures { result.items ≡ self }
    {
        let Sequence { members } = self;
        members
    }

    pub fn as_slice(&self) -> &[T]
        ensures { result.now ≡ self.now }
    {
        self.members.as_slice()
    }

    pub fn len(&self) -> usize
        ensures { result ≡ length self.now }
    {
        self.members.len()
    }

    pub fn is_empty(&self) -> bool
        ensures { IsTrue result ↔ (self.now ≡ []) }
    {
        self.members.is_empty()
    }

    /// The member at an index, from 0.
    pub fn get(&self, place: usize) -> &T
        requires { place < length self.now }
        ensures { slice_get self.now place ≡ Some result.now }
    {
        &self.members[place]
    }
}

impl<T: Copy> Sequence<T> {
    /// A list with the same members. Fails only when out of memory.
    pub fn from_slice(alloc: Global, members: &[T]) -> Result<Sequence<T>, Memory>
        ensures { IfOk result (λ made. made ≡ members.now) }
    {
        Ok(Sequence {
            members: Vec::from_slice(alloc, members)?,
        })
    }
}

impl<T: Drop> Sequence<T> {
    /// The empty list, with capacity for this many members. Fails only when out of memory.
    pub fn with_capacity(alloc: Global, capacity: usize) -> Result<Sequence<T>, Memory>
        ensures { IfOk result (λ made. made ≡ []) }
    {
        Ok(Sequence {
            members: Vec::with_capacity(alloc, capacity)?,
        })
    }

    /// Adds a member at the end. Fails only when out of memory.
    pub fn push(&mut self, member: T) -> Result<(), Memory>
        ensures ok { OnOk result (self.new ≡ self.old ++ member ∷ []) }
        ensures err { OnErr result (self.new ≡ self.old) }
    {
        self.members.push(member)?;
        Ok(())
    }

    /// Keeps the first `len` members and drops the rest.
    pub fn truncate(&mut self, len: usize)
        ensures { self.new ≡ take len self.old }
    {
        self.members.truncate(len);
    }

    /// Removes all members.
    pub fn clear(&mut self)
        ensures { self.new ≡ [] }
    {
        self.members.clear();
    }
}

fn copied_members<T: Duplicate + Drop>(alloc: Global, members: &[T]) -> Result<Vec<T>, Memory>
    ensures { IfOk result (λ made. made.items ≡ members.now) }
{
    let mut made = Vec::with_capacity(alloc, members.len())?;
    for member in members {
        made.push(member.copy(alloc)?)?;
    }
    Ok(made)
}

impl<T: Duplicate + Drop> Duplicate for Sequence<T> {
    fn copy(&self, alloc: Global) -> Result<Sequence<T>, Memory> {
        let members = copied_members(alloc, self.as_slice())?;
        Ok(Sequence { members })
    }
}

impl<T: Debug> Debug for Sequence<T> {
    fn fmt<W: Write>(&self, f: &mut Formatter<W>) -> fmt::Result {
        self.members.fmt(f)
    }
}

impl<T: PartialEq> PartialEq for Sequence<T> {
    ghost eq = { pointwise T.eq };

    ghost laws = { lists_per T.laws };

    fn eq(&self, other: &Sequence<T>) -> bool {
        self.as_slice() == other.as_slice()
    }
}

impl<T: Eq> Eq for Sequence<T> {
    ghost laws = { lists_equiv T.Eq.laws };
}

impl<T: PartialOrd> PartialOrd for Sequence<T> {
    ghost partial_cmp = { slice_partial_cmp T.partial_cmp };

    ghost laws = { lists_po T.PartialOrd.laws };

    fn partial_cmp(&self, other: &Sequence<T>) -> Option<Ordering> {
        self.as_slice().partial_cmp(&other.as_slice())
    }
}

impl<T: Ord> Ord for Sequence<T> {
    ghost cmp = { slice_cmp T.cmp };

    ghost total = { lists_total T.total };

    ghost matches_partial_cmp = { lists_agrees T.matches_partial_cmp };

    ghost matches_eq = { lists_ties T.cmp T.matches_eq };

    fn cmp(&self, other: &Sequence<T>) -> Ordering {
        self.as_slice().cmp(&other.as_slice())
    }
}

impl<T: Hash> Hash for Sequence<T> {
    ghost hash_input = { fed.slice T.hash_input };

    ghost respects_eq = { (items_Alike (record { fed = T.respects_eq })).fed };

    fn hash<H: Hasher>(&self, state: &mut H) {
        self.as_slice().hash(state);
    }
}
