//! Lists of references.
ghost use Rattle.std.specs.Prelude.{◌≡◌, ◌<◌, ◌↔◌, [], ◌∷◌, ◌++◌, length, slice_get, Some, IsTrue, OnOk, OnErr};

use crate::schema::Schema;
use hippo_values::Memory;
use std::alloc::Global;
use std::marker::Model;

/// A list of references to members that are stored elsewhere.
#[derive(Drop)]
pub struct Lent<'a, T> {
    loans: Vec<&'a T>,
}

/// The schema of each of a statement's tables, in the order of FROM.
pub type LentSchemas<'a> = Lent<'a, Schema>;

impl<'a, T> Model for Lent<'a, T> {
    ghost use Rattle.std.specs.Prelude.{List, map};

    ghost Value = { List T };

    ghost view = { λ lent. map (λ loan. loan.now) lent.loans.items };
}

impl<'a, T> Lent<'a, T> {
    /// The empty list; allocates nothing.
    pub fn new(alloc: Global) -> Lent<'a, T>
        ensures { result ≡ [] }
    {
        Lent {
            loans: Vec::new(alloc),
        }
    }

    /// Adds a reference at the end. Fails only when out of memory.
    pub fn push(&mut self, loan: &'a T) -> Result<(), Memory>
        ensures ok { OnOk result (self.new ≡ self.old ++ loan.now ∷ []) }
        ensures err { OnErr result (self.new ≡ self.old) }
    {
        self.loans.push(loan)?;
        Ok(())
    }

    /// The number of references.
    pub fn len(&self) -> usize
        ensures { result ≡ length self.now }
    {
        self.loans.len()
    }

    pub fn is_empty(&self) -> bool
        ensures { IsTrue result ↔ (self.now ≡ []) }
    {
        self.loans.is_empty()
    }

    /// The member at an index, from 0.
    pub fn get(&self, place: usize) -> &'a T
        requires { place < length self.now }
        ensures { slice_get self.now place ≡ Some result.now }
    {
        self.loans[place]
    }
}
