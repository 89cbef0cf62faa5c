//! The values that the entries of a history set for one key, with the entries' numbers.
ghost use Rattle.std.specs.Prelude.{◌≡◌, [], ◌∷◌, ◌++◌, ◌-◌, length, take, OnOk, OnErr};
ghost use Rattle.std.specs.List.Sorted.{IsNonDecreasingBy};

use crate::last_words::Said;
use hippo_values::Memory;
use std::alloc::Global;

/// The values that entries set for one key, in the order of the entries. The numbers never
/// decrease.
#[derive(Drop)]
pub struct Sayings<W> {
    said: Vec<Said<W>>,
    ghost rises: { IsNonDecreasingBy (λ one. one.number) said.items },
}

impl<W: Drop> Sayings<W> {
    ghost use Rattle.hippo_policy.specs.Words.{latest_number, clamped_number};

    /// An empty list. Takes no memory.
    pub fn new(alloc: Global) -> Sayings<W>
        ensures { result.said.items ≡ [] }
    {
        Sayings {
            said: Vec::new(alloc),
        }
    }

    /// The values, with numbers that never decrease.
    pub fn as_slice(&self) -> &[Said<W>]
        ensures said { result.now ≡ self.now.said.items }
        ensures rises { IsNonDecreasingBy (λ one. one.number) result.now }
    {
        self.said.as_slice()
    }

    fn last_number(&self) -> u64
        ensures { result ≡ latest_number self.now.said.items }
    {
        match self.said.last() {
            None => 0,
            Some(said) => said.number,
        }
    }

    /// Appends a value. A number below the last one is raised to the last one. Fails when out of
    /// memory.
    pub fn push(&mut self, said: Said<W>) -> Result<(), Memory>
        ensures ok { OnOk result (self.new.said.items
            ≡ self.old.said.items ++ clamped_number self.old.said.items said ∷ []) }
        ensures err { OnErr result (self.new.said.items ≡ self.old.said.items) }
    {
        let Said { number, word } = said;
        let number = number.max(self.last_number());
        self.said.push(Said { number, word })?;
        Ok(())
    }

    /// Removes the last value.
    pub fn pop(&mut self)
        ensures { self.new.said.items ≡ take (length self.old.said.items - 1) self.old.said.items }
    {
        let _ = self.said.pop();
    }
}
