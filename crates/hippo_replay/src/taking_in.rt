//! Taking in stored entries, one after another.
ghost use Rattle.std.specs.Prelude.{◌≡◌, ◌<◌, ◌+◌, true, [], ◌∷◌, OnOk};
ghost use Rattle.hippo_model.specs.Keepable.{is_keepable};
ghost use Rattle.hippo_keeper.specs.Keeping.{RisesAbove};
ghost use Rattle.hippo_replay.specs.declared.faults.LoadFault.TheVariants.{Damaged};
ghost use Rattle.hippo_replay.specs.Standing.{IsSound};
ghost use Rattle.hippo_replay.specs.TakingIn.{Follows, TakesIn};

use crate::faults::LoadFault;
use crate::state::State;
use hippo_entry::decode;
use hippo_model::{Entry, StoredEntry};
use hippo_values::Memory;
use std::alloc::Global;

impl State {
    // The place of the damage when the next entry may not follow; its number is above that of the
    // last entry.
    fn damage(&self, _number: u64) -> LoadFault
        requires room { self.now.count < _number }
        ensures { result ≡ Damaged (self.now.count + 1) }
    {
        LoadFault::Damaged(self.count + 1)
    }

    // Takes in a storable entry, if it may come next.
    fn follow(&mut self, alloc: Global, entry: &Entry) -> Result<(), LoadFault>
        requires sound { IsSound self.old }
        requires keepable { is_keepable entry.now ≡ true }
        requires room { self.old.count < entry.now.seq }
        ensures follows { Follows entry.now result self.old self.new }
        ensures count { OnOk result (self.new.count ≡ entry.now.seq) }
    {
        match self.accepts(alloc, entry) {
            Ok(true) => match self.add(alloc, entry) {
                Ok(()) => Ok(()),
                Err(Memory) => Err(LoadFault::Memory),
            },
            Ok(false) => Err(self.damage(entry.seq)),
            Err(Memory) => Err(LoadFault::Memory),
        }
    }

    // Takes in the entry that has this stored form, if there is one and it may come next.
    fn take_in(&mut self, alloc: Global, kept: &StoredEntry) -> Result<(), LoadFault>
        requires sound { IsSound self.old }
        requires room { self.old.count < kept.now.seq }
        ensures taken { TakesIn (kept.now ∷ []) result self.old self.new }
        ensures sound { OnOk result (IsSound self.new) }
        ensures count { OnOk result (self.new.count ≡ kept.now.seq) }
    {
        match decode(alloc, kept) {
            Ok(Some(entry)) => {
                let result = self.follow(alloc, &entry);
                drop(entry);
                result
            }
            Ok(None) => Err(self.damage(kept.seq)),
            Err(Memory) => Err(LoadFault::Memory),
        }
    }

    /// Takes in stored entries, one after another, up to the first damaged one.
    pub(crate) fn take_in_all(
        &mut self,
        alloc: Global,
        piece: &[StoredEntry],
    ) -> Result<(), LoadFault>
        requires sound { IsSound self.old }
        requires room { RisesAbove self.old.count piece.now }
        ensures taken { TakesIn piece.now result self.old self.new }
        ensures sound { OnOk result (IsSound self.new) }
    {
        for kept in piece {
            match self.take_in(alloc, kept) {
                Ok(()) => {}
                Err(fault) => return Err(fault),
            }
        }
        Ok(())
    }
}
