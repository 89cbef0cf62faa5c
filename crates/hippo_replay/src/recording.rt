//! Recording an entry: the state takes it in, and the keeper stores it after the others.
ghost use Rattle.std.specs.Prelude.{◌≡◌, true, false, [], ◌∷◌, ◌++◌, OnOk};
ghost use Rattle.hippo_model.specs.Terms.{History};
ghost use Rattle.hippo_model.specs.Validity.{may_follow};
ghost use Rattle.hippo_keeper.specs.Answering.{has_failed, is_out_of_memory};
ghost use Rattle.hippo_typing.specs.Meanings.{meaning};
ghost use Rattle.hippo_replay.specs.declared.state.State.{State as StateOf};
ghost use Rattle.hippo_replay.specs.Standing.{Represents, IsSound, MayFollow, IsNext, takes_no_memory, Remembers};
ghost use Rattle.hippo_replay.specs.Recording.{MayKeep, MayAppend, KeepsEntry, Records};

use crate::state::State;
use hippo_entry::encode;
use hippo_keeper::{Keeper, KeeperFault};
use hippo_model::{Act, Entry};
use hippo_values::Memory;
use std::alloc::Global;

// Whether the state takes in an act without allocating memory.
fn takes_no_memory(act: &Act) -> bool
    ensures { result ≡ takes_no_memory act.now }
{
    match act {
        Act::Delete { .. } => true,
        Act::Asked { .. } => true,
        _ => false,
    }
}

// Stores an entry in its stored form.
fn append<P: Keeper>(alloc: Global, keeper: &mut P, entry: &Entry) -> Result<(), KeeperFault>
    requires may { MayAppend entry.now (P.state keeper.old) }
    ensures keeps { (state : StateOf) → MayFollow state entry.now
        → KeepsEntry entry.now result state (P.state keeper.old) (P.state keeper.new) }
{
    match encode(alloc, entry) {
        Ok(kept) => keeper.append(alloc, kept),
        Err(Memory) => Err(KeeperFault::Memory),
    }
}

impl State {
    /// Stores an entry after the others. The entry must be one that may come next; this is not
    /// checked. On `Memory`, which means out of memory, what is stored is unchanged. `Failed` is
    /// returned only when the keeper failed; the entry may or may not be stored then.
    pub fn keep<P: Keeper>(
        &self,
        alloc: Global,
        keeper: &mut P,
        entry: &Entry,
    ) -> Result<(), KeeperFault>
        requires may { MayKeep entry.now self.now (P.state keeper.old) }
        ensures keeps { KeepsEntry entry.now result self.now (P.state keeper.old)
            (P.state keeper.new) }
    {
        append(alloc, keeper, entry)
    }

    // Takes in the next entry, which allocates no memory.
    fn add_at_once(&mut self, alloc: Global, entry: &Entry)
        requires next { IsNext self.old entry.now }
        requires room { takes_no_memory entry.now.act ≡ true }
        ensures stands { (history : History) → Represents self.old history
            → may_follow meaning history entry.now ≡ true
            → Represents self.new (history ++ entry.now ∷ []) }
    {
        self.add(alloc, entry).unwrap();
    }

    // Stores the entry that was taken in last. Takes it back when out of memory.
    fn keep_last<P: Keeper>(
        &mut self,
        alloc: Global,
        keeper: &mut P,
        entry: &Entry,
    ) -> Result<(), KeeperFault>
        requires may { MayAppend entry.now (P.state keeper.old) }
        ensures keeps { (state : StateOf) → MayFollow state entry.now
            → KeepsEntry entry.now result state (P.state keeper.old) (P.state keeper.new) }
        ensures ok { OnOk result (self.new ≡ self.old) }
        ensures memory { is_out_of_memory result ≡ true → (history : History)
            → Remembers self.old history entry.now
            → Represents self.new history }
    {
        match append(alloc, keeper, entry) {
            Ok(()) => Ok(()),
            Err(KeeperFault::Failed) => Err(KeeperFault::Failed),
            Err(KeeperFault::Memory) => {
                self.take_back();
                Err(KeeperFault::Memory)
            }
        }
    }

    /// Takes in an entry and stores it. The entry must be one that comes next; this is not checked.
    /// On `Memory`, which means out of memory, the state and the store are unchanged. `Failed` is
    /// returned only when the keeper failed; the entry may or may not be stored then, and the state
    /// is no longer of use.
    pub fn record<P: Keeper>(
        &mut self,
        alloc: Global,
        keeper: &mut P,
        entry: &Entry,
    ) -> Result<(), KeeperFault>
        requires may { MayKeep entry.now self.old (P.state keeper.old) }
        ensures records { Records entry.now result self.old self.new (P.state keeper.old)
            (P.state keeper.new) }
        ensures sound { has_failed result ≡ false → IsSound self.new }
    {
        if takes_no_memory(&entry.act) {
            match self.keep(alloc, keeper, entry) {
                Ok(()) => {
                    self.add_at_once(alloc, entry);
                    Ok(())
                }
                Err(fault) => Err(fault),
            }
        } else {
            match self.add(alloc, entry) {
                Ok(()) => self.keep_last(alloc, keeper, entry),
                Err(Memory) => Err(KeeperFault::Memory),
            }
        }
    }
}
