//! Changes: statements that add an entry to the history.
ghost use Rattle.std.specs.Prelude.{◌≢◌, ℕ, ◌^◌, ◌<◌, Err};
ghost use Rattle.hippo_replay.specs.Standing.{MayFollow};
ghost use Rattle.hippo_stmt_lines.specs.Commands.{Command};
ghost use Rattle.hippo_engine_rules.specs.declared.faults.EngineFault.TheVariants.{Write as WriteFailed};
ghost use Rattle.hippo_engine.specs.Carrying.{AtWork, Carries};
ghost use Rattle.hippo_engine.specs.Changing.{Changes};

use crate::engine::Engine;
use hippo_engine_rules::{EngineFault, refuse, say_number};
use hippo_keeper::{Keeper, KeeperFault};
use hippo_model::Entry;
use hippo_report::{Refusal, Speaker};
use hippo_values::Boxed;
use std::alloc::Global;

impl Engine {
    // Writes the reply with the entry's number, has the watches count the change, and records the
    // entry. When out of memory, replies with that refusal instead and restores the watches'
    // counts.
    fn record_change<P: Keeper>(
        &mut self,
        alloc: Global,
        keeper: &mut P,
        entry: &Entry,
    ) -> Result<(), EngineFault>
        requires at_work { AtWork self.old (P.state keeper.old) }
        requires number { entry.now.seq < 2 ^ 63 }
        requires follows { MayFollow self.old.state entry.now }
        ensures carries { (command : Command) (steps : ℕ) → Changes command entry.now self.old
            → Carries command result self.old self.new (P.state keeper.old) (P.state keeper.new)
            steps steps }
        ensures unwritten { result ≢ Err WriteFailed }
    {
        say_number(0, "ok", entry.seq, &mut self.reply);
        self.world.take_in(&self.state.tables, &entry.act);
        match self.state.record(alloc, keeper, entry) {
            Ok(()) => Ok(()),
            Err(KeeperFault::Failed) => Err(EngineFault::Keeper),
            Err(KeeperFault::Memory) => {
                self.world.take_back(&self.state.tables, &entry.act);
                refuse(Speaker::Console, &Refusal::Memory, &mut self.reply);
                Ok(())
            }
        }
    }

    /// Adds an entry to the history and writes the reply. When out of memory, adds nothing and
    /// replies with that refusal. Returns `EngineFault::Keeper` only if the keeper failed.
    pub fn change<P: Keeper>(
        &mut self,
        alloc: Global,
        keeper: &mut P,
        entry: Boxed<Entry>,
    ) -> Result<(), EngineFault>
        requires at_work { AtWork self.old (P.state keeper.old) }
        requires number { entry.seq < 2 ^ 63 }
        requires follows { MayFollow self.old.state entry }
        ensures carries { (command : Command) (steps : ℕ) → Changes command entry self.old
            → Carries command result self.old self.new (P.state keeper.old) (P.state keeper.new)
            steps steps }
        ensures unwritten { result ≢ Err WriteFailed }
    {
        let recorded = self.record_change(alloc, keeper, entry.get());
        drop(entry);
        recorded
    }
}
