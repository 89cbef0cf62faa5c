//! Watches: setting and ending one.
ghost use Rattle.std.specs.Prelude.{bytes_eq};
ghost use Rattle.std.specs.List.{IsDistinct};
ghost use Rattle.hippo_engine_world.specs.Holding.{world_of};
ghost use Rattle.hippo_stmt_lines.specs.Commands.{Command};
ghost use Rattle.hippo_engine_checks.specs.declared.deeds.Deed.TheVariants as deeds;
ghost use Rattle.hippo_engine_checks.specs.Findings.{Does};
ghost use Rattle.hippo_engine.specs.Carrying.{AddsNothing};

use crate::engine::Engine;
use hippo_engine_rules::{refuse_out_of_memory, say_done, say_number};
use hippo_model::Audit;
use hippo_report::Speaker;
use hippo_values::Memory;
use hippo_watch::Watch;
use std::alloc::Global;

impl Engine {
    /// Sets a watch at a free number, or replies that memory ran out.
    pub fn watch(&mut self, alloc: Global, number: usize, audit: Audit)
        requires differ { IsDistinct bytes_eq audit.tables }
        ensures { (command : Command) → Does command (deeds.Watch number audit) self.old.state
            (world_of self.old.world)
            → AddsNothing command self.old self.new }
    {
        match Watch::new(alloc, audit, &self.state.tables) {
            Ok(watch) => {
                self.world.watches.put(number, Some(watch));
                say_number(0, "watch", number as u64, &mut self.reply);
            }
            Err(Memory) => refuse_out_of_memory(Speaker::Console, &mut self.reply),
        }
    }

    /// Ends a watch. Takes no memory.
    pub fn end_watch(&mut self, number: u8)
        ensures { (command : Command) → Does command (deeds.EndWatch number) self.old.state
            (world_of self.old.world)
            → AddsNothing command self.old self.new }
    {
        self.world.watches.put(usize::from(number), None);
        say_done(Speaker::Console, &mut self.reply);
    }
}
