//! The clock, sessions and cursors.
ghost use Rattle.hippo_engine_world.specs.Holding.{world_of};
ghost use Rattle.hippo_stmt_lines.specs.Commands.{Command};
ghost use Rattle.hippo_engine_checks.specs.declared.deeds.Deed.TheVariants as deeds;
ghost use Rattle.hippo_engine_checks.specs.Findings.{Does};
ghost use Rattle.hippo_engine.specs.Carrying.{IsQuiet};

use crate::engine::Engine;
use hippo_engine_rules::{refuse_out_of_memory, say_done};
use hippo_model::Pair;
use hippo_report::Speaker;
use hippo_values::{Memory, Moment, Name};
use std::alloc::Global;

impl Engine {
    /// Clears the reply: a line without a command has none.
    pub fn do_nothing(&mut self)
        ensures { (command : Command) → Does command deeds.DoNothing self.old.state
            (world_of self.old.world)
            → IsQuiet command self.old self.new }
    {
        self.reply.clear();
    }

    /// Sets the clock. Takes no memory.
    pub fn set_clock(&mut self, moment: Moment)
        ensures { (command : Command) → Does command (deeds.SetClock moment) self.old.state
            (world_of self.old.world)
            → IsQuiet command self.old self.new }
    {
        self.world.clock = moment;
        say_done(Speaker::Nobody, &mut self.reply);
    }

    /// Opens a session, or replies that memory ran out.
    pub fn log_in(&mut self, alloc: Global, session: u8, user: Name, pair: Pair)
        ensures { (command : Command) → Does command (deeds.LogIn session user pair) self.old.state
            (world_of self.old.world)
            → IsQuiet command self.old self.new }
    {
        match self.world.log_in(alloc, session, user, pair) {
            Ok(()) => say_done(Speaker::Session(session), &mut self.reply),
            Err(Memory) => refuse_out_of_memory(Speaker::Session(session), &mut self.reply),
        }
    }

    /// Closes a session. Takes no memory.
    pub fn log_out(&mut self, session: u8)
        ensures { (command : Command) → Does command (deeds.LogOut session) self.old.state
            (world_of self.old.world)
            → IsQuiet command self.old self.new }
    {
        self.world.log_out(session);
        say_done(Speaker::Session(session), &mut self.reply);
    }

    /// Closes a cursor. Takes no memory.
    pub fn close_cursor(&mut self, session: u8, cursor: u8)
        ensures { (command : Command) → Does command (deeds.CloseCursor session cursor)
            self.old.state (world_of self.old.world)
            → IsQuiet command self.old self.new }
    {
        self.world.close_cursor(session, cursor);
        say_done(Speaker::Session(session), &mut self.reply);
    }
}
