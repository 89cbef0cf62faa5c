//! Audit jobs at the console: beginning and dropping a job.
ghost use Rattle.std.specs.Prelude.{bytes_eq};
ghost use Rattle.std.specs.List.{IsDistinct};
ghost use Rattle.hippo_stmt_lines.specs.Forms as requests;
ghost use Rattle.hippo_report.specs.declared.speaker.Speaker.TheVariants.{Console};
ghost use Rattle.hippo_stmt_lines.specs.Commands.{make_request};
ghost use Rattle.hippo_engine_world.specs.Holding.{world_of};
ghost use Rattle.hippo_engine_checks.specs.Checks.{HasJob};
ghost use Rattle.hippo_engine.specs.Carrying.{AddsNothing};
ghost use Rattle.hippo_engine.specs.Jobs.{BeginsAt};

use crate::engine::Engine;
use hippo_engine_rules::{say_done, say_number};
use hippo_engine_world::AuditJob;
use hippo_model::Audit;
use hippo_report::Speaker;
use std::alloc::Global;

impl Engine {
    /// Begins a job at a free number, over all queries that were asked so far. Takes no memory.
    pub fn begin_audit(&mut self, alloc: Global, number: usize, audit: Audit)
        requires differ { IsDistinct bytes_eq audit.tables }
        ensures { BeginsAt number audit self.old self.new }
    {
        let job = AuditJob::begin(alloc, audit, self.state.count);
        self.world.jobs.put(number, Some(job));
        say_number(0, "job", number as u64, &mut self.reply);
    }

    /// Drops the job at a number. Takes no memory.
    pub fn drop_job(&mut self, number: u8)
        requires there { HasJob (world_of self.old.world) number }
        ensures { AddsNothing (make_request Console (requests.drops number)) self.old self.new }
    {
        self.world.jobs.put(usize::from(number), None);
        say_done(Speaker::Console, &mut self.reply);
    }
}
