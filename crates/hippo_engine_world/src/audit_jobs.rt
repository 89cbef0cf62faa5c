//! Audit jobs. Each has an examiner that brings rows forward from question to question.
ghost use Rattle.std.specs.Prelude.{◌≡◌, ◌==◌, [], true, bytes_eq};
ghost use Rattle.std.specs.List.{IsDistinct};
ghost use Rattle.hippo_keeper.specs.Keeping.{IsReady};
ghost use Rattle.hippo_audit_job.specs.Jobs.{HasStepped};
ghost use Rattle.hippo_combine.specs.Combining.{combine_terms};
ghost use Rattle.hippo_engine_world.specs.Auditing.{HasBegun};

use hippo_audit_job::{Job, Past};
use hippo_backlog::ReadFault;
use hippo_combine::Combine;
use hippo_keeper::{CountedKeeper, Steps};
use hippo_model::{Audit, Flags};
use std::alloc::Global;
use std::marker::Model;
use std::sync::ledger::Ledger;

/// An audit of the first entries of a history. It looks at the questions of its period in steps;
/// the way in which these are cut does not change its flags. It may be stepped whatever the keeper
/// has returned.
#[derive(Drop)]
pub struct AuditJob {
    job: Job<Combine>,
}

impl Model for AuditJob {
    ghost use Rattle.hippo_audit_job.specs.Jobs.{IsSoundJob};
    ghost use Rattle.hippo_audit_job.specs.contracts.jobs.Job as jobs;
    ghost use Rattle.hippo_combine.specs.Combining.{combine_terms};
    ghost use Rattle.hippo_combine.specs.contracts.combine.Combine as combine;
    ghost use Rattle.hippo_engine_world.specs.Auditing.{HeldJob};

    ghost Value = { HeldJob };

    ghost coded = { (jobs.the_row combine.the_row).coded };

    ghost view = { λ audit. audit.job };

    ghost invariant = { λ audit. IsSoundJob combine_terms audit.job };
}

impl AuditJob {
    /// A job over the first `length` entries, before its first step. Takes no memory.
    pub fn begin(alloc: Global, audit: Audit, length: u64) -> AuditJob
        requires differ { IsDistinct bytes_eq audit.tables }
        ensures begun { HasBegun audit length result }
    {
        AuditJob {
            job: Job::begin(alloc, audit, length, Combine::new(alloc)),
        }
    }

    /// Whether the job has looked at all of its entries.
    pub fn at_end(&self) -> bool
        ensures { result ≡ (self.now.place == self.now.length) }
    {
        self.job.at_end()
    }

    /// The number of the last entry that the job has looked at; 0 before its first step.
    pub fn place(&self) -> u64
        ensures { result ≡ self.now.place }
    {
        self.job.place()
    }

    /// The number of flags that the job found, including those that are written already.
    pub fn flag_count(&self) -> u64
        ensures { result ≡ self.now.found }
    {
        self.job.flag_count()
    }

    /// The flags that are not written yet, in the order of their entries' numbers.
    pub fn waiting(&self) -> &Flags
        ensures { result.now ≡ self.now.waiting }
    {
        self.job.waiting()
    }

    /// Removes all waiting flags, as they are now written. Takes no memory.
    pub fn written(&mut self)
        ensures { self.new ≡ record self.old { waiting = [] } }
    {
        self.job.written();
    }

    /// Looks at the next `count` entries, up to the job's end. Appends the flags that it finds to
    /// the waiting ones. The errors are those of `Job::step`.
    pub fn step<P: CountedKeeper<L>, L: Ledger>(
        &mut self,
        keeper: &mut P,
        alloc: Global,
        count: u32,
        past: &Past<'_>,
        steps: &mut Steps<L>,
    ) -> Result<(), ReadFault>
        requires ready { IsReady true (P.state keeper.old) }
        ensures stepped { HasStepped combine_terms count past.now result self.old self.new
            (P.state keeper.old) (P.state keeper.new) steps.old steps.new }
    {
        self.job.step(keeper, alloc, u64::from(count), past, steps)
    }
}
