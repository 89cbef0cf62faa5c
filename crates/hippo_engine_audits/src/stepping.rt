//! The reply to a step of an audit job.
ghost use Rattle.std.specs.Prelude.{◌≡◌, ◌++◌, OnOk};
ghost use Rattle.hippo_report.specs.declared.speaker.Speaker.TheVariants.{Console};
ghost use Rattle.hippo_engine_audits.specs.Auditing.{reading_end};
ghost use Rattle.hippo_engine_audits.specs.Stepping.{progress_line, step_text, SaysStep, TellsStep};

use crate::auditing::{append_flags, say_unread};
use crate::fetching::{append_end, append_part};
use hippo_backlog::ReadFault;
use hippo_engine_rules::{EngineFault, Reply, refuse_out_of_memory};
use hippo_engine_world::AuditJob;
use hippo_keeper::Keeper;
use hippo_report::{Format, Speaker};
use hippo_values::Memory;
use std::alloc::Global;

// Appends the number that a job has looked up to, or at its end the number of flags that it found.
fn append_progress(job: &AuditJob, reply: &mut Reply) -> Result<(), Memory>
    ensures { OnOk result (reply.new ≡ reply.old ++ progress_line job.now) }
{
    if job.at_end() {
        append_end(0, job.flag_count(), reply)
    } else {
        append_part(0, job.place(), reply)
    }
}

// Replaces the reply by that of a step: the waiting flags, and the job's progress.
fn print_step(
    alloc: Global,
    format: Format,
    job: &AuditJob,
    reply: &mut Reply,
) -> Result<(), Memory>
    ensures { OnOk result (reply.new ≡ step_text format job.now) }
{
    reply.clear();
    append_flags(alloc, format, job.waiting().as_slice(), reply)?;
    append_progress(job, reply)
}

// Replies with what a job found, after which no flag waits; or that memory ran out, and the flags
// wait.
fn say_step(alloc: Global, format: Format, job: &mut AuditJob, reply: &mut Reply)
    ensures { SaysStep format job.old job.new reply.new }
{
    match print_step(alloc, format, job, reply) {
        Ok(()) => job.written(),
        Err(Memory) => refuse_out_of_memory(Speaker::Console, reply),
    }
}

/// Writes the reply to a step of an audit job, given the step's result: the waiting flags, after
/// which no flag waits, and the job's progress; or that memory ran out, and the flags wait. Returns
/// `EngineFault::Keeper` or `EngineFault::Damaged` if the step failed with that fault.
pub fn tell_step(
    alloc: Global,
    format: Format,
    looked: Result<(), ReadFault>,
    job: &mut AuditJob,
    reply: &mut Reply,
) -> Result<(), EngineFault>
    ensures ended { result ≡ reading_end looked }
    ensures told { TellsStep looked format job.old job.new reply.new }
{
    match looked {
        Ok(()) => {
            say_step(alloc, format, job, reply);
            Ok(())
        }
        Err(fault) => say_unread(fault, reply),
    }
}
