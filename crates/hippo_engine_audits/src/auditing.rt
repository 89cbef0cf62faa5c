//! The reply to DURING: the flags over all queries that were asked so far.
ghost use Rattle.std.specs.Prelude.{◌≡◌, ◌⊎◌, ◌++◌, true, flat_map, bytes_eq, Err as Bad, OnOk};
ghost use Rattle.std.specs.List.{IsDistinct};
ghost use Rattle.std.specs.Result.{result_map_both};
ghost use Rattle.hippo_keeper.specs.Keeping.{IsReady};
ghost use Rattle.hippo_report.specs.declared.refusal.Refusal.TheVariants as refusals;
ghost use Rattle.hippo_report_flags.specs.Flags.{flag_line};
ghost use Rattle.hippo_report.specs.declared.format.Format.{Format as Printing};
ghost use Rattle.hippo_report.specs.declared.speaker.Speaker.TheVariants.{Console};
ghost use Rattle.hippo_report.specs.Refusals.{refusal_line};
ghost use Rattle.hippo_engine_audits.specs.Auditing.{FindsFlags, reading_end, unread_end, told_flags, TellsFlags};
ghost use Rattle.hippo_engine_audits.specs.Stepping.{TellsStep};
ghost use Rattle.hippo_engine_world.specs.Auditing.{HeldJob};
ghost use Rattle.hippo_engine_rules.specs.Effects.{lines_and_count};

use hippo_audit_job::{Job, Past};
use hippo_backlog::ReadFault;
use hippo_combine::Combine;
use hippo_engine_rules::{EngineFault, Reply, refuse_out_of_memory};
use hippo_keeper::{CountedKeeper, Steps};
use hippo_model::{Audit, Flag};
use hippo_replay::State;
use hippo_report::{Format, Speaker, number_line};
use hippo_report_flags::flag_line;
use hippo_values::Memory;
use std::alloc::Global;
use std::sync::ledger::Ledger;

// A job that has looked at all queries that were asked so far.
fn looked_over<P: CountedKeeper<L>, L: Ledger>(
    alloc: Global,
    keeper: &mut P,
    state: &State,
    audit: Audit,
    steps: &mut Steps<L>,
) -> Result<Job<Combine>, ReadFault>
    requires ready { IsReady true (P.state keeper.old) }
    requires differ { IsDistinct bytes_eq audit.tables }
    ensures finds { FindsFlags audit state.now
        (result_map_both (λ job. job.waiting) (λ fault. fault) result)
        (P.state keeper.old) (P.state keeper.new) steps.old steps.new }
{
    let past = Past {
        catalog: &state.catalog,
        book: &state.book,
        count: state.count,
    };
    let mut job = Job::begin(alloc, audit, state.count, Combine::new(alloc));
    match job.step(keeper, alloc, state.count, &past, steps) {
        Ok(()) => Ok(job),
        Err(fault) => {
            drop(job);
            Err(fault)
        }
    }
}

/// Appends a line for each flag.
pub(crate) fn append_flags(
    alloc: Global,
    format: Format,
    flags: &[Flag],
    reply: &mut Reply,
) -> Result<(), Memory>
    ensures { OnOk result (reply.new ≡ reply.old ++ flat_map (flag_line format) flags.now) }
{
    for flag in flags {
        flag_line(alloc, format, flag, reply)?;
    }
    Ok(())
}

// Replaces the reply by the list of flags and their number.
fn print_flags(
    alloc: Global,
    format: Format,
    flags: &[Flag],
    reply: &mut Reply,
) -> Result<(), Memory>
    ensures { OnOk result (reply.new ≡ lines_and_count 0 (flag_line format) flags.now) }
{
    reply.clear();
    append_flags(alloc, format, flags, reply)?;
    number_line(0, "end", flags.len() as u64, reply)
}

// The result of a line whose reading of the history failed. When out of memory, the reply is that
// refusal.
pub(crate) fn say_unread(fault: ReadFault, reply: &mut Reply) -> Result<(), EngineFault>
    ensures ended { result ≡ unread_end fault }
    ensures said { OnOk result (reply.new ≡ refusal_line Console refusals.Memory) }
    ensures step { (format : Printing) (job : HeldJob)
        → TellsStep (Bad fault) format job job reply.new }
{
    match fault {
        ReadFault::Memory => {
            refuse_out_of_memory(Speaker::Console, reply);
            Ok(())
        }
        ReadFault::Keeper => Err(EngineFault::Keeper),
        ReadFault::Damaged(number) => Err(EngineFault::Damaged(number)),
    }
}

// Replies with the flags that were found, or that memory ran out.
fn say_flags(
    alloc: Global,
    format: Format,
    found: Result<Job<Combine>, ReadFault>,
    reply: &mut Reply,
) -> Result<(), EngineFault>
    ensures ended { result ≡ reading_end found }
    ensures said { OnOk result ((reply.new
        ≡ told_flags format (result_map_both (λ job. job.waiting) (λ fault. fault) found))
        ⊎ (reply.new ≡ refusal_line Console refusals.Memory)) }
{
    match found {
        Ok(job) => {
            if print_flags(alloc, format, job.waiting().as_slice(), reply).is_err() {
                refuse_out_of_memory(Speaker::Console, reply);
            }
            drop(job);
            Ok(())
        }
        Err(fault) => say_unread(fault, reply),
    }
}

/// Finds the flags of an audit over all queries that were asked so far, and replies with them, or
/// that memory ran out. Returns `EngineFault::Keeper` only if the keeper failed, and
/// `EngineFault::Damaged` only if the store is not transparent.
pub fn tell_flags<P: CountedKeeper<L>, L: Ledger>(
    alloc: Global,
    keeper: &mut P,
    state: &State,
    format: Format,
    audit: Audit,
    reply: &mut Reply,
    steps: &mut Steps<L>,
) -> Result<(), EngineFault>
    requires ready { IsReady true (P.state keeper.old) }
    requires differ { IsDistinct bytes_eq audit.tables }
    ensures tells { TellsFlags format audit state.now result reply.new
        (P.state keeper.old) (P.state keeper.new) steps.old steps.new }
{
    let found = looked_over(alloc, keeper, state, audit, steps);
    say_flags(alloc, format, found, reply)
}
