//! The reply to EXPLAIN: the cells that were denied to a question.
ghost use Rattle.std.specs.Prelude.{◌≡◌, ◌⊎◌, ◌++◌, true, flat_map, OnOk};
ghost use Rattle.hippo_keeper.specs.Keeping.{IsReady};
ghost use Rattle.hippo_report.specs.declared.refusal.Refusal.TheVariants as refusals;
ghost use Rattle.hippo_report.specs.declared.speaker.Speaker.TheVariants.{Console};
ghost use Rattle.hippo_report.specs.Refusals.{refusal_line};
ghost use Rattle.hippo_engine_rules.specs.Effects.{denial_line, lines_and_count};
ghost use Rattle.hippo_engine_audits.specs.Explaining.{told_of, told_cells, explaining_end, TellsEntry};

use hippo_audit_explain::{DenialsFault, Denied, denied_cells};
use hippo_backlog::ReadFault;
use hippo_engine_rules::{EngineFault, Reply, refuse, refuse_out_of_memory};
use hippo_keeper::{CountedKeeper, Steps};
use hippo_model::Entry;
use hippo_replay::State;
use hippo_report::{Refusal, Speaker, denied_line, number_line};
use hippo_values::{Memory, Sequence};
use std::alloc::Global;
use std::sync::ledger::Ledger;

const CELL_LIMIT: usize = 100_000;

fn append_cells(cells: &[Denied<'_>], reply: &mut Reply) -> Result<(), Memory>
    ensures { OnOk result (reply.new ≡ reply.old ++ flat_map denial_line cells.now) }
{
    for cell in cells {
        denied_line(cell.table, &cell.key, cell.column, cell.rule, reply)?;
    }
    Ok(())
}

// Replaces the reply by the list of cells and their number.
fn print_cells(cells: &[Denied<'_>], reply: &mut Reply) -> Result<(), Memory>
    ensures { OnOk result (reply.new ≡ lines_and_count 0 denial_line cells.now) }
{
    reply.clear();
    append_cells(cells, reply)?;
    number_line(0, "end", cells.len() as u64, reply)
}

// Replies with the denied cells, or with the reason why they are not listed.
fn say_cells(
    found: Result<Sequence<Denied<'_>>, DenialsFault>,
    reply: &mut Reply,
) -> Result<(), EngineFault>
    ensures ended { result ≡ explaining_end (told_of found.entry) }
    ensures said { OnOk result ((reply.new ≡ told_cells found.entry)
        ⊎ (reply.new ≡ refusal_line Console refusals.Memory)) }
{
    match found {
        Ok(cells) => {
            if print_cells(cells.as_slice(), reply).is_err() {
                refuse_out_of_memory(Speaker::Console, reply);
            }
            drop(cells);
            Ok(())
        }
        Err(DenialsFault::TooMany) => {
            refuse(Speaker::Console, &Refusal::TooManyRows, reply);
            Ok(())
        }
        Err(DenialsFault::Read(ReadFault::Memory)) => {
            refuse_out_of_memory(Speaker::Console, reply);
            Ok(())
        }
        Err(DenialsFault::Read(ReadFault::Keeper)) => Err(EngineFault::Keeper),
        Err(DenialsFault::Read(ReadFault::Damaged(number))) => Err(EngineFault::Damaged(number)),
    }
}

/// Replies to the console with the cells that were denied to a question, and the rules that denied
/// them; or that they are too many, or that memory ran out. Returns `EngineFault::Keeper` only if
/// the keeper failed, and `EngineFault::Damaged` only if the store is not transparent.
pub fn tell_cells<P: CountedKeeper<L>, L: Ledger>(
    alloc: Global,
    keeper: &mut P,
    state: &State,
    entry: &Entry,
    reply: &mut Reply,
    steps: &mut Steps<L>,
) -> Result<(), EngineFault>
    requires ready { IsReady true (P.state keeper.old) }
    ensures tells { TellsEntry entry.now state.now result reply.new
        (P.state keeper.old) (P.state keeper.new) steps.old steps.new }
{
    let found = denied_cells(
        keeper,
        alloc,
        &state.catalog,
        &state.book,
        entry,
        CELL_LIMIT,
        steps,
    );
    say_cells(found, reply)
}
