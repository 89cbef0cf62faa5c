//! Checks of the statements that change something: the entry that each adds to the history, or why
//! it is refused.
ghost use Rattle.std.specs.Prelude.{◌≡◌, ◌^◌, ◌<◌, true, length, IfOk};
ghost use Rattle.hippo_values.specs.Moments.{is_moment};
ghost use Rattle.hippo_model.specs.Terms.{History};
ghost use Rattle.hippo_tables.specs.Finished.{finished_act};
ghost use Rattle.hippo_tables.specs.Standing.{TablesStandFor};
ghost use Rattle.hippo_report.specs.declared.speaker.Speaker.TheVariants.{Console};
ghost use Rattle.hippo_replay.specs.Standing.{Represents, MayFollow, IsTimely};
ghost use Rattle.hippo_typing_laws.specs.Written.{is_written};
ghost use Rattle.hippo_engine_checks.specs.Checks.{Finds, rows_refusal, act_made};
ghost use Rattle.hippo_engine_checks.specs.Judging.{judged_wanted, judged_change};
ghost use Rattle.hippo_engine_checks.specs.Changes.{FindsChange, wanted_in, change_in_room};

use crate::refusals::{boxed, name_refusal};
use hippo_engine_sessions::WorldView;
use hippo_model::{Act, Entry, TableFault, Wanted};
use hippo_replay::State;
use hippo_report::Refusal;
use hippo_stmt_ast::Stmt;
use hippo_tables::Tables;
use hippo_typing_catalog::Catalog;
use hippo_typing_changes::check_change;
use hippo_typing_laws::moment_fits;
use hippo_values::Boxed;
use std::alloc::Global;

fn rows_refusal(fault: TableFault) -> Refusal
    ensures { result ≡ rows_refusal fault }
{
    match fault {
        TableFault::KeyThere(number) => Refusal::KeyThere(number),
        TableFault::KeyMissing => Refusal::KeyMissing,
        TableFault::Memory => Refusal::Memory,
    }
}

// What a statement asks for, after a check of its names and types.
fn check_names(alloc: Global, catalog: &Catalog, statement: &Stmt) -> Result<Wanted, Refusal>
    ensures { Finds (λ found. found) (wanted_in catalog.now.names statement.now) result }
{
    match check_change(alloc, catalog, statement) {
        Ok(wanted) => Ok(wanted),
        Err(fault) => Err(name_refusal(fault)),
    }
}

// The act that makes the change, if the existing rows allow it.
fn check_rows(alloc: Global, tables: &Tables, wanted: Wanted) -> Result<Act, Refusal>
    ensures { (history : History) → TablesStandFor tables.now history
        → Finds (λ found. found) (act_made (finished_act history wanted)) result }
{
    match tables.finish(alloc, wanted) {
        Ok(act) => Ok(act),
        Err(fault) => Err(rows_refusal(fault)),
    }
}

// The next entry, with this act, if the history has room for it.
fn entry_in_room<W: WorldView>(
    alloc: Global,
    count: u64,
    world: &W,
    act: Act,
) -> Result<Boxed<Entry>, Refusal>
    ensures found { (history : History) → count ≡ length history
        → FindsChange history (W.seen world.now) (change_in_room history (W.seen world.now) act)
        result }
    ensures number { IfOk result (λ entry. entry.seq < 2 ^ 63) }
    ensures moment { IfOk result (λ entry. is_moment entry.moment ≡ true) }
{
    moment_fits(world.clock());
    if count < u64::from(world.limit()) {
        let entry = Entry {
            seq: count + 1,
            moment: world.clock(),
            act,
        };
        boxed(alloc, entry)
    } else {
        drop(act);
        Err(Refusal::HistoryFull)
    }
}

// The entry that makes the change, if the existing rows and the room in the history allow it.
fn entry_wanted<W: WorldView>(
    alloc: Global,
    state: &State,
    world: &W,
    wanted: Wanted,
) -> Result<Boxed<Entry>, Refusal>
    ensures found { (history : History) → Represents state.now history
        → FindsChange history (W.seen world.now)
        (judged_wanted history (W.seen world.now) wanted) result }
    ensures number { IfOk result (λ entry. entry.seq < 2 ^ 63) }
    ensures moment { IfOk result (λ entry. is_moment entry.moment ≡ true) }
{
    match check_rows(alloc, &state.tables, wanted) {
        Ok(act) => entry_in_room(alloc, state.count, world, act),
        Err(refusal) => Err(refusal),
    }
}

// The entry that a changing statement adds, or its first refusal.
fn entry_for<W: WorldView>(
    alloc: Global,
    state: &State,
    world: &W,
    statement: &Stmt,
) -> Result<Boxed<Entry>, Refusal>
    ensures found { (history : History) → Represents state.now history
        → FindsChange history (W.seen world.now)
        (judged_change history (W.seen world.now) Console statement.now) result }
    ensures number { IfOk result (λ entry. entry.seq < 2 ^ 63) }
    ensures moment { IfOk result (λ entry. is_moment entry.moment ≡ true) }
{
    match check_names(alloc, &state.catalog, statement) {
        Ok(wanted) => entry_wanted(alloc, state, world, wanted),
        Err(refusal) => Err(refusal),
    }
}

/// The entry that a changing statement of the console adds: the next one, with the clock's moment.
/// It may follow the history. Or its first refusal: its names or types are wrong, the existing rows
/// do not allow it, or the history is full. It may also be refused when out of memory.
pub(crate) fn entry_of_change<W: WorldView>(
    alloc: Global,
    state: &State,
    world: &W,
    statement: &Stmt,
) -> Result<Boxed<Entry>, Refusal>
    requires timely { IsTimely state.now (W.seen world.now).clock }
    requires written { is_written statement.now ≡ true }
    ensures found { (history : History) → Represents state.now history
        → FindsChange history (W.seen world.now)
        (judged_change history (W.seen world.now) Console statement.now) result }
    ensures number { IfOk result (λ entry. entry.seq < 2 ^ 63) }
    ensures follows { IfOk result (λ entry. MayFollow state.now entry) }
{
    entry_for(alloc, state, world, statement)
}
