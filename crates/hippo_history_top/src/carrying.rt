//! The lines that carry a history on in a new store.
ghost use Rattle.std.specs.Prelude.{◌≡◌, ◌++◌, [], ◌∷◌, false, filter, reverse, Some, None, MatchOption, OnOk};
ghost use Rattle.hippo_model.specs.declared.entry.Act.TheVariants.{Insert};
ghost use Rattle.hippo_model.specs.Terms.{History};
ghost use Rattle.hippo_tables.specs.Standing.{TablesStandFor};
ghost use Rattle.hippo_keeper.specs.Keeping.{IsReady};
ghost use Rattle.hippo_history_carry.specs.Carrying.{is_carriable, entries_left};
ghost use Rattle.hippo_history_top.specs.declared.asking.View.TheVariants.{Carry as CarryView};
ghost use Rattle.hippo_history_top.specs.CarryingOn.{inserts_row, carried_lines, entries_carried};
ghost use Rattle.hippo_history_top.specs.Progress.{IsReadable, WritesPage, ShowsLoaded};
ghost use Rattle.hippo_history_top.specs.ScriptLines.{clock_line, schema_named};

use crate::asking::Bound;
use crate::births::{Born, append_birth};
use crate::endings::{ending_of, served_or};
use crate::gathering::{Gather, gather_all};
use crate::lines::{append_act, append_clock, schema_named};
use crate::printing::write_lines;
use hippo_history_carry::{is_carriable, left_backwards};
use hippo_io::Sink;
use hippo_keeper::{CountedKeeper, Steps};
use hippo_model::{Act, Entry, Schema};
use hippo_program_args::Ending;
use hippo_replay::State;
use hippo_tables::Tables;
use hippo_typing_catalog::Catalog;
use hippo_values::{Duplicate, Memory, Moment, Sequence, Txt};
use std::alloc::Global;
use std::sync::ledger::Ledger;

/// The entries that may be left of a history.
#[derive(Drop)]
struct Carriable {
    list: Sequence<Entry>,
}

impl Carriable {
    // No entries. Allocates nothing.
    fn new(alloc: Global) -> Carriable
        ensures { result.list ≡ [] }
    {
        Carriable {
            list: Sequence::new(alloc),
        }
    }

    fn push(&mut self, alloc: Global, entry: &Entry) -> Result<(), Memory>
        ensures { OnOk result (self.new.list ≡ self.old.list ++ entry.now ∷ []) }
    {
        self.list.push(entry.copy(alloc)?)
    }

    // Goes on over the next entry.
    fn add(&mut self, alloc: Global, entry: &Entry) -> Result<(), Memory>
        ensures covers { OnOk result ((read : History)
            → self.old.list ≡ filter is_carriable read
            → self.new.list ≡ filter is_carriable (read ++ entry.now ∷ [])) }
    {
        if is_carriable(entry) {
            self.push(alloc, entry)
        } else {
            Ok(())
        }
    }
}

impl Gather<Bound> for Carriable {
    ghost Covers = { λ gathered last read. gathered.list ≡ filter is_carriable read };

    fn cover(&mut self, alloc: Global, _last: &Bound, entry: &Entry) -> Result<(), Memory> {
        self.add(alloc, entry)
    }
}

// The row that an act inserts into a table.
fn born_by<'a>(schema: &'a Schema, act: &'a Act) -> Option<Born<'a>>
    ensures { MatchOption result (inserts_row act.now ≡ false) (λ born.
        (act.now ≡ Insert born.table.now born.row.now) × (born.schema.now ≡ schema.now)) }
{
    match act {
        Act::Insert { table, row } => Some(Born { schema, table, row }),
        _ => None,
    }
}

// Appends the lines that make an act on a table.
#[tactic(auto, using(crate::proofs::CarryLoops::other_lines))]
fn append_with(
    alloc: Global,
    catalog: &Catalog,
    schema: &Schema,
    act: &Act,
    out: &mut Txt,
) -> Result<(), Memory>
    requires named { schema_named catalog.now.names act.now ≡ Some schema.now }
    ensures { OnOk result (out.new ≡ out.old ++ carried_lines (Some schema.now) act.now) }
{
    match born_by(schema, act) {
        Some(born) => append_birth(alloc, &born, act, out),
        None => append_act(alloc, catalog, act, out),
    }
}

// Appends the lines that make an act.
fn append_carried(alloc: Global, catalog: &Catalog, act: &Act, out: &mut Txt) -> Result<(), Memory>
    ensures { OnOk result (out.new
        ≡ out.old ++ carried_lines (schema_named catalog.now.names act.now) act.now) }
{
    match schema_named(catalog, act) {
        Some(schema) => append_with(alloc, catalog, schema, act, out),
        None => append_act(alloc, catalog, act, out),
    }
}

fn append_entry(
    alloc: Global,
    catalog: &Catalog,
    clock: &Option<Moment>,
    entry: &Entry,
    out: &mut Txt,
) -> Result<(), Memory>
    ensures { OnOk result (out.new ≡ out.old ++ (clock_line clock.now entry.now.moment
        ++ carried_lines (schema_named catalog.now.names entry.now.act) entry.now.act)) }
{
    append_clock(clock, &entry.moment, out)?;
    append_carried(alloc, catalog, &entry.act, out)
}

// Appends the lines that make some entries, of which the last one comes first.
fn append_backwards(
    alloc: Global,
    catalog: &Catalog,
    entries: &[Entry],
    out: &mut Txt,
) -> Result<(), Memory>
    ensures { OnOk result (out.new
        ≡ out.old ++ entries_carried catalog.now.names None (reverse entries.now)) }
{
    let mut clock = None;
    for place in 0..entries.len() {
        let entry = &entries[entries.len() - 1 - place];
        append_entry(alloc, catalog, &clock, entry, out)?;
        clock = Some(entry.moment);
    }
    Ok(())
}

// Appends the lines that carry the history on of which these are the entries that may be left.
fn append_left(
    alloc: Global,
    catalog: &Catalog,
    tables: &Tables,
    entries: &[Entry],
    out: &mut Txt,
) -> Result<(), Memory>
    ensures { (history : History) → TablesStandFor tables.now history
        → OnOk result (out.new ≡ out.old ++ entries_carried catalog.now.names None
        (entries_left history entries.now)) }
{
    match left_backwards(alloc, tables, entries) {
        Ok(left) => append_backwards(alloc, catalog, left.as_slice(), out),
        Err(Memory) => Err(Memory),
    }
}

fn write_carried<K: Sink>(
    alloc: Global,
    state: &State,
    entries: &[Entry],
    sink: &mut K,
) -> Option<Ending>
    ensures writes { WritesPage (TablesStandFor state.now.tables)
        (λ history. entries_carried state.now.catalog.names None
        (entries_left history entries.now)) result
        (K.written sink.old) (K.written sink.new) (K.faults sink.old) (K.faults sink.new) }
{
    let mut lines = Txt::new(alloc);
    match append_left(alloc, &state.catalog, &state.tables, entries, &mut lines) {
        Ok(()) => write_lines(sink, lines.as_str()),
        Err(Memory) => Some(Ending::NoMemory),
    }
}

/// Shows the lines that carry on the history that a state stands for, and drops the state.
pub(crate) fn show_carried<K: Sink, P: CountedKeeper<L>, L: Ledger>(
    alloc: Global,
    state: State,
    sink: &mut K,
    keeper: &mut P,
    steps: &mut Steps<L>,
) -> Ending
    requires readable { IsReadable (P.state keeper.old) }
    ensures shows { ShowsLoaded state CarryView result
        (P.state keeper.old) (P.state keeper.new) (K.written sink.old) (K.written sink.new)
        (K.faults sink.old) (K.faults sink.new) steps.old steps.new }
{
    let mut carriable = Carriable::new(alloc);
    let all = Bound::Number(state.count);
    match gather_all(alloc, &all, &mut carriable, keeper, steps) {
        Ok(()) => {
            let cut = write_carried(alloc, &state, carriable.list.as_slice(), sink);
            state.close();
            served_or(cut)
        }
        Err(fault) => {
            state.close();
            ending_of(fault)
        }
    }
}
