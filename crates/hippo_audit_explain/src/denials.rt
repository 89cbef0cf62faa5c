//! The cells that were denied to a logged query.
ghost use Rattle.std.specs.Prelude.{◌≤◌, [], ◌∷◌, true, length, OnOk};
ghost use Rattle.hippo_model.specs.Versions.{versions};
ghost use Rattle.hippo_keeper.specs.Keeping.{IsReady};
ghost use Rattle.hippo_audit_explain.specs.Denying.{FitsTable, FitsQuery, FitsText, one_table, tables_denials, text_denials};
ghost use Rattle.hippo_audit_explain.specs.Denying.{one_count, tables_versions, MayRead, ReadsDenials, Denies};

use crate::faults::{DenialsFault, fault_of};
use crate::rows::{Denied, RulesThen, list_table};
use hippo_backlog::{ReadFault, snapshot};
use hippo_keeper::{CountedKeeper, Steps};
use hippo_model::{Act, Entry, Query, Schema};
use hippo_policy::PolicyBook;
use hippo_typing::read_meaning;
use hippo_typing_catalog::Catalog;
use hippo_values::{Memory, Name, Sequence};
use std::alloc::Global;
use std::sync::ledger::Ledger;

// What is searched for: the cells that were denied to a logged query by the rules of its time, at
// most `limit` of them.
#[derive(Clone, Copy)]
struct Wanted<'s, 'a> {
    rules: RulesThen<'s>,
    catalog: &'a Catalog,
    text: &'s str,
    limit: usize,
}

// Adds the denied cells of a table. Reads the table's rows as they were.
fn read_table<'a, P: CountedKeeper<L>, L: Ledger>(
    keeper: &mut P,
    alloc: Global,
    wanted: &Wanted<'_, 'a>,
    query: &Query,
    schema: &'a Schema,
    cells: &mut Sequence<Denied<'a>>,
    steps: &mut Steps<L>,
) -> Result<(), DenialsFault>
    requires may { MayRead wanted.now.limit cells.old (P.state keeper.old) }
    ensures reads { ReadsDenials (FitsTable schema.now wanted.now.rules.count
        wanted.now.rules.book.now)
        (one_table wanted.now.rules query.now schema.now) (one_count schema.now)
        wanted.now.limit result cells.old
        cells.new
        (P.state keeper.old) (P.state keeper.new) steps.old steps.new }
    ensures within { OnOk result (length cells.new ≤ wanted.now.limit) }
{
    let rules = &wanted.rules;
    match snapshot(keeper, alloc, schema, rules.count, steps) {
        Ok(rows) => match list_table(alloc, rules, query, schema, &rows, wanted.limit, cells) {
            Ok(()) => Ok(()),
            Err(fault) => Err(fault_of(fault)),
        },
        Err(fault) => Err(DenialsFault::Read(fault)),
    }
}

// Adds the denied cells of the table with this name.
fn read_named<'a, P: CountedKeeper<L>, L: Ledger>(
    keeper: &mut P,
    alloc: Global,
    wanted: &Wanted<'_, 'a>,
    query: &Query,
    name: &Name,
    cells: &mut Sequence<Denied<'a>>,
    steps: &mut Steps<L>,
) -> Result<(), DenialsFault>
    requires may { MayRead wanted.now.limit cells.old (P.state keeper.old) }
    ensures reads { ReadsDenials (FitsQuery (name.now ∷ []) wanted.now.catalog.now.names
        wanted.now.rules.count wanted.now.rules.book.now)
        (tables_denials wanted.now.rules query.now (name.now ∷ []))
        (tables_versions (name.now ∷ [])) wanted.now.limit
        result cells.old
        cells.new (P.state keeper.old) (P.state keeper.new) steps.old steps.new }
    ensures within { OnOk result (length cells.new ≤ wanted.now.limit) }
{
    match wanted.catalog.table(name) {
        None => Err(DenialsFault::Read(ReadFault::Damaged(wanted.rules.number))),
        Some(schema) => read_table(keeper, alloc, wanted, query, schema, cells, steps),
    }
}

// Adds the denied cells of a query's tables, in the order of FROM.
fn read_tables<'a, P: CountedKeeper<L>, L: Ledger>(
    keeper: &mut P,
    alloc: Global,
    wanted: &Wanted<'_, 'a>,
    query: &Query,
    cells: &mut Sequence<Denied<'a>>,
    steps: &mut Steps<L>,
) -> Result<(), DenialsFault>
    requires may { MayRead wanted.now.limit cells.old (P.state keeper.old) }
    ensures reads { ReadsDenials (FitsQuery query.now.tables wanted.now.catalog.now.names
        wanted.now.rules.count wanted.now.rules.book.now)
        (tables_denials wanted.now.rules query.now query.now.tables)
        (tables_versions query.now.tables) wanted.now.limit result cells.old
        cells.new (P.state keeper.old) (P.state keeper.new) steps.old steps.new }
    ensures within { OnOk result (length cells.new ≤ wanted.now.limit) }
{
    for name in query.tables.as_slice() {
        match read_named(keeper, alloc, wanted, query, name, cells, steps) {
            Ok(()) => {}
            Err(fault) => return Err(fault),
        }
    }
    Ok(())
}

// Adds the denied cells of the query that the text means.
fn read_text<'a, P: CountedKeeper<L>, L: Ledger>(
    keeper: &mut P,
    alloc: Global,
    wanted: &Wanted<'_, 'a>,
    cells: &mut Sequence<Denied<'a>>,
    steps: &mut Steps<L>,
) -> Result<(), DenialsFault>
    requires may { MayRead wanted.now.limit cells.old (P.state keeper.old) }
    ensures reads { ReadsDenials (FitsText wanted.now.text.now wanted.now.catalog.now.names
        wanted.now.rules.count wanted.now.rules.book.now)
        (text_denials wanted.now.rules wanted.now.text.now) versions wanted.now.limit result
        cells.old cells.new
        (P.state keeper.old) (P.state keeper.new) steps.old steps.new }
    ensures within { OnOk result (length cells.new ≤ wanted.now.limit) }
{
    match read_meaning(alloc, wanted.catalog, wanted.text) {
        Ok(Some(query)) => {
            let result = read_tables(keeper, alloc, wanted, &query, cells, steps);
            drop(query);
            result
        }
        Ok(None) => Err(DenialsFault::Read(ReadFault::Damaged(wanted.rules.number))),
        Err(Memory) => Err(DenialsFault::Read(ReadFault::Memory)),
    }
}

/// Returns the cells that were denied to an entry of the history in the store. The names and rules
/// must be those of this history. For a logged query these are cells in the rows of its tables as
/// they were, table by table and row by row; in each row they are in the key's columns and in the
/// columns that the query names. Other entries have none. `TooMany` if there are more than `limit`.
///
/// The result is guaranteed if the store's contents are known and are a valid history. `Damaged` is
/// then never returned. `Keeper` is returned only if the keeper's count of faults rose. Each
/// version that the keeper hands over is one step.
pub fn denied_cells<'a, P: CountedKeeper<L>, L: Ledger>(
    keeper: &mut P,
    alloc: Global,
    catalog: &'a Catalog,
    book: &PolicyBook,
    entry: &Entry,
    limit: usize,
    steps: &mut Steps<L>,
) -> Result<Sequence<Denied<'a>>, DenialsFault>
    requires ready { IsReady true (P.state keeper.old) }
    ensures denies { Denies limit entry.now catalog.now.names book.now result
        (P.state keeper.old) (P.state keeper.new) steps.old steps.new }
{
    let mut cells = Sequence::new(alloc);
    match &entry.act {
        Act::Asked {
            purpose,
            recipient,
            text,
            ..
        } => {
            let text = text.as_str();
            let wanted = Wanted {
                rules: RulesThen {
                    number: entry.seq,
                    book,
                    count: entry.seq.saturating_sub(1),
                    moment: entry.moment,
                    purpose,
                    recipient,
                },
                catalog,
                text,
                limit,
            };
            match read_text(keeper, alloc, &wanted, &mut cells, steps) {
                Ok(()) => Ok(cells),
                Err(fault) => Err(fault),
            }
        }
        _ => Ok(cells),
    }
}
