//! The denied cells of rows.
ghost use Rattle.std.specs.Prelude.{◌≡◌, ◌≤◌, ◌++◌, length, take, Some, IfOk, OnOk};
ghost use Rattle.hippo_model.specs.Terms.{History};
ghost use Rattle.hippo_model.specs.Denials.{denial_by};
ghost use Rattle.hippo_model.specs.Verdicts.{verdict};
ghost use Rattle.hippo_policy.specs.Books.{BookRepresents};
ghost use Rattle.hippo_audit_explain.specs.Listing.{rules_context, denial_columns, listed_denials, ListsRows};

use crate::columns::{Listed, listed_columns};
use crate::faults::ListFault;
use hippo_model::{BornRow, Cells, Query, Schema, Verdict, copied_key};
use hippo_policy::PolicyBook;
use hippo_tables_rows::RowSet;
use hippo_values::{Memory, Moment, Name, Sequence};
use std::alloc::Global;
use std::marker::Model;

/// A denied cell: its table, its row's key, its column, and the number of the rule that denied it.
/// The number is 0 if no rule ever named the cell.
#[derive(Drop)]
pub struct Denied<'a> {
    pub table: &'a Name,
    pub key: Cells,
    pub column: &'a Name,
    pub rule: u64,
}

impl<'a> Model for Denied<'a> {
    ghost use Rattle.hippo_model.specs.Denials.{Denial};

    ghost Value = { Denial };

    ghost view = { λ denied. record {
      table = denied.table.now;
      key = denied.key;
      column = denied.column.now;
      rule = denied.rule;
    } };
}

/// The rules of the first `count` entries, those before entry `number`, for a purpose and a
/// recipient at a moment.
#[derive(Clone, Copy)]
pub struct RulesThen<'a> {
    pub number: u64,
    pub book: &'a PolicyBook,
    pub count: u64,
    pub moment: Moment,
    pub purpose: &'a Name,
    pub recipient: &'a Name,
}

// The cell of a row, if the verdict denies it.
fn denied_by<'a>(
    alloc: Global,
    schema: &'a Schema,
    column: &'a Name,
    kept: &BornRow,
    verdict: Verdict,
) -> Result<Option<Denied<'a>>, Memory>
    ensures { IfOk result (λ denied.
        denied ≡ denial_by schema.now kept.now.row column.now verdict) }
{
    match verdict {
        Verdict::Shown => Ok(None),
        Verdict::Denied(rule) => {
            let key = copied_key(alloc, schema.key.as_slice(), kept.row.as_slice())?;
            Ok(Some(Denied {
                table: &schema.name,
                key,
                column,
                rule,
            }))
        }
    }
}

impl RulesThen<'_> {
    fn verdict(&self, schema: &Schema, kept: &BornRow, column: usize) -> Verdict
        ensures { (history : History) → BookRepresents self.now.book.now history
            → result ≡ verdict (take self.now.count history) (rules_context self.now) schema.now
            kept.now column }
    {
        self.book.verdict(
            self.count,
            self.moment,
            self.purpose,
            self.recipient,
            schema,
            &kept.row,
            kept.born,
            column,
        )
    }

    // Adds the denied cells of a row.
    fn list_row<'a>(
        &self,
        alloc: Global,
        schema: &'a Schema,
        listed: &[Listed<'a>],
        kept: &BornRow,
        cells: &mut Sequence<Denied<'a>>,
    ) -> Result<(), Memory>
        ensures { OnOk result ((history : History) → BookRepresents self.now.book.now history
            → cells.new ≡ cells.old ++ listed_denials (take self.now.count history)
            (rules_context self.now) schema.now listed.now kept.now) }
    {
        for column in listed {
            let verdict = self.verdict(schema, kept, column.place);
            if let Some(denied) = denied_by(alloc, schema, &column.column.name, kept, verdict)? {
                cells.push(denied)?;
            }
        }
        Ok(())
    }
}

// Adds the denied cells of rows. Fails if there are more than `limit`.
fn list_rows<'a>(
    alloc: Global,
    rules: &RulesThen<'_>,
    schema: &'a Schema,
    listed: &[Listed<'a>],
    rows: &RowSet,
    limit: usize,
    cells: &mut Sequence<Denied<'a>>,
) -> Result<(), ListFault>
    requires within { length cells.old ≤ limit }
    ensures lists { ListsRows limit rules.now schema.now listed.now rows.now.rows result cells.old
        cells.new }
    ensures within { OnOk result (length cells.new ≤ limit) }
{
    for place in 0..rows.len() {
        let kept = rows.born_row(place);
        if rules.list_row(alloc, schema, listed, kept, cells).is_err() {
            return Err(ListFault::Memory);
        }
        if cells.len() > limit {
            return Err(ListFault::TooMany);
        }
    }
    Ok(())
}

/// Adds the denied cells of a table's rows that EXPLAIN lists for a query. Fails if there are more
/// than `limit`.
pub(crate) fn list_table<'a>(
    alloc: Global,
    rules: &RulesThen<'_>,
    query: &Query,
    schema: &'a Schema,
    rows: &RowSet,
    limit: usize,
    cells: &mut Sequence<Denied<'a>>,
) -> Result<(), ListFault>
    requires within { length cells.old ≤ limit }
    ensures lists { ListsRows limit rules.now schema.now (denial_columns query.now schema.now)
        rows.now.rows result cells.old cells.new }
    ensures within { OnOk result (length cells.new ≤ limit) }
{
    match listed_columns(alloc, query, schema) {
        Ok(listed) => list_rows(alloc, rules, schema, listed.as_slice(), rows, limit, cells),
        Err(Memory) => Err(ListFault::Memory),
    }
}
