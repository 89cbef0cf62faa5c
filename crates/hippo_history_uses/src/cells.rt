//! Which values of a row a query saw, and which were denied to it.
ghost use Rattle.std.specs.Prelude.{◌≡◌, [], slice_index_or, IfOk};
ghost use Rattle.hippo_model.specs.Columns.{named_column, same_column};
ghost use Rattle.hippo_history_uses.specs.Cells.{names_column, answers_column, tests_column, is_in_part, seen_by, denied_by};

use crate::asked::AskedThen;
use crate::conditions::audit_of_rows;
use hippo_audit_job::names_all;
use hippo_history_formats::{Access, DeniedCell, SeenCell};
use hippo_model::{BornRow, Column, CondOf, Names, Query, Ref, Schema, Verdict, copied_key};
use hippo_values::{Duplicate, Memory, Moment, Name, Sequence, Value};
use std::alloc::Global;

/// The parts of a query that name columns.
#[derive(Clone, Copy)]
pub(crate) enum Part {
    /// The select list, the arguments of MIN and MAX, and GROUP BY.
    Answer,
    /// ON and WHERE, for the columns that are in no other part.
    Conditions,
}

// The name of the table at a place in FROM, or an empty name if there is none.
fn table_name(tables: &Names, place: usize) -> &str
    ensures { result.now ≡ slice_index_or tables.now place [] }
{
    match tables.as_slice().get(place) {
        None => "",
        Some(table) => table.as_str(),
    }
}

// Whether a column of a statement is this one.
fn is_same(table: &Name, place: usize, tables: &Names, column: &Ref) -> bool
    ensures { result ≡ same_column (table.now, place) (named_column tables.now column.now) }
{
    table.as_str() == table_name(tables, column.table) && place == column.column
}

// Whether a column is in a query's select list, in an argument of MIN or MAX, or in GROUP BY.
fn answers_column(query: &Query, table: &Name, place: usize) -> bool
    ensures { result ≡ answers_column query.now table.now place }
{
    for item in query.items.as_slice() {
        if is_same(table, place, &query.tables, item) {
            return true;
        }
    }
    false
}

// Whether a query names a column. An audit of the column then has the query as a candidate.
fn names_column(
    alloc: Global,
    query: &Query,
    table: &Name,
    place: usize,
    moment: Moment,
) -> Result<bool, Memory>
    ensures { IfOk result (λ named. named ≡ names_column query.now table.now place) }
{
    let mut columns = Sequence::new(alloc);
    columns.push(Ref {
        table: 0,
        column: place,
    })?;
    let audit = audit_of_rows(
        alloc,
        table,
        moment,
        columns,
        CondOf::All(Sequence::new(alloc)),
    )?;
    let named = names_all(query, &audit);
    drop(audit);
    Ok(named)
}

// Whether a column is in a query's conditions only.
fn tests_column(
    alloc: Global,
    query: &Query,
    table: &Name,
    place: usize,
    moment: Moment,
) -> Result<bool, Memory>
    ensures { IfOk result (λ tested. tested ≡ tests_column query.now table.now place) }
{
    if answers_column(query, table, place) {
        return Ok(false);
    }
    let named = names_column(alloc, query, table, place, moment)?;
    Ok(named)
}

// A column's value, if its verdict shows it.
fn seen_by(
    alloc: Global,
    column: &Name,
    value: &Value,
    verdict: Verdict,
) -> Result<Option<SeenCell>, Memory>
    ensures { IfOk result (λ seen. seen ≡ seen_by column.now value.now verdict) }
{
    match verdict {
        Verdict::Shown => {
            let column = column.copy(alloc)?;
            let value = value.copy(alloc)?;
            Ok(Some(SeenCell { column, value }))
        }
        Verdict::Denied(_) => Ok(None),
    }
}

// A column and the rule that denies it, if its verdict denies it.
fn denied_by(alloc: Global, column: &Name, verdict: Verdict) -> Result<Option<DeniedCell>, Memory>
    ensures { IfOk result (λ denied. denied ≡ denied_by column.now verdict) }
{
    match verdict {
        Verdict::Shown => Ok(None),
        Verdict::Denied(rule) => {
            let column = column.copy(alloc)?;
            Ok(Some(DeniedCell { column, rule }))
        }
    }
}

/// A row of a table, and the query that used it.
#[derive(Clone, Copy)]
pub(crate) struct UsedRow<'a> {
    pub asked: &'a AskedThen<'a>,
    pub schema: &'a Schema,
    pub kept: &'a BornRow,
}

impl<'a> UsedRow<'a> {
    ghost use Rattle.std.specs.Prelude.{None, if◌then◌else◌};
    ghost use Rattle.hippo_model.specs.Rows.{cell_at};
    ghost use Rattle.hippo_history_uses.specs.Accesses.{access_to};
    ghost use Rattle.hippo_history_uses.specs.Asking.{asker_of, Then};
    ghost use Rattle.hippo_history_uses.specs.Cells.{seen_cells, denied_columns};
    ghost use Rattle.hippo_history_uses.specs.Using.{verdict_then};

    // Whether a column belongs to a part of the query.
    fn is_in_part(&self, alloc: Global, part: Part, place: usize) -> Result<bool, Memory>
        ensures { IfOk result (λ within. within
            ≡ is_in_part part self.now.asked.now.query.now self.now.schema.now.name place) }
    {
        let asked = self.asked;
        match part {
            Part::Answer => Ok(answers_column(asked.query, &self.schema.name, place)),
            Part::Conditions => {
                tests_column(alloc, asked.query, &self.schema.name, place, asked.moment)
            }
        }
    }

    // A column's value, if the column belongs to a part of the query and its verdict shows it.
    fn seen_in(
        &self,
        alloc: Global,
        part: Part,
        place: usize,
        column: &Column,
    ) -> Result<Option<SeenCell>, Memory>
        ensures { IfOk result (λ seen. Then self.now.asked.now (λ front. seen
            ≡ (if is_in_part part self.now.asked.now.query.now self.now.schema.now.name place
            then seen_by column.now.name (cell_at self.now.kept.now.row place)
            (verdict_then self.now front place) else None))) }
    {
        if !self.is_in_part(alloc, part, place)? {
            return Ok(None);
        }
        let verdict = self.asked.verdict(self.schema, self.kept, place);
        let row = self.kept.row.as_slice();
        let value = row.get(place).unwrap_or(&Value::Null);
        seen_by(alloc, &column.name, value, verdict)
    }

    // A column and the rule that denies it, if the query names the column and its verdict denies
    // it.
    fn denied_in(
        &self,
        alloc: Global,
        place: usize,
        column: &Column,
    ) -> Result<Option<DeniedCell>, Memory>
        ensures { IfOk result (λ denied. Then self.now.asked.now (λ front. denied
            ≡ (if names_column self.now.asked.now.query.now self.now.schema.now.name place
            then denied_by column.now.name (verdict_then self.now front place) else None))) }
    {
        let asked = self.asked;
        if !names_column(alloc, asked.query, &self.schema.name, place, asked.moment)? {
            return Ok(None);
        }
        let verdict = asked.verdict(self.schema, self.kept, place);
        denied_by(alloc, &column.name, verdict)
    }

    // The shown values of the row in the columns of a part of the query.
    fn seen_cells(&self, alloc: Global, part: Part) -> Result<Sequence<SeenCell>, Memory>
        ensures { IfOk result (λ cells. Then self.now.asked.now (λ front. cells
            ≡ seen_cells (is_in_part part self.now.asked.now.query.now self.now.schema.now.name)
            (verdict_then self.now front) self.now.schema.now self.now.kept.now.row)) }
    {
        let mut cells = Sequence::new(alloc);
        for (place, column) in self.schema.columns.as_slice().iter().enumerate() {
            if let Some(cell) = self.seen_in(alloc, part, place, column)? {
                cells.push(cell)?;
            }
        }
        Ok(cells)
    }

    // The columns of the row that the query names and that are denied.
    fn denied_columns(&self, alloc: Global) -> Result<Sequence<DeniedCell>, Memory>
        ensures { IfOk result (λ columns. Then self.now.asked.now (λ front. columns
            ≡ denied_columns (names_column self.now.asked.now.query.now self.now.schema.now.name)
            (verdict_then self.now front) self.now.schema.now)) }
    {
        let mut columns = Sequence::new(alloc);
        for (place, column) in self.schema.columns.as_slice().iter().enumerate() {
            if let Some(cell) = self.denied_in(alloc, place, column)? {
                columns.push(cell)?;
            }
        }
        Ok(columns)
    }

    /// What the query saw of the row.
    pub(crate) fn access(&self, alloc: Global) -> Result<Access, Memory>
        ensures { IfOk result (λ access. Then self.now.asked.now (λ front. access
            ≡ access_to front (asker_of self.now.asked.now) self.now.asked.now.query.now
            self.now.schema.now self.now.kept.now)) }
    {
        let asked = self.asked;
        let shown = self.seen_cells(alloc, Part::Answer)?;
        let tested = self.seen_cells(alloc, Part::Conditions)?;
        let denied = self.denied_columns(alloc)?;
        let key = copied_key(alloc, self.schema.key.as_slice(), self.kept.row.as_slice())?;
        let user = asked.user.copy(alloc)?;
        let purpose = asked.purpose.copy(alloc)?;
        let recipient = asked.recipient.copy(alloc)?;
        let table = self.schema.name.copy(alloc)?;
        Ok(Access {
            entry: asked.entry,
            moment: asked.moment,
            user,
            purpose,
            recipient,
            table,
            key,
            shown,
            tested,
            denied,
        })
    }
}
