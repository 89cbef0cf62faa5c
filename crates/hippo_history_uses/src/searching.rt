//! Searches the rows about a patient that a logged query used.
ghost use Rattle.std.specs.Prelude.{◌≡◌, [], OnOk, IfOk};
ghost use Rattle.hippo_history_uses.specs.Accesses.{asker_context};
ghost use Rattle.hippo_history_uses.specs.Asking.{asker_of, Then};
ghost use Rattle.hippo_history_uses.specs.Searching.{AddsQuery};
ghost use Rattle.hippo_rewrite.specs.RewritingLaws.{rules_at};

use crate::asked::AskedThen;
use crate::cells::UsedRow;
use crate::conditions::{audit_of_rows, key_is, number_is};
use crate::lending::{LentTables, lent_tables};
use crate::uses::is_patients_row;
use hippo_audit_common::place_in;
use hippo_audit_needs::shared_of;
use hippo_audit_search::laws::audit_needs_what_it_has;
use hippo_history_formats::Access;
use hippo_model::{Audit, BornRow, CondOf, Lent, LentSchemas, Operand, RulesInForce, Schema};
use hippo_tables::Tables;
use hippo_values::{Memory, Sequence};
use std::alloc::Global;

/// A logged query, with the tables and the rules in force of its own time.
#[derive(Drop)]
pub(crate) struct Search<'a> {
    pub asked: &'a AskedThen<'a>,
    pub lent: LentTables<'a>,
    pub rules: RulesInForce,
}

fn used_row<'a>(asked: &'a AskedThen<'a>, schema: &'a Schema, kept: &'a BornRow) -> UsedRow<'a>
    ensures asked { result.asked.now ≡ asked.now }
    ensures schema { result.schema.now ≡ schema.now }
    ensures kept { result.kept.now ≡ kept.now }
{
    UsedRow {
        asked,
        schema,
        kept,
    }
}

impl<'a> Search<'a> {
    ghost use Rattle.hippo_history_uses.specs.Conditions.{audit_of_rows};
    ghost use Rattle.hippo_history_uses.specs.Searching.{HoldsEachTable, IsSeat, IsAlone, IsSubjectOf, SharesThen, UsesThen, UsesAny, AddsRow, AddsTable, AddsAll, table_there};

    // Whether the query and an audit of the table at a place share a row.
    fn shares(&self, alloc: Global, place: usize, audit: &Audit) -> Result<bool, Memory>
        requires whole { HoldsEachTable self.now }
        requires alone { IsAlone self.now place audit.now }
        ensures { IfOk result (SharesThen self.now audit.now) }
    {
        let asked = self.asked;
        let mut audit_sets = Lent::new(alloc);
        audit_sets.push(self.lent.sets.get(place))?;
        let choices = asked.book.choices_at(asked.number);
        let shared = shared_of(
            alloc,
            asked.query,
            audit,
            &self.rules,
            &self.lent.sets,
            &audit_sets,
            &choices,
        )?;
        Ok(shared.is_some())
    }

    // An audit, of no column, of rows of the table at a place.
    fn audit_of(
        &self,
        alloc: Global,
        place: usize,
        condition: CondOf<Operand>,
    ) -> Result<Audit, Memory>
        requires seat { IsSeat self.now place }
        ensures { IfOk result (λ audit. audit ≡ audit_of_rows (table_there self.now place)
            self.now.asked.now.moment [] condition) }
    {
        let table = self.asked.query.tables.get(place);
        audit_of_rows(
            alloc,
            table,
            self.asked.moment,
            Sequence::new(alloc),
            condition,
        )
    }

    // Whether the query used a row of the table at a place.
    fn uses_row(&self, alloc: Global, place: usize, kept: &BornRow) -> Result<bool, Memory>
        requires whole { HoldsEachTable self.now }
        requires seat { IsSeat self.now place }
        ensures { IfOk result (UsesThen self.now place kept.now) }
    {
        audit_needs_what_it_has();
        let schema = self.lent.schemas.get(place);
        let condition = key_is(alloc, schema, kept.row.as_slice())?;
        let audit = self.audit_of(alloc, place, condition)?;
        let used = self.shares(alloc, place, &audit);
        drop(audit);
        used
    }

    // Whether the query may have used a row about the patient in the table at a place, which has
    // this SUBJECT.
    fn uses_any(&self, alloc: Global, place: usize, subject: usize) -> Result<bool, Memory>
        requires whole { HoldsEachTable self.now }
        requires seat { IsSeat self.now place }
        requires subject { IsSubjectOf self.now place subject }
        ensures { IfOk result (UsesAny self.now place) }
    {
        audit_needs_what_it_has();
        let condition = number_is(subject, &self.asked.patient);
        let audit = self.audit_of(alloc, place, condition)?;
        let used = self.shares(alloc, place, &audit);
        drop(audit);
        used
    }

    // Adds the access to a row of the table at a place, if the row is about the patient and the
    // query used it.
    fn add_row(
        &self,
        alloc: Global,
        place: usize,
        kept: &BornRow,
        accesses: &mut Sequence<Access>,
    ) -> Result<(), Memory>
        requires whole { HoldsEachTable self.now }
        requires seat { IsSeat self.now place }
        ensures { OnOk result (AddsRow self.now place kept.now accesses.old accesses.new) }
    {
        let schema = self.lent.schemas.get(place);
        if !is_patients_row(&self.asked.patient, schema, kept) {
            return Ok(());
        }
        if !self.uses_row(alloc, place, kept)? {
            return Ok(());
        }
        let access = used_row(self.asked, schema, kept).access(alloc)?;
        accesses.push(access)?;
        Ok(())
    }

    // Adds the accesses to the rows of the table at a place.
    fn add_rows(
        &self,
        alloc: Global,
        place: usize,
        accesses: &mut Sequence<Access>,
    ) -> Result<(), Memory>
        requires whole { HoldsEachTable self.now }
        requires seat { IsSeat self.now place }
        ensures { OnOk result (AddsTable self.now place accesses.old accesses.new) }
    {
        let rows = self.lent.sets.get(place);
        for row in 0..rows.len() {
            self.add_row(alloc, place, rows.born_row(row), accesses)?;
        }
        Ok(())
    }

    // Adds the accesses to the rows of the table at a place, if it has a SUBJECT. Looks at its rows
    // only if the query may have used one.
    fn add_table(
        &self,
        alloc: Global,
        place: usize,
        accesses: &mut Sequence<Access>,
    ) -> Result<(), Memory>
        requires whole { HoldsEachTable self.now }
        requires seat { IsSeat self.now place }
        ensures { OnOk result (AddsTable self.now place accesses.old accesses.new) }
    {
        let schema = self.lent.schemas.get(place);
        let Some(subject) = schema.subject else {
            return Ok(());
        };
        if !self.uses_any(alloc, place, subject)? {
            return Ok(());
        }
        self.add_rows(alloc, place, accesses)?;
        Ok(())
    }

    /// Adds the accesses of the query, table by table in the order of FROM.
    pub(crate) fn add_all(
        &self,
        alloc: Global,
        accesses: &mut Sequence<Access>,
    ) -> Result<(), Memory>
        requires whole { HoldsEachTable self.now }
        ensures { OnOk result (AddsAll self.now accesses.old accesses.new) }
    {
        let tables = self.asked.query.tables.as_slice();
        for table in tables {
            self.add_table(alloc, place_in(tables, table), accesses)?;
        }
        Ok(())
    }
}

// The rules in force of some tables at the query's time.
fn rules_then(
    alloc: Global,
    asked: &AskedThen<'_>,
    schemas: &LentSchemas<'_>,
) -> Result<RulesInForce, Memory>
    ensures { IfOk result (λ rules. Then asked.now (λ front. rules
        ≡ rules_at front (asker_context (asker_of asked.now)) schemas.now)) }
{
    asked.book.rules_in_force(
        alloc,
        asked.number,
        asked.moment,
        asked.purpose,
        asked.recipient,
        schemas,
    )
}

fn search_of<'a>(asked: &'a AskedThen<'a>, lent: LentTables<'a>, rules: RulesInForce) -> Search<'a>
    ensures asked { result.asked.now ≡ asked.now }
    ensures lent { result.lent ≡ lent.entry }
    ensures rules { result.rules ≡ rules }
{
    Search { asked, lent, rules }
}

/// Adds the accesses of a logged query over the tables as they were before it.
pub(crate) fn add_accesses<'a>(
    alloc: Global,
    asked: &'a AskedThen<'a>,
    tables: &'a Tables,
    accesses: &mut Sequence<Access>,
) -> Result<(), Memory>
    ensures { OnOk result (AddsQuery asked.now tables.now accesses.old accesses.new) }
{
    let found = lent_tables(alloc, tables, asked.query.tables.as_slice())?;
    let Some(lent) = found else {
        return Ok(());
    };
    let rules = rules_then(alloc, asked, &lent.schemas)?;
    let search = search_of(asked, lent, rules);
    let added = search.add_all(alloc, accesses);
    drop(search);
    added
}
