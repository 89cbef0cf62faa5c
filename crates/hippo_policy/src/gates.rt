//! Gates: what decides whether the cells of a column are shown, as of an entry number.
ghost use Rattle.std.specs.Prelude.{◌≡◌, take, IfOk, Some, option_copied, option_map, map};
ghost use Rattle.hippo_model.specs.Terms.{History};
ghost use Rattle.hippo_policy.specs.Books.{BookRepresents};
ghost use Rattle.hippo_policy.specs.Gates.{after, gate_of_age, gate_of_item, gate_by, table_rules};
ghost use Rattle.hippo_model.specs.Rules.{allowed};

use crate::book::PolicyBook;
use crate::keys::TableKey;
use crate::ruled_columns::latest_in;
use crate::ruling::Ruling;
use crate::verdicts::DAY;
use hippo_model::{Gate, ItemKind, LentSchemas, RuleAt, RulesInForce, Schema, TableRules};
use hippo_values::{Duplicate, Memory, Moment, Name, Sequence};
use std::alloc::Global;

// The second after which a row must be born to be shown for this many days.
fn after(moment: &Moment, days: u32) -> i64
    ensures { result ≡ after moment.now days }
{
    moment.seconds() - DAY * i64::from(days)
}

fn gate_of_age(moment: &Moment, rule: u64, days: Option<u32>) -> Gate
    ensures { result ≡ gate_of_age moment.now rule days }
{
    match days {
        None => Gate::Always,
        Some(days) => Gate::Aged {
            rule,
            after: after(moment, days),
        },
    }
}

impl PolicyBook {
    fn gate_of_item(
        &self,
        alloc: Global,
        n: u64,
        moment: &Moment,
        rule: u64,
        item: &Name,
        days: Option<u32>,
    ) -> Result<Gate, Memory>
        ensures { IfOk result (λ gate. (history : History) → BookRepresents self.now history
            → gate ≡ gate_by (take n history) moment.now
            (Some (allowed rule (Some item.now) days))) }
    {
        match self.item_at(n, item) {
            None => Ok(Gate::Never(rule)),
            Some(kind) => {
                let item = item.copy(alloc)?;
                Ok(gate_of_kind(moment, rule, item, days, kind))
            }
        }
    }

    // The gate of a rule.
    fn gate_by(
        &self,
        alloc: Global,
        n: u64,
        moment: &Moment,
        ruling: &Ruling,
    ) -> Result<Gate, Memory>
        ensures { IfOk result (λ gate. (history : History) → BookRepresents self.now history
            → gate ≡ gate_by (take n history) moment.now (Some ruling.now)) }
    {
        match ruling.as_rule_at() {
            RuleAt::Unnamed => Ok(Gate::Never(0)),
            RuleAt::Revoked(rule) => Ok(Gate::Never(rule)),
            RuleAt::Always { rule, days } => Ok(gate_of_age(moment, rule, days)),
            RuleAt::With {
                rule,
                item,
                days,
                ..
            } => self.gate_of_item(alloc, n, moment, rule, item, days),
        }
    }

    // The gate of a cell's rule, if the cell has one; otherwise a gate that shows nothing.
    fn gate_of(
        &self,
        alloc: Global,
        n: u64,
        moment: &Moment,
        ruling: Option<&Ruling>,
    ) -> Result<Gate, Memory>
        ensures { IfOk result (λ gate. (history : History) → BookRepresents self.now history
            → gate ≡ gate_by (take n history) moment.now (option_copied ruling.entry)) }
    {
        match ruling {
            None => Ok(Gate::Never(0)),
            Some(ruling) => self.gate_by(alloc, n, moment, ruling),
        }
    }
}

fn after_days(moment: &Moment, days: Option<u32>) -> Option<i64>
    ensures { result ≡ option_map (after moment.now) days }
{
    match days {
        None => None,
        Some(days) => Some(after(moment, days)),
    }
}

fn gate_of_kind(moment: &Moment, rule: u64, item: Name, days: Option<u32>, kind: ItemKind) -> Gate
    ensures { result ≡ gate_of_item moment.now rule item days (Some kind) }
{
    let opt_in = match kind {
        ItemKind::OptIn => true,
        ItemKind::OptOut => false,
    };
    let after = after_days(moment, days);
    Gate::With {
        rule,
        item,
        opt_in,
        after,
    }
}

impl PolicyBook {
    fn table_rules<'a>(
        &'a self,
        alloc: Global,
        n: u64,
        moment: &Moment,
        purpose: &'a Name,
        recipient: &'a Name,
        schema: &'a Schema,
    ) -> Result<TableRules, Memory>
        ensures { IfOk result (λ rules. (history : History) → BookRepresents self.now history
            → rules ≡ table_rules (take n history)
            (record { purpose = purpose.now; recipient = recipient.now; moment = moment.now })
            schema.now) }
    {
        let table = TableKey::lent(purpose, recipient, &schema.name);
        let columns = self.rules.columns_of(&table);
        let mut gates = Sequence::with_capacity(alloc, schema.columns.len())?;
        for place in 0..schema.columns.len() {
            let ruling = latest_in(columns, n, place);
            gates.push(self.gate_of(alloc, n, moment, ruling)?)?;
        }
        let key = schema.key.copy(alloc)?;
        Ok(TableRules {
            gates,
            key,
            subject: schema.subject,
        })
    }

    /// The rules of each table for a purpose and recipient at a moment, as of the first `n`
    /// entries: a gate for each column, and the places of the key and of the subject. Fails when
    /// out of memory.
    pub fn rules_in_force(
        &self,
        alloc: Global,
        n: u64,
        moment: Moment,
        purpose: &Name,
        recipient: &Name,
        tables: &LentSchemas<'_>,
    ) -> Result<RulesInForce, Memory>
        ensures { IfOk result (λ rules. (history : History) → BookRepresents self.now history
            → rules ≡ map (table_rules (take n history)
            (record { purpose = purpose.now; recipient = recipient.now; moment = moment }))
            tables.now) }
    {
        let mut rules = Sequence::with_capacity(alloc, tables.len())?;
        for place in 0..tables.len() {
            let schema = tables.get(place);
            rules.push(self.table_rules(alloc, n, &moment, purpose, recipient, schema)?)?;
        }
        Ok(rules)
    }
}
