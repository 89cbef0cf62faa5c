//! The verdict on a cell, as of an entry number.
ghost use Rattle.std.specs.Prelude.{◌≡◌, take, option_copied, Some, ◌-ℤ◌, ◌*◌};
ghost use Rattle.hippo_model.specs.Terms.{History};
ghost use Rattle.hippo_model.specs.Verdicts.{subject_of, consents, has_ended, verdict, verdict_by};
ghost use Rattle.hippo_policy.specs.Books.{BookRepresents};

use crate::book::PolicyBook;
use crate::keys::CellKey;
use crate::ruling::Ruling;
use hippo_model::{Cells, ItemKind, RuleAt, Schema, Verdict};
use hippo_values::{Moment, Name, Value};

/// A day in seconds.
pub(crate) const DAY: i64 = 86_400;

// The number of the patient whom a row is about; none if the row names none.
fn subject_of<'a>(schema: &Schema, row: &'a Cells) -> Option<&'a i64>
    ensures { option_copied result ≡ subject_of schema.now row.now }
{
    match row.as_slice().get(schema.subject?) {
        Some(Value::Int(number)) => Some(number),
        _ => None,
    }
}

// Whether a rule that shows cells for this many days no longer shows a row's cells.
fn has_ended(moment: &Moment, born: &Moment, days: Option<u32>) -> bool
    ensures { result ≡ has_ended (moment.now -ℤ born.now) days }
{
    match days {
        None => false,
        Some(days) => moment.seconds() - born.seconds() >= DAY * i64::from(days),
    }
}

impl PolicyBook {
    // Whether a patient consents to an item.
    fn agrees(&self, n: u64, subject: &i64, item: &Name) -> bool
        ensures { (history : History) → BookRepresents self.now history
            → result ≡ consents (take n history) (Some subject.now) (Some item.now) }
    {
        let choice = self.choice_of(n, subject, item);
        match self.item_at(n, item) {
            None => false,
            Some(ItemKind::OptIn) => choice.unwrap_or(false),
            Some(ItemKind::OptOut) => choice.unwrap_or(true),
        }
    }

    fn consents(&self, n: u64, subject: Option<&i64>, item: &Name) -> bool
        ensures { (history : History) → BookRepresents self.now history
            → result ≡ consents (take n history) (option_copied subject.entry) (Some item.now) }
    {
        match subject {
            None => false,
            Some(subject) => self.agrees(n, subject, item),
        }
    }

    // The verdict of a rule on a cell, given the row's birth and the patient whom the row is about.
    fn verdict_by(
        &self,
        n: u64,
        moment: &Moment,
        born: &Moment,
        subject: Option<&i64>,
        ruling: &Ruling,
    ) -> Verdict
        ensures { (history : History) → BookRepresents self.now history
            → result
            ≡ verdict_by (take n history) (moment.now -ℤ born.now) (option_copied subject.entry)
            (Some ruling.now) }
    {
        match ruling.as_rule_at() {
            RuleAt::Unnamed => Verdict::Denied(0),
            RuleAt::Revoked(rule) => Verdict::Denied(rule),
            RuleAt::Always { rule, days } => {
                if has_ended(moment, born, days) {
                    Verdict::Denied(rule)
                } else {
                    Verdict::Shown
                }
            }
            RuleAt::With {
                rule,
                item,
                days,
                ..
            } => {
                if has_ended(moment, born, days) || !self.consents(n, subject, item) {
                    Verdict::Denied(rule)
                } else {
                    Verdict::Shown
                }
            }
        }
    }

    /// The verdict on a cell for a purpose and recipient at a moment, as of the first `n` entries:
    /// shown, or denied with the number of the rule, 0 if no rule names the cell. A row's age is
    /// the time since its birth, the last INSERT of its key.
    pub fn verdict<'a>(
        &'a self,
        n: u64,
        moment: Moment,
        purpose: &'a Name,
        recipient: &'a Name,
        schema: &'a Schema,
        row: &Cells,
        born: Moment,
        column: usize,
    ) -> Verdict
        ensures { (history : History) → BookRepresents self.now history
            → result ≡ verdict (take n history)
            (record { purpose = purpose.now; recipient = recipient.now; moment = moment })
            schema.now (record { row = row.now; born = born }) column }
    {
        let cell = CellKey::lent(purpose, recipient, &schema.name, column);
        match self.ruling_at(n, &cell) {
            None => Verdict::Denied(0),
            Some(ruling) => {
                let subject = subject_of(schema, row);
                self.verdict_by(n, &moment, &born, subject, ruling)
            }
        }
    }
}
