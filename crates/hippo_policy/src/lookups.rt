//! Look-ups of rules, choices, authorizations and items as of an entry number.
ghost use Rattle.std.specs.Prelude.{◌≡◌, take, option_copied, Some};
ghost use Rattle.hippo_model.specs.Terms.{History};
ghost use Rattle.hippo_model.specs.Histories.{item_at};
ghost use Rattle.hippo_model.specs.Rules.{rule_at, choice_at, authorized_at};
ghost use Rattle.hippo_policy.specs.Books.{BookRepresents, rule_of, choice_kept};
ghost use Rattle.hippo_policy.specs.Rulings.{ruling_of, opt_in_of, opt_in_at, is_opt_in};

use crate::book::PolicyBook;
use crate::keys::{CellKey, ChoiceKey, KeyName, UserKey};
use crate::ruling::Ruling;
use hippo_model::{Authorization, ItemKind, RuleAt};
use hippo_values::Name;

impl PolicyBook {
    pub(crate) fn ruling_at<'a>(&'a self, n: u64, cell: &CellKey<'a>) -> Option<&'a Ruling>
        ensures { (history : History) → BookRepresents self.now history
            → option_copied result ≡ rule_of (take n history) cell.now }
    {
        self.rules.at(n, cell)
    }

    /// The kind of an item, which says how a patient's silence is read, as of the first `n`
    /// entries; none if no entry creates the item.
    pub fn item_at(&self, n: u64, item: &Name) -> Option<ItemKind>
        ensures { (history : History) → BookRepresents self.now history
            → result ≡ item_at (take n history) item.now }
    {
        self.items.at(n, &KeyName::lent(item)).copied()
    }

    pub(crate) fn choice_of(&self, n: u64, subject: &i64, item: &Name) -> Option<bool>
        ensures history { (history : History) → BookRepresents self.now history
            → result ≡ choice_at (take n history) subject.now item.now }
        ensures kept { result ≡ choice_kept self.now n subject.now item.now }
    {
        self.choices.at(n, &ChoiceKey::lent(subject, item)).copied()
    }

    /// The last choice of a patient on an item among the first `n` entries; none if there is none.
    pub fn choice_at(&self, n: u64, subject: i64, item: &Name) -> Option<bool>
        ensures { (history : History) → BookRepresents self.now history
            → result ≡ choice_at (take n history) subject item.now }
    {
        self.choice_of(n, &subject, item)
    }

    /// Whether a user may ask for a purpose and recipient, by the last entry among the first `n`
    /// that names all three.
    pub fn authorized_at(
        &self,
        n: u64,
        user: &Name,
        purpose: &Name,
        recipient: &Name,
    ) -> Authorization
        ensures { (history : History) → BookRepresents self.now history
            → result ≡ authorized_at (take n history) user.now purpose.now recipient.now }
    {
        let key = UserKey::lent(user, purpose, recipient);
        self.users
            .at(n, &key)
            .copied()
            .unwrap_or(Authorization::No(0))
    }

    /// The last rule among the first `n` entries that names a column of a table for a purpose and
    /// recipient.
    pub fn rule_at<'a>(
        &'a self,
        n: u64,
        purpose: &'a Name,
        recipient: &'a Name,
        table: &'a Name,
        column: usize,
    ) -> RuleAt<'a>
        ensures rule { (history : History) → BookRepresents self.now history
            → ruling_of result ≡ rule_at (take n history) purpose.now recipient.now table.now
            column }
        ensures silence { (history : History) → BookRepresents self.now history
            → opt_in_of result
            ≡ opt_in_at (take n history)
            (rule_at (take n history) purpose.now recipient.now table.now column) }
    {
        let cell = CellKey::lent(purpose, recipient, table, column);
        match self.ruling_at(n, &cell) {
            None => RuleAt::Unnamed,
            Some(ruling) => self.answered(n, ruling),
        }
    }

    fn answered<'a>(&'a self, n: u64, ruling: &'a Ruling) -> RuleAt<'a>
        ensures rule { ruling_of result ≡ Some ruling.now }
        ensures silence { (history : History) → BookRepresents self.now history
            → opt_in_of result ≡ opt_in_at (take n history) (Some ruling.now) }
    {
        match ruling.as_rule_at() {
            RuleAt::With {
                rule,
                item,
                days,
                ..
            } => RuleAt::With {
                rule,
                item,
                opt_in: self.is_opt_in(n, item),
                days,
            },
            rule => rule,
        }
    }

    // Whether an item needs a YES. An item that no entry creates needs one.
    fn is_opt_in(&self, n: u64, item: &Name) -> bool
        ensures { (history : History) → BookRepresents self.now history
            → result ≡ is_opt_in (item_at (take n history) item.now) }
    {
        !matches!(self.item_at(n, item), Some(ItemKind::OptOut))
    }
}
