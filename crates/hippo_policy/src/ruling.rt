//! The rule that an ALLOW or a REVOKE sets for a cell.
ghost use Rattle.std.specs.Prelude.{◌≡◌, IfOk, Some};
ghost use Rattle.hippo_model.specs.Rules.{allowed, revoked};
ghost use Rattle.hippo_policy.specs.Rulings.{ruling_of, ruling_in};

use hippo_model::{Act, RuleAt};
use hippo_values::{Duplicate, Memory, Name};
use std::alloc::Global;
use std::marker::Model;

#[derive(Drop)]
enum Held {
    Allowed {
        rule: u64,
        item: Option<Name>,
        days: Option<u32>,
    },
    Revoked(u64),
}

/// The rule that entry number `rule` sets for a cell; its model is `Rule`.
#[derive(Drop)]
pub struct Ruling {
    held: Held,
}

impl Model for Ruling {
    ghost use Rattle.hippo_model.specs.Rules.{Rule};
    ghost use Rattle.hippo_policy.specs.Rulings.{held_rule};

    ghost Value = { Rule };

    ghost view = { λ ruling. held_rule ruling.held };
}

fn copied_item(alloc: Global, item: &Option<Name>) -> Result<Option<Name>, Memory>
    ensures { IfOk result (λ made. made ≡ item.now) }
{
    match item {
        None => Ok(None),
        Some(item) => Ok(Some(item.copy(alloc)?)),
    }
}

impl Ruling {
    pub fn allowed(
        alloc: Global,
        rule: u64,
        item: &Option<Name>,
        days: Option<u32>,
    ) -> Result<Ruling, Memory>
        ensures { IfOk result (λ made. made ≡ allowed rule item.now days) }
    {
        let item = copied_item(alloc, item)?;
        Ok(Ruling {
            held: Held::Allowed { rule, item, days },
        })
    }

    pub fn revoked(rule: u64) -> Ruling
        ensures { result ≡ revoked rule }
    {
        Ruling {
            held: Held::Revoked(rule),
        }
    }

    /// The rule that an ALLOW or a REVOKE sets, with the entry's number. Fails when out of memory.
    pub fn of(alloc: Global, number: u64, act: &Act) -> Result<Ruling, Memory>
        ensures { IfOk result (λ made. made ≡ ruling_in number act.now) }
    {
        match act {
            Act::Allow { item, days, .. } => Ruling::allowed(alloc, number, item, *days),
            _ => Ok(Ruling::revoked(number)),
        }
    }

    /// The rule as look-ups return it. Its item is marked as opt-in, since the item's kind is not
    /// known here.
    pub fn as_rule_at(&self) -> RuleAt<'_>
        ensures { ruling_of result ≡ Some self.now }
    {
        match &self.held {
            Held::Revoked(rule) => RuleAt::Revoked(*rule),
            Held::Allowed {
                rule,
                item: None,
                days,
            } => RuleAt::Always {
                rule: *rule,
                days: *days,
            },
            Held::Allowed {
                rule,
                item: Some(item),
                days,
            } => RuleAt::With {
                rule: *rule,
                item,
                opt_in: true,
                days: *days,
            },
        }
    }
}

impl Duplicate for Ruling {
    fn copy(&self, alloc: Global) -> Result<Ruling, Memory> {
        match &self.held {
            Held::Allowed { rule, item, days } => Ruling::allowed(alloc, *rule, item, *days),
            Held::Revoked(rule) => Ok(Ruling::revoked(*rule)),
        }
    }
}
