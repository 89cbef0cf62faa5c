//! The parts of a rule.
ghost use Rattle.std.specs.Prelude.{◌≡◌, option_copied, option_map};
ghost use Rattle.hippo_policy.specs.Rulings.{ruling_of, opt_in_of};
ghost use Rattle.hippo_history_statements.specs.Telling.{name_at};
ghost use Rattle.hippo_history_formats.specs.Formats.{rule_number, ruling_word, rule_item, rule_days, opt_word};

use hippo_model::{RuleAt, Schema};
use hippo_values::{Moment, Name};

/// The rule of a table's column for a purpose and a recipient.
#[derive(Clone, Copy)]
pub struct ColumnRule<'a> {
    pub purpose: &'a Name,
    pub recipient: &'a Name,
    pub schema: &'a Schema,
    pub place: usize,
    pub ruling: RuleAt<'a>,
    /// The moment of the rule's entry, if there is a rule.
    pub moment: Option<Moment>,
}

/// The column's name.
pub(crate) fn column_name<'a>(rule: &ColumnRule<'a>) -> &'a str
    ensures { result.now ≡ name_at rule.now.schema.now.columns rule.now.place }
{
    match rule.schema.columns.as_slice().get(rule.place) {
        None => "",
        Some(column) => column.name.as_str(),
    }
}

/// The number of a rule's entry, or 0 if there is no rule.
pub fn ruling_number(ruling: &RuleAt<'_>) -> u64
    ensures { result ≡ rule_number (ruling_of ruling.now) }
{
    match *ruling {
        RuleAt::Unnamed => 0,
        RuleAt::Revoked(number) => number,
        RuleAt::Always { rule: number, .. } => number,
        RuleAt::With { rule: number, .. } => number,
    }
}

pub(crate) fn ruling_word(ruling: &RuleAt<'_>) -> &'static str
    ensures { result.now ≡ ruling_word (ruling_of ruling.now) }
{
    match ruling {
        RuleAt::Unnamed => "unnamed",
        RuleAt::Revoked(_) => "revoked",
        RuleAt::Always { .. } => "allowed",
        RuleAt::With { .. } => "allowed",
    }
}

pub(crate) fn item_of<'a>(ruling: &RuleAt<'a>) -> Option<&'a str>
    ensures { option_copied result ≡ rule_item (ruling_of ruling.now) }
{
    match *ruling {
        RuleAt::With { item, .. } => Some(item.as_str()),
        _ => None,
    }
}

pub(crate) fn days_of(ruling: &RuleAt<'_>) -> Option<u32>
    ensures { result ≡ rule_days (ruling_of ruling.now) }
{
    match *ruling {
        RuleAt::Unnamed => None,
        RuleAt::Revoked(_) => None,
        RuleAt::Always { days, .. } => days,
        RuleAt::With { days, .. } => days,
    }
}

fn opt_word(opt_in: bool) -> &'static str
    ensures { result.now ≡ opt_word opt_in }
{
    if opt_in { "in" } else { "out" }
}

/// The word for how a rule's item reads silence.
pub(crate) fn opt_of(ruling: &RuleAt<'_>) -> Option<&'static str>
    ensures { option_copied result ≡ option_map opt_word (opt_in_of ruling.now) }
{
    match *ruling {
        RuleAt::With { opt_in, .. } => Some(opt_word(opt_in)),
        _ => None,
    }
}
