//! The rule of a column as a line in each format.
ghost use Rattle.std.specs.Prelude.{◌≡◌, ◌++◌, Some, option_copied, option_map, IfOk, OnOk};
ghost use Rattle.hippo_values_text.specs.Dates.{moment_text};
ghost use Rattle.hippo_model.specs.Rules.{allowed, revoked};
ghost use Rattle.hippo_policy.specs.Rulings.{ruling_of, opt_in_of};
ghost use Rattle.hippo_report.specs.declared.format.Format.TheVariants.{Text};
ghost use Rattle.hippo_history_formats.specs.Formats.{ruling_text, silence_text, rule_line};

use crate::objects::rule_json;
use crate::records::{append_record, rule_record};
use crate::rulings::ColumnRule;
use crate::told::{append_text_line, moment_of};
use hippo_history_statements::{Rule, append_allow, append_rule};
use hippo_model::{Column, RuleAt};
use hippo_report::Format;
use hippo_values::{Memory, Moment, Name, Txt};
use itoa::Buffer;
use std::alloc::Global;

fn append_revoked(
    columns: &[Column],
    rule: &Rule<'_>,
    number: u64,
    out: &mut Txt,
) -> Result<(), Memory>
    ensures { OnOk result (out.new ≡ out.old ++ ruling_text columns.now rule.now.purpose.now
        rule.now.recipient.now rule.now.table.now rule.now.places.now (Some (revoked number))) }
{
    out.append(Buffer::new().format(number))?;
    append_rule(" REVOKE ", columns, rule, out)
}

fn append_allowed(
    columns: &[Column],
    rule: &Rule<'_>,
    number: u64,
    item: Option<&Name>,
    days: Option<u32>,
    out: &mut Txt,
) -> Result<(), Memory>
    ensures { OnOk result (out.new ≡ out.old ++ ruling_text columns.now rule.now.purpose.now
        rule.now.recipient.now rule.now.table.now rule.now.places.now
        (Some (allowed number (option_copied item.entry) days))) }
{
    out.append(Buffer::new().format(number))?;
    out.append(" ")?;
    append_allow(columns, rule, item, days, out)
}

// Appends a rule: the number of its entry, and then its statement.
fn append_ruling(
    columns: &[Column],
    rule: &Rule<'_>,
    ruling: &RuleAt<'_>,
    out: &mut Txt,
) -> Result<(), Memory>
    ensures { OnOk result (out.new ≡ out.old ++ ruling_text columns.now rule.now.purpose.now
        rule.now.recipient.now rule.now.table.now rule.now.places.now (ruling_of ruling.now)) }
{
    match *ruling {
        RuleAt::Unnamed => append_rule("0 nothing allows ", columns, rule, out),
        RuleAt::Revoked(number) => append_revoked(columns, rule, number, out),
        RuleAt::Always { rule: number, days } => {
            append_allowed(columns, rule, number, None, days, out)
        }
        RuleAt::With {
            rule: number,
            item,
            days,
            ..
        } => append_allowed(columns, rule, number, Some(item), days, out),
    }
}

fn silence_text(opt_in: bool) -> &'static str
    ensures { result.now ≡ silence_text (Some opt_in) }
{
    if opt_in { " (OPT IN)" } else { " (OPT OUT)" }
}

// Appends how the item of a rule reads a patient's silence, if the rule has an item.
fn append_silence(ruling: &RuleAt<'_>, out: &mut Txt) -> Result<(), Memory>
    ensures { OnOk result (out.new ≡ out.old ++ silence_text (opt_in_of ruling.now)) }
{
    match ruling {
        RuleAt::With { opt_in, .. } => out.append(silence_text(*opt_in)),
        _ => Ok(()),
    }
}

fn append_statement(rule: &ColumnRule<'_>, out: &mut Txt) -> Result<(), Memory>
    ensures { OnOk result (out.new ≡ out.old
        ++ rule_line Text rule.now.purpose.now rule.now.recipient.now rule.now.schema.now
        rule.now.place (ruling_of rule.now.ruling) rule.now.moment
        (opt_in_of rule.now.ruling)) }
{
    let places = [rule.place];
    let named = Rule::new(rule.purpose, rule.recipient, &rule.schema.name, &places);
    append_ruling(rule.schema.columns.as_slice(), &named, &rule.ruling, out)?;
    append_silence(&rule.ruling, out)?;
    out.append("\n")
}

fn moment_text(alloc: Global, moment: &Option<Moment>) -> Result<Option<Txt>, Memory>
    ensures { IfOk result (λ text. text ≡ option_map moment_text moment.now) }
{
    match moment {
        None => Ok(None),
        Some(moment) => Ok(Some(moment_of(alloc, moment)?)),
    }
}

fn lent(text: &Option<Txt>) -> Option<&str>
    ensures { option_copied result ≡ text.now }
{
    match text {
        None => None,
        Some(text) => Some(text.as_str()),
    }
}

/// Appends the rule of a column as a line in a format.
pub fn append_rule_line(
    alloc: Global,
    format: Format,
    rule: &ColumnRule<'_>,
    out: &mut Txt,
) -> Result<(), Memory>
    ensures { OnOk result (out.new ≡ out.old
        ++ rule_line format rule.now.purpose.now rule.now.recipient.now rule.now.schema.now
        rule.now.place (ruling_of rule.now.ruling) rule.now.moment
        (opt_in_of rule.now.ruling)) }
{
    match format {
        Format::Text => append_statement(rule, out),
        Format::Json => {
            let moment = moment_text(alloc, &rule.moment)?;
            let text = rule_json(alloc, rule, lent(&moment))?;
            append_text_line(text.as_str(), out)
        }
        Format::Csv => {
            let moment = moment_text(alloc, &rule.moment)?;
            let fields = rule_record(alloc, rule, lent(&moment))?;
            append_record(alloc, &fields, out)
        }
    }
}
