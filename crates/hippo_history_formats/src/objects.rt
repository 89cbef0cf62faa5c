//! JSON objects (RFC 8259).
ghost use Rattle.std.specs.Prelude.{◌≡◌, option_copied, option_map, IfOk, OnOk, string_bytes, codes};
ghost use Rattle.serde_json.specs.Data.{put, string, number, unsigned};
ghost use Rattle.serde_json.specs.View.{view, members_view};
ghost use Rattle.serde_json.specs.Written.{compact_text};
ghost use Rattle.hippo_policy.specs.Rulings.{ruling_of, opt_in_of};
ghost use Rattle.hippo_history_statements.specs.Telling.{name_at};
ghost use Rattle.hippo_history_formats.specs.Formats.{statement_data, question_data, rule_number, ruling_word, rule_item, rule_days, opt_word, number_data, text_data, grant_data};
ghost use Rattle.hippo_history_formats.specs.Shown.{shown_data, column_data};

use crate::grants::Grant;
use crate::members::{put_days, put_number, put_text, put_text_or_null};
use crate::questions::Question;
use crate::rulings::{
    ColumnRule, column_name, days_of, item_of, opt_of, ruling_number, ruling_word,
};
use crate::told::{Shown, Told};
use hippo_model::RuleAt;
use serde_json::{Map, Value};
use std::alloc::{AllocError, Global};

// Adds an entry's number, its moment and its statement.
fn put_statement(
    alloc: Global,
    members: &mut Map<String, Value>,
    entry: u64,
    moment: &str,
    statement: &str,
) -> Result<(), AllocError>
    ensures { OnOk result (members_view members.new.entries
        ≡ put (codes "statement") (string statement.now)
        (put (codes "moment") (string moment.now)
        (put (codes "entry") (number (unsigned entry)) (members_view members.old.entries)))) }
{
    put_number(alloc, members, "entry", entry)?;
    put_text(alloc, members, "moment", moment)?;
    put_text(alloc, members, "statement", statement)
}

// Adds the user, the purpose and the recipient of a question.
fn put_asker(
    alloc: Global,
    members: &mut Map<String, Value>,
    question: &Question<'_>,
) -> Result<(), AllocError>
    ensures { OnOk result (members_view members.new.entries
        ≡ put (codes "user") (string question.now.user.now)
        (put (codes "recipient") (string question.now.recipient.now)
        (put (codes "purpose") (string question.now.purpose.now)
        (members_view members.old.entries)))) }
{
    put_text(alloc, members, "purpose", question.purpose.as_str())?;
    put_text(alloc, members, "recipient", question.recipient.as_str())?;
    put_text(alloc, members, "user", question.user.as_str())
}

fn statement_data(
    alloc: Global,
    entry: u64,
    moment: &str,
    statement: &str,
) -> Result<Value, AllocError>
    ensures { IfOk result (λ made. view made ≡ statement_data entry moment.now statement.now) }
{
    let mut members = Map::new(alloc);
    put_statement(alloc, &mut members, entry, moment, statement)?;
    Ok(Value::Object(members))
}

fn question_data(
    alloc: Global,
    entry: u64,
    moment: &str,
    question: &Question<'_>,
) -> Result<Value, AllocError>
    ensures { IfOk result (λ made. view made ≡ question_data entry moment.now question.now.user.now
        question.now.purpose.now question.now.recipient.now question.now.text.now) }
{
    let mut members = Map::new(alloc);
    put_statement(alloc, &mut members, entry, moment, question.text.as_str())?;
    put_asker(alloc, &mut members, question)?;
    Ok(Value::Object(members))
}

fn told_data(alloc: Global, shown: &Shown<'_>) -> Result<Value, AllocError>
    ensures { IfOk result (λ made. view made ≡ shown_data shown.now) }
{
    let moment = shown.moment.as_str();
    match &shown.told {
        Told::Asked(question) => question_data(alloc, shown.entry, moment, question),
        Told::Made(statement) => statement_data(alloc, shown.entry, moment, statement.as_str()),
    }
}

/// Returns an entry as an object, without spaces.
#[tactic(auto, using(crate::proofs::JsonLemmas::told_has_no_float))]
pub(crate) fn entry_json(alloc: Global, shown: &Shown<'_>) -> Result<String, AllocError>
    ensures { IfOk result (λ text. string_bytes text ≡ compact_text (shown_data shown.now)) }
{
    let object = told_data(alloc, shown)?;
    object.to_string(alloc)
}

// Adds the names in a column's rule.
fn put_names(
    alloc: Global,
    members: &mut Map<String, Value>,
    rule: &ColumnRule<'_>,
) -> Result<(), AllocError>
    ensures { OnOk result (members_view members.new.entries
        ≡ put (codes "table") (string rule.now.schema.now.name)
        (put (codes "recipient") (string rule.now.recipient.now)
        (put (codes "purpose") (string rule.now.purpose.now)
        (put (codes "column") (string (name_at rule.now.schema.now.columns rule.now.place))
        (members_view members.old.entries))))) }
{
    put_text(alloc, members, "column", column_name(rule))?;
    put_text(alloc, members, "purpose", rule.purpose.as_str())?;
    put_text(alloc, members, "recipient", rule.recipient.as_str())?;
    put_text(alloc, members, "table", rule.schema.name.as_str())
}

// Adds the number of a rule's entry, and the word for its kind.
fn put_number_and_word(
    alloc: Global,
    members: &mut Map<String, Value>,
    ruling: &RuleAt<'_>,
) -> Result<(), AllocError>
    ensures { OnOk result (members_view members.new.entries
        ≡ put (codes "ruling") (string (ruling_word (ruling_of ruling.now)))
        (put (codes "rule") (number (unsigned (rule_number (ruling_of ruling.now))))
        (members_view members.old.entries))) }
{
    put_number(alloc, members, "rule", ruling_number(ruling))?;
    put_text(alloc, members, "ruling", ruling_word(ruling))
}

// Adds for how many days a rule allows, its item, the moment of its entry, and how the item reads
// silence.
fn put_conditions(
    alloc: Global,
    members: &mut Map<String, Value>,
    ruling: &RuleAt<'_>,
    moment: Option<&str>,
) -> Result<(), AllocError>
    ensures { OnOk result (members_view members.new.entries
        ≡ put (codes "opt") (text_data (option_map opt_word (opt_in_of ruling.now)))
        (put (codes "moment") (text_data (option_copied moment.entry))
        (put (codes "item") (text_data (rule_item (ruling_of ruling.now)))
        (put (codes "days") (number_data (rule_days (ruling_of ruling.now)))
        (members_view members.old.entries))))) }
{
    put_days(alloc, members, "days", days_of(ruling))?;
    put_text_or_null(alloc, members, "item", item_of(ruling))?;
    put_text_or_null(alloc, members, "moment", moment)?;
    put_text_or_null(alloc, members, "opt", opt_of(ruling))
}

fn rule_data(
    alloc: Global,
    rule: &ColumnRule<'_>,
    moment: Option<&str>,
) -> Result<Value, AllocError>
    ensures { IfOk result (λ made. view made ≡ column_data rule.now (option_copied moment.entry)) }
{
    let mut members = Map::new(alloc);
    put_names(alloc, &mut members, rule)?;
    put_number_and_word(alloc, &mut members, &rule.ruling)?;
    put_conditions(alloc, &mut members, &rule.ruling, moment)?;
    Ok(Value::Object(members))
}

/// Returns the rule of a column as an object, without spaces.
#[tactic(auto, using(crate::proofs::JsonLemmas::rule_has_no_float))]
pub(crate) fn rule_json(
    alloc: Global,
    rule: &ColumnRule<'_>,
    moment: Option<&str>,
) -> Result<String, AllocError>
    ensures { IfOk result (λ text. string_bytes text
        ≡ compact_text (column_data rule.now (option_copied moment.entry))) }
{
    let object = rule_data(alloc, rule, moment)?;
    object.to_string(alloc)
}

fn grant_data(alloc: Global, grant: &Grant, moment: &str) -> Result<Value, AllocError>
    ensures { IfOk result (λ made. view made ≡ grant_data grant.now.entry moment.now
        grant.now.user grant.now.purpose grant.now.recipient) }
{
    let mut members = Map::new(alloc);
    put_number(alloc, &mut members, "entry", grant.entry)?;
    put_text(alloc, &mut members, "moment", moment)?;
    put_text(alloc, &mut members, "purpose", grant.purpose.as_str())?;
    put_text(alloc, &mut members, "recipient", grant.recipient.as_str())?;
    put_text(alloc, &mut members, "user", grant.user.as_str())?;
    Ok(Value::Object(members))
}

/// Returns an authorization as an object, without spaces.
pub(crate) fn grant_json(alloc: Global, grant: &Grant, moment: &str) -> Result<String, AllocError>
    ensures { IfOk result (λ text. string_bytes text ≡ compact_text (grant_data grant.now.entry
        moment.now grant.now.user grant.now.purpose grant.now.recipient)) }
{
    let object = grant_data(alloc, grant, moment)?;
    object.to_string(alloc)
}
