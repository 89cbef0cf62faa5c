//! CSV records (RFC 4180).
ghost use Rattle.std.specs.Prelude.{◌≡◌, ◌∷◌, ◌++◌, [], unwrap_or, decimal, option_copied, option_map, IfOk, OnOk};
ghost use Rattle.std.specs.Option.{option_map_or};
ghost use Rattle.csv.specs.Records.{fields_of};
ghost use Rattle.hippo_policy.specs.Rulings.{ruling_of, opt_in_of};
ghost use Rattle.hippo_history_statements.specs.Telling.{name_at};
ghost use Rattle.hippo_history_formats.specs.Formats.{csv_line, rule_number, ruling_word, rule_item, rule_days, opt_word, grant_fields};
ghost use Rattle.hippo_history_formats.specs.Shown.{told_fields, shown_fields, column_fields};

use crate::grants::Grant;
use crate::questions::Question;
use crate::rulings::{
    ColumnRule, column_name, days_of, item_of, opt_of, ruling_number, ruling_word,
};
use crate::told::{Shown, Told};
use csv::{Error, StringRecord, WriterBuilder};
use hippo_model::RuleAt;
use hippo_values::{Memory, Txt};
use itoa::Buffer;
use std::alloc::{AllocError, Global};

fn record_bytes(alloc: Global, fields: &StringRecord) -> Result<Vec<u8>, Error>
    ensures { IfOk result (λ text. text.items ≡ csv_line (fields_of fields.now)) }
{
    let mut writer = WriterBuilder::new().from_writer(Vec::new(alloc));
    writer.write_byte_record(fields.as_byte_record())?;
    match writer.into_inner() {
        Ok(text) => Ok(text),
        Err(refused) => Err(refused.into_error()),
    }
}

/// Appends a record as a line. The writer writes into memory, so its only error is running out of
/// memory. A record that is not text cannot occur.
pub(crate) fn append_record(
    alloc: Global,
    fields: &StringRecord,
    out: &mut Txt,
) -> Result<(), Memory>
    ensures { OnOk result (out.new ≡ out.old ++ csv_line (fields_of fields.now)) }
{
    let bytes = record_bytes(alloc, fields).map_err(|_| Memory)?;
    match str::from_utf8(bytes.as_slice()) {
        Ok(text) => out.append(text),
        Err(_) => Err(Memory),
    }
}

/// Adds three fields.
pub(crate) fn push_three(
    fields: &mut StringRecord,
    first: &str,
    second: &str,
    third: &str,
) -> Result<(), AllocError>
    ensures { OnOk result (fields_of fields.new
        ≡ fields_of fields.old ++ (first.now ∷ second.now ∷ third.now ∷ [])) }
{
    fields.push_field(first)?;
    fields.push_field(second)?;
    fields.push_field(third)
}

/// Adds an entry's number and its moment.
pub(crate) fn push_entry(
    fields: &mut StringRecord,
    entry: u64,
    moment: &str,
) -> Result<(), AllocError>
    ensures { OnOk result (fields_of fields.new
        ≡ fields_of fields.old ++ (decimal entry ∷ moment.now ∷ [])) }
{
    fields.push_field(Buffer::new().format(entry))?;
    fields.push_field(moment)
}

// Adds the user, the purpose and the recipient of a question, and then its text.
fn push_asker(fields: &mut StringRecord, question: &Question<'_>) -> Result<(), AllocError>
    ensures { OnOk result (fields_of fields.new ≡ fields_of fields.old ++ (question.now.user.now
        ∷ question.now.purpose.now ∷ question.now.recipient.now ∷ question.now.text.now ∷ [])) }
{
    fields.push_field(question.user.as_str())?;
    fields.push_field(question.purpose.as_str())?;
    fields.push_field(question.recipient.as_str())?;
    fields.push_field(question.text.as_str())
}

// Adds a statement after three empty fields, since nobody asks it.
fn push_statement(fields: &mut StringRecord, statement: &str) -> Result<(), AllocError>
    ensures { OnOk result (fields_of fields.new
        ≡ fields_of fields.old ++ ([] ∷ [] ∷ [] ∷ statement.now ∷ [])) }
{
    push_three(fields, "", "", "")?;
    fields.push_field(statement)
}

fn push_told(fields: &mut StringRecord, told: &Told<'_>) -> Result<(), AllocError>
    ensures { OnOk result (fields_of fields.new ≡ fields_of fields.old ++ told_fields told.now) }
{
    match told {
        Told::Asked(question) => push_asker(fields, question),
        Told::Made(statement) => push_statement(fields, statement.as_str()),
    }
}

/// Returns an entry as a record. The fields of the asker are empty if nobody asks.
pub(crate) fn entry_record(alloc: Global, shown: &Shown<'_>) -> Result<StringRecord, AllocError>
    ensures { IfOk result (λ made. fields_of made ≡ shown_fields shown.now) }
{
    let mut fields = StringRecord::new(alloc);
    push_entry(&mut fields, shown.entry, shown.moment.as_str())?;
    push_told(&mut fields, &shown.told)?;
    Ok(fields)
}

fn push_days(fields: &mut StringRecord, days: Option<u32>) -> Result<(), AllocError>
    ensures { OnOk result (fields_of fields.new
        ≡ fields_of fields.old ++ option_map_or decimal days [] ∷ []) }
{
    match days {
        None => fields.push_field(""),
        Some(days) => fields.push_field(Buffer::new().format(days)),
    }
}

// The text, or an empty text if there is none.
fn text_field<'a>(text: Option<&'a str>) -> &'a str
    ensures { result.now ≡ unwrap_or (option_copied text.entry) [] }
{
    match text {
        None => "",
        Some(text) => text,
    }
}

// Adds the number of a rule's entry, its moment, and the word for the rule's kind.
fn push_ruling(
    fields: &mut StringRecord,
    ruling: &RuleAt<'_>,
    moment: Option<&str>,
) -> Result<(), AllocError>
    ensures { OnOk result (fields_of fields.new ≡ fields_of fields.old
        ++ (decimal (rule_number (ruling_of ruling.now)) ∷ unwrap_or (option_copied moment.entry) []
        ∷ ruling_word (ruling_of ruling.now) ∷ [])) }
{
    fields.push_field(Buffer::new().format(ruling_number(ruling)))?;
    fields.push_field(text_field(moment))?;
    fields.push_field(ruling_word(ruling))
}

// Adds the names in a column's rule.
fn push_names(fields: &mut StringRecord, rule: &ColumnRule<'_>) -> Result<(), AllocError>
    ensures { OnOk result (fields_of fields.new ≡ fields_of fields.old ++ (rule.now.purpose.now
        ∷ rule.now.recipient.now ∷ rule.now.schema.now.name
        ∷ name_at rule.now.schema.now.columns rule.now.place ∷ [])) }
{
    let table = rule.schema.name.as_str();
    push_three(
        fields,
        rule.purpose.as_str(),
        rule.recipient.as_str(),
        table,
    )?;
    fields.push_field(column_name(rule))
}

// Adds the item of a rule, how that item reads silence, and for how many days the rule allows.
fn push_conditions(fields: &mut StringRecord, ruling: &RuleAt<'_>) -> Result<(), AllocError>
    ensures { OnOk result (fields_of fields.new ≡ fields_of fields.old
        ++ (unwrap_or (rule_item (ruling_of ruling.now)) []
        ∷ unwrap_or (option_map opt_word (opt_in_of ruling.now)) []
        ∷ option_map_or decimal (rule_days (ruling_of ruling.now)) [] ∷ [])) }
{
    fields.push_field(text_field(item_of(ruling)))?;
    fields.push_field(text_field(opt_of(ruling)))?;
    push_days(fields, days_of(ruling))
}

/// Returns the rule of a column as a record.
pub(crate) fn rule_record(
    alloc: Global,
    rule: &ColumnRule<'_>,
    moment: Option<&str>,
) -> Result<StringRecord, AllocError>
    ensures { IfOk result (λ made. fields_of made
        ≡ column_fields rule.now (option_copied moment.entry)) }
{
    let mut fields = StringRecord::new(alloc);
    push_ruling(&mut fields, &rule.ruling, moment)?;
    push_names(&mut fields, rule)?;
    push_conditions(&mut fields, &rule.ruling)?;
    Ok(fields)
}

/// Returns an authorization as a record.
pub(crate) fn grant_record(
    alloc: Global,
    grant: &Grant,
    moment: &str,
) -> Result<StringRecord, AllocError>
    ensures { IfOk result (λ made. fields_of made ≡ grant_fields grant.now.entry moment.now
        grant.now.user grant.now.purpose grant.now.recipient) }
{
    let mut fields = StringRecord::new(alloc);
    push_entry(&mut fields, grant.entry, moment)?;
    push_three(
        &mut fields,
        grant.user.as_str(),
        grant.purpose.as_str(),
        grant.recipient.as_str(),
    )?;
    Ok(fields)
}
