//! The statement that made an act.
ghost use Rattle.std.specs.Prelude.{◌≡◌, ◌++◌, option_copied, OnOk, OnErr};
ghost use Rattle.hippo_values_text.specs.Printing.{AppendsText};
ghost use Rattle.hippo_history_statements.specs.Telling.{act_statement, table_named, set_text};

use crate::columns::{append_named, columns_of};
use crate::rows::Version;
use crate::rules::{
    Rule, append_allow, append_asked, append_choice, append_grant, append_item, append_rule,
};
use crate::tables::append_create;
use hippo_model::{Act, Cells, Schema};
use hippo_values::{Memory, Name, RoomyTxt};
use std::alloc::Global;

/// Returns the table whose columns an act names by their places, or whose rows it changes.
/// `append_act_statement` needs the schema of this table.
pub fn table_named(act: &Act) -> Option<&Name>
    ensures { option_copied result ≡ table_named act.now }
{
    match act {
        Act::Insert { table, .. } => Some(table),
        Act::Update { table, .. } => Some(table),
        Act::Delete { table, .. } => Some(table),
        Act::Allow { table, .. } => Some(table),
        Act::Revoke { table, .. } => Some(table),
        _ => None,
    }
}

fn append_act<const ROOM: usize>(
    alloc: Global,
    schema: Option<&Schema>,
    act: &Act,
    out: &mut RoomyTxt<ROOM>,
) -> Result<(), Memory>
    ensures adds { AppendsText (act_statement (option_copied schema.entry) act.now) result out.old out.new }
{
    let columns = columns_of(schema);
    match act {
        Act::Create(made) => append_create(made, out),
        Act::Insert { table, row } => Version::new(schema, table, row).insert(out),
        Act::Update { table, row } => Version::new(schema, table, row).update(alloc, out),
        Act::Delete { table, key } => Version::new(schema, table, key).delete(out),
        Act::Purpose(purpose) => append_named("CREATE PURPOSE ", purpose, out),
        Act::Recipient(recipient) => append_named("CREATE RECIPIENT ", recipient, out),
        Act::Item { item, kind } => append_item(item, *kind, out),
        Act::Authorize {
            user,
            purpose,
            recipient,
        } => append_grant("AUTHORIZE ", user, purpose, recipient, out),
        Act::Deauthorize {
            user,
            purpose,
            recipient,
        } => append_grant("DEAUTHORIZE ", user, purpose, recipient, out),
        Act::Allow {
            purpose,
            recipient,
            table,
            columns: places,
            item,
            days,
        } => {
            let rule = Rule::new(purpose, recipient, table, places.as_slice());
            append_allow(columns, &rule, item.as_ref(), *days, out)
        }
        Act::Revoke {
            purpose,
            recipient,
            table,
            columns: places,
        } => {
            let rule = Rule::new(purpose, recipient, table, places.as_slice());
            append_rule("REVOKE ", columns, &rule, out)
        }
        Act::Choice { subject, item, yes } => append_choice(subject, item, *yes, out),
        Act::Asked {
            user,
            purpose,
            recipient,
            text,
        } => append_asked(user, purpose, recipient, text, out),
    }
}

/// Appends the statement that made an act, in the spelling of the language. `schema` is that of the
/// table that the act names (`table_named`), as it was before the act. An UPDATE sets every column
/// outside the key, so its text may be longer than the line that made it, and longer than a line
/// may be. A question is written as its user, purpose, recipient and text. When out of memory, the
/// text is unchanged.
pub fn append_act_statement<const ROOM: usize>(
    alloc: Global,
    schema: Option<&Schema>,
    act: &Act,
    out: &mut RoomyTxt<ROOM>,
) -> Result<(), Memory>
    ensures ok { OnOk result (out.new ≡ out.old ++ act_statement (option_copied schema.entry) act.now) }
    ensures err { OnErr result (out.new ≡ out.old) }
{
    let length = out.as_str().len();
    let told = append_act(alloc, schema, act, out);
    if told.is_err() {
        out.truncate(length);
    }
    told
}

/// Appends an UPDATE that sets one column of the row with this row's key to its value. When out of
/// memory, the text is unchanged.
pub fn append_set_statement<const ROOM: usize>(
    schema: &Schema,
    table: &Name,
    row: &Cells,
    place: usize,
    out: &mut RoomyTxt<ROOM>,
) -> Result<(), Memory>
    ensures ok { OnOk result (out.new ≡ out.old
        ++ set_text schema.now.columns schema.now.key table.now row.now place) }
    ensures err { OnErr result (out.new ≡ out.old) }
{
    let length = out.as_str().len();
    let told = Version::new(Some(schema), table, row).set(place, out);
    if told.is_err() {
        out.truncate(length);
    }
    told
}
