//! Encodes an entry in its stored form.
ghost use Rattle.std.specs.Prelude.{◌≡◌, true, [], ◌∷◌, ◌++◌, IfOk, OnOk};
ghost use Rattle.hippo_model.specs.declared.entry.Act.TheVariants.{Choice};
ghost use Rattle.hippo_model.specs.StoredForms.{name_bytes, text_bytes, list_bytes, place_bytes, value_bytes, subject_byte, schema_bytes};
ghost use Rattle.hippo_model.specs.StoredForms.{item_kind, item_bytes, days_bytes, act_format, act_kind, act_bytes};
ghost use Rattle.hippo_model.specs.StoredForms.{body, table_changed, stored};
ghost use Rattle.hippo_model.specs.Keepable.{is_keepable};
ghost use Rattle.hippo_entry_codec.specs.Names.{names_bytes};

use crate::names::three_names;
use crate::parts::{Part, one_byte, write_byte, write_number, write_signed, write_text};
use hippo_model::{Act, Cells, Entry, ItemKind, Places, Schema, StoredEntry};
use hippo_values::{Bytes, Memory, Name, Txt};
use std::alloc::Global;

fn act_format(act: &Act) -> u8
    ensures { result ≡ act_format act.now }
{
    match act {
        Act::Allow { days: Some(_), .. } => 2,
        _ => 1,
    }
}

fn act_kind(act: &Act) -> u8
    ensures { result ≡ act_kind act.now }
{
    match act {
        Act::Create(_) => 1,
        Act::Insert { .. } => 2,
        Act::Update { .. } => 3,
        Act::Delete { .. } => 4,
        Act::Purpose(_) => 5,
        Act::Recipient(_) => 6,
        Act::Item { .. } => 7,
        Act::Authorize { .. } => 8,
        Act::Deauthorize { .. } => 9,
        Act::Allow { .. } => 10,
        Act::Revoke { .. } => 11,
        Act::Choice { .. } => 12,
        Act::Asked { .. } => 13,
    }
}

fn subject_byte(subject: Option<usize>) -> Result<u8, Memory>
    ensures { IfOk result (λ byte. byte ≡ subject_byte subject) }
{
    match subject {
        None => Ok(0),
        Some(place) => match place.checked_add(1) {
            Some(number) => one_byte(number),
            None => Err(Memory),
        },
    }
}

fn write_schema(schema: &Schema, out: &mut Vec<u8>) -> Result<(), Memory>
    ensures { OnOk result (out.new.items ≡ out.old.items ++ schema_bytes schema.now) }
{
    schema.name.write(out)?;
    schema.columns.write(out)?;
    schema.key.write(out)?;
    write_byte(subject_byte(schema.subject)?, out)
}

fn write_row(table: &Name, row: &Cells, out: &mut Vec<u8>) -> Result<(), Memory>
    ensures { OnOk result
        (out.new.items ≡ out.old.items ++ (name_bytes table.now
        ++ list_bytes value_bytes row.now)) }
{
    table.write(out)?;
    row.write(out)
}

fn item_kind(kind: ItemKind) -> u8
    ensures { result ≡ item_kind kind }
{
    match kind {
        ItemKind::OptIn => 1,
        ItemKind::OptOut => 2,
    }
}

fn write_new_item(item: &Name, kind: ItemKind, out: &mut Vec<u8>) -> Result<(), Memory>
    ensures { OnOk result (out.new.items
        ≡ out.old.items ++ (name_bytes item.now ++ item_kind kind ∷ [])) }
{
    item.write(out)?;
    write_byte(item_kind(kind), out)
}

// Appends the three names that come first in an act that has them.
fn write_names(act: &Act, out: &mut Vec<u8>) -> Result<(), Memory>
    ensures { OnOk result (out.new.items ≡ out.old.items ++ names_bytes act.now) }
{
    let Some((first, second, third)) = three_names(act) else {
        return Ok(());
    };
    first.write(out)?;
    second.write(out)?;
    third.write(out)
}

fn write_cells(act: &Act, columns: &Places, out: &mut Vec<u8>) -> Result<(), Memory>
    ensures { OnOk result
        (out.new.items ≡ out.old.items ++ (names_bytes act.now
        ++ list_bytes place_bytes columns.now)) }
{
    write_names(act, out)?;
    columns.write(out)
}

fn write_item(item: &Option<Name>, out: &mut Vec<u8>) -> Result<(), Memory>
    ensures { OnOk result (out.new.items ≡ out.old.items ++ item_bytes item.now) }
{
    match item {
        None => write_byte(0, out),
        Some(name) => {
            out.push(1)?;
            name.write(out)
        }
    }
}

fn write_days(days: Option<u32>, out: &mut Vec<u8>) -> Result<(), Memory>
    ensures { OnOk result (out.new.items ≡ out.old.items ++ days_bytes days) }
{
    match days {
        None => Ok(()),
        Some(number) => {
            out.extend_from_slice(&number.to_be_bytes())?;
            Ok(())
        }
    }
}

fn write_choice(subject: i64, item: &Name, yes: bool, out: &mut Vec<u8>) -> Result<(), Memory>
    ensures { OnOk result
        (out.new.items ≡ out.old.items ++ act_bytes (Choice subject item.now yes)) }
{
    write_signed(subject, out)?;
    item.write(out)?;
    write_byte(u8::from(yes), out)
}

fn write_question(act: &Act, text: &Txt, out: &mut Vec<u8>) -> Result<(), Memory>
    ensures { OnOk result (out.new.items
        ≡ out.old.items ++ (names_bytes act.now ++ text_bytes text.now)) }
{
    write_names(act, out)?;
    write_text(text.as_str(), out)
}

fn write_rule(
    act: &Act,
    columns: &Places,
    item: &Option<Name>,
    days: Option<u32>,
    out: &mut Vec<u8>,
) -> Result<(), Memory>
    ensures { OnOk result (out.new.items ≡ out.old.items
        ++ (names_bytes act.now ++ list_bytes place_bytes columns.now ++ item_bytes item.now
        ++ days_bytes days)) }
{
    write_cells(act, columns, out)?;
    write_item(item, out)?;
    write_days(days, out)
}

impl Part for Act {
    ghost use Rattle.hippo_model.specs.StoredForms.{act_bytes};

    ghost bytes = { act_bytes };

    fn write(&self, out: &mut Vec<u8>) -> Result<(), Memory> {
        match self {
            Act::Create(schema) => write_schema(schema, out),
            Act::Insert { table, row } | Act::Update { table, row } => write_row(table, row, out),
            Act::Delete { table, key } => write_row(table, key, out),
            Act::Purpose(name) | Act::Recipient(name) => name.write(out),
            Act::Item { item, kind } => write_new_item(item, *kind, out),
            Act::Authorize { .. } | Act::Deauthorize { .. } => write_names(self, out),
            Act::Allow {
                columns,
                item,
                days,
                ..
            } => write_rule(self, columns, item, *days, out),
            Act::Revoke { columns, .. } => write_cells(self, columns, out),
            Act::Choice { subject, item, yes } => write_choice(*subject, item, *yes, out),
            Act::Asked { text, .. } => write_question(self, text, out),
        }
    }
}

// The initial capacity of a body; few bodies are longer.
const BODY_ROOM: usize = 256;

/// Encodes the body of an entry. Fails only when out of memory.
pub fn write_body(alloc: Global, entry: &Entry) -> Result<Vec<u8>, Memory>
    ensures { IfOk result (λ bytes. bytes.items ≡ body entry.now) }
{
    let mut out = Vec::with_capacity(alloc, BODY_ROOM)?;
    out.push(act_format(&entry.act))?;
    write_number(entry.seq, &mut out)?;
    write_signed(entry.moment.seconds(), &mut out)?;
    out.push(act_kind(&entry.act))?;
    entry.act.write(&mut out)?;
    Ok(out)
}

// The table whose row an act changes; empty if it changes none.
fn table_changed(alloc: Global, act: &Act) -> Result<Txt, Memory>
    ensures { IfOk result (λ table. table ≡ table_changed act.now) }
{
    match act {
        Act::Insert { table, .. } | Act::Update { table, .. } | Act::Delete { table, .. } => {
            Txt::from_str(alloc, table.as_str())
        }
        _ => Ok(Txt::new(alloc)),
    }
}

/// Encodes an entry that can be stored: its number, moment, kind, the table whose row it changes,
/// and its body, in format 2 for a rule with days, else in format 1. The time is linear in the
/// length of the body. Fails only when out of memory.
pub fn encode(alloc: Global, entry: &Entry) -> Result<StoredEntry, Memory>
    requires keepable { is_keepable entry.now ≡ true }
    ensures form { IfOk result (λ kept. kept ≡ stored entry.now) }
{
    let table = table_changed(alloc, &entry.act)?;
    let body = write_body(alloc, entry)?;
    Ok(StoredEntry {
        seq: entry.seq,
        moment: entry.moment.seconds(),
        kind: act_kind(&entry.act),
        table,
        body: Bytes::from_vec(body),
    })
}
