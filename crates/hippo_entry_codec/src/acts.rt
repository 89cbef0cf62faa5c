//! Reads the act of an entry, and the entry, from bytes.
ghost use Rattle.std.specs.Prelude.{◌≡◌};
ghost use Rattle.hippo_entry_codec.specs.Readings.{GivesReading, ReadsFront, leading_create, change_of, leading_change, leading_new_name};
ghost use Rattle.hippo_entry_codec.specs.Readings.{leading_new_item, leading_stored_grant, leading_stored_item, leading_days};
ghost use Rattle.hippo_entry_codec.specs.Readings.{leading_stored_rule, leading_allow, leading_revoke, leading_choice, leading_question};
ghost use Rattle.hippo_entry_codec.specs.Readings.{act_of_kind, moment_of, leading_entry};

use crate::fault::Fault;
use crate::reading::{
    Readable, bool_of, item_kind_of, read_byte, read_number, read_short, read_signed, read_text,
};
use hippo_model::{Act, Cells, Entry, Places, Schema};
use hippo_values::{Moment, Name};
use std::alloc::Global;

#[tactic(auto, unfolding(crate::specs::Readings::leading_create))]
fn read_create(alloc: Global, bytes: &[u8]) -> Result<(Act, &[u8]), Fault>
    ensures { ReadsFront leading_create bytes.now result }
{
    let (schema, rest) = Schema::read(alloc, bytes)?;
    Ok((Act::Create(schema), rest))
}

// The change of a row for a kind from 2 to 4.
fn change_of(kind: u8, table: Name, row: Cells) -> Act
    ensures { result ≡ change_of kind table row }
{
    match kind {
        2 => Act::Insert { table, row },
        3 => Act::Update { table, row },
        _ => Act::Delete { table, key: row },
    }
}

#[tactic(auto, unfolding(crate::specs::Readings::leading_change))]
fn read_change(alloc: Global, kind: u8, bytes: &[u8]) -> Result<(Act, &[u8]), Fault>
    ensures { ReadsFront (leading_change kind) bytes.now result }
{
    let (table, rest) = Name::read(alloc, bytes)?;
    let (row, rest) = Cells::read(alloc, rest)?;
    Ok((change_of(kind, table, row), rest))
}

// A new purpose or recipient, of kind 5 or 6.
#[tactic(auto, unfolding(crate::specs::Readings::leading_new_name))]
fn read_new_name(alloc: Global, kind: u8, bytes: &[u8]) -> Result<(Act, &[u8]), Fault>
    ensures { ReadsFront (leading_new_name kind) bytes.now result }
{
    let (name, rest) = Name::read(alloc, bytes)?;
    if kind == 5 {
        Ok((Act::Purpose(name), rest))
    } else {
        Ok((Act::Recipient(name), rest))
    }
}

#[tactic(auto, unfolding(crate::specs::Readings::leading_new_item))]
fn read_new_item(alloc: Global, bytes: &[u8]) -> Result<(Act, &[u8]), Fault>
    ensures { ReadsFront leading_new_item bytes.now result }
{
    let (item, rest) = Name::read(alloc, bytes)?;
    let (byte, rest) = read_byte(rest)?;
    let kind = item_kind_of(byte)?;
    Ok((Act::Item { item, kind }, rest))
}

// An act of kind 8 or 9.
#[tactic(auto, unfolding(crate::specs::Readings::leading_stored_grant))]
fn read_grant(alloc: Global, kind: u8, bytes: &[u8]) -> Result<(Act, &[u8]), Fault>
    ensures { ReadsFront (leading_stored_grant kind) bytes.now result }
{
    let (user, rest) = Name::read(alloc, bytes)?;
    let (purpose, rest) = Name::read(alloc, rest)?;
    let (recipient, rest) = Name::read(alloc, rest)?;
    if kind == 8 {
        Ok((
            Act::Authorize {
                user,
                purpose,
                recipient,
            },
            rest,
        ))
    } else {
        Ok((
            Act::Deauthorize {
                user,
                purpose,
                recipient,
            },
            rest,
        ))
    }
}

#[tactic(auto, unfolding(crate::specs::Readings::leading_stored_item))]
fn read_item(alloc: Global, bytes: &[u8]) -> Result<(Option<Name>, &[u8]), Fault>
    ensures { ReadsFront leading_stored_item bytes.now result }
{
    let (byte, rest) = read_byte(bytes)?;
    match byte {
        0 => Ok((None, rest)),
        1 => {
            let (item, rest) = Name::read(alloc, rest)?;
            Ok((Some(item), rest))
        }
        _ => Err(Fault::NoPart),
    }
}

// An act has days only in format 2.
#[tactic(auto, unfolding(crate::specs::Readings::leading_days))]
fn read_days(format: u8, bytes: &[u8]) -> Result<(Option<u32>, &[u8]), Fault>
    ensures { ReadsFront (leading_days format) bytes.now result }
{
    if format != 2 {
        return Ok((None, bytes));
    }
    let (days, rest) = read_short(bytes)?;
    Ok((Some(days), rest))
}

// The purpose, the recipient, the table and the columns of a rule.
#[tactic(auto, unfolding(crate::specs::Readings::leading_stored_rule))]
fn read_rule(alloc: Global, bytes: &[u8]) -> Result<((Name, Name, Name, Places), &[u8]), Fault>
    ensures { ReadsFront leading_stored_rule bytes.now result }
{
    let (purpose, rest) = Name::read(alloc, bytes)?;
    let (recipient, rest) = Name::read(alloc, rest)?;
    let (table, rest) = Name::read(alloc, rest)?;
    let (columns, rest) = Places::read(alloc, rest)?;
    Ok(((purpose, recipient, table, columns), rest))
}

#[tactic(auto, unfolding(crate::specs::Readings::leading_allow))]
fn read_allow(alloc: Global, format: u8, bytes: &[u8]) -> Result<(Act, &[u8]), Fault>
    ensures { ReadsFront (leading_allow format) bytes.now result }
{
    let (rule, rest) = read_rule(alloc, bytes)?;
    let (item, rest) = read_item(alloc, rest)?;
    let (days, rest) = read_days(format, rest)?;
    Ok((
        Act::Allow {
            purpose: rule.0,
            recipient: rule.1,
            table: rule.2,
            columns: rule.3,
            item,
            days,
        },
        rest,
    ))
}

#[tactic(auto, unfolding(crate::specs::Readings::leading_revoke))]
fn read_revoke(alloc: Global, bytes: &[u8]) -> Result<(Act, &[u8]), Fault>
    ensures { ReadsFront leading_revoke bytes.now result }
{
    let (rule, rest) = read_rule(alloc, bytes)?;
    Ok((
        Act::Revoke {
            purpose: rule.0,
            recipient: rule.1,
            table: rule.2,
            columns: rule.3,
        },
        rest,
    ))
}

#[tactic(auto, unfolding(crate::specs::Readings::leading_choice))]
fn read_choice(alloc: Global, bytes: &[u8]) -> Result<(Act, &[u8]), Fault>
    ensures { ReadsFront leading_choice bytes.now result }
{
    let (subject, rest) = read_signed(bytes)?;
    let (item, rest) = Name::read(alloc, rest)?;
    let (byte, rest) = read_byte(rest)?;
    let yes = bool_of(byte)?;
    Ok((Act::Choice { subject, item, yes }, rest))
}

#[tactic(auto, unfolding(crate::specs::Readings::leading_question))]
fn read_question(alloc: Global, bytes: &[u8]) -> Result<(Act, &[u8]), Fault>
    ensures { ReadsFront leading_question bytes.now result }
{
    let (user, rest) = Name::read(alloc, bytes)?;
    let (purpose, rest) = Name::read(alloc, rest)?;
    let (recipient, rest) = Name::read(alloc, rest)?;
    let (text, rest) = read_text(alloc, rest)?;
    Ok((
        Act::Asked {
            user,
            purpose,
            recipient,
            text,
        },
        rest,
    ))
}

fn act_of_kind(alloc: Global, format: u8, kind: u8, bytes: &[u8]) -> Result<(Act, &[u8]), Fault>
    ensures { ReadsFront (act_of_kind format kind) bytes.now result }
{
    match kind {
        1 => read_create(alloc, bytes),
        2 | 3 | 4 => read_change(alloc, kind, bytes),
        5 | 6 => read_new_name(alloc, kind, bytes),
        7 => read_new_item(alloc, bytes),
        8 | 9 => read_grant(alloc, kind, bytes),
        10 => read_allow(alloc, format, bytes),
        11 => read_revoke(alloc, bytes),
        12 => read_choice(alloc, bytes),
        13 => read_question(alloc, bytes),
        _ => Err(Fault::NoPart),
    }
}

fn moment_of(seconds: i64) -> Result<Moment, Fault>
    ensures { GivesReading (λ moment. moment) result (moment_of seconds) }
{
    match Moment::new(seconds) {
        Some(moment) => Ok(moment),
        None => Err(Fault::NoPart),
    }
}

/// Reads the entry at the front; returns it and the bytes after it.
#[tactic(auto, unfolding(crate::specs::Readings::leading_entry))]
pub fn read_entry(alloc: Global, bytes: &[u8]) -> Result<(Entry, &[u8]), Fault>
    ensures { ReadsFront leading_entry bytes.now result }
{
    let (format, rest) = read_byte(bytes)?;
    let (seq, rest) = read_number(rest)?;
    let (seconds, rest) = read_signed(rest)?;
    let moment = moment_of(seconds)?;
    let (kind, rest) = read_byte(rest)?;
    let (act, rest) = act_of_kind(alloc, format, kind, rest)?;
    Ok((Entry { seq, moment, act }, rest))
}
