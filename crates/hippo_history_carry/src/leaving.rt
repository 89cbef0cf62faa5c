//! The entries that are left of a history, found backwards: an entry is left if no entry after it
//! decides on the same matter.
ghost use Rattle.std.specs.Prelude.{◌≡◌, not, ◌∷◌, ◌++◌, reverse, List, Some, option_map, option_copied, IfOk, OnOk};
ghost use Rattle.std.specs.Bool.{then_some};
ghost use Rattle.hippo_model.specs.declared.entry.Act.TheVariants.{Insert, Allow, Revoke};
ghost use Rattle.hippo_model.specs.declared.entry.Entry.{Entry as HistoryEntry};
ghost use Rattle.hippo_model.specs.declared.schema.Schema.{Schema as TableSchema};
ghost use Rattle.hippo_model.specs.Histories.{schema_at};
ghost use Rattle.hippo_model.specs.Terms.{History};
ghost use Rattle.hippo_tables.specs.Standing.{TablesStandFor};
ghost use Rattle.hippo_history_carry.specs.Carrying.{is_carriable, may_stay, rule_on, birth_of, with_act, entry_left, entries_left};
ghost use Rattle.hippo_history_carry.specs.Decisions.{IsDecidedBy, is_granted_in, is_chosen_in, AddsGrant, AddsChoice, AddsBirth, AddsCells};
ghost use Rattle.hippo_history_carry.specs.Leaving.{LeavesAct, undecided};

use crate::decided::Decided;
use crate::keys::Ruled;
use hippo_model::{Act, Cells, Entry, Places, copied_key};
use hippo_tables::Tables;
use hippo_values::{Duplicate, Memory, Name};
use std::alloc::Global;

/// Whether an entry may be left, whatever comes after it: it is no question, and no update or delete
/// of a row.
pub fn is_carriable(entry: &Entry) -> bool
    ensures { result ≡ is_carriable entry.now }
{
    may_stay(&entry.act)
}

fn may_stay(act: &Act) -> bool
    ensures { result ≡ may_stay act.now }
{
    match act {
        Act::Update { .. } => false,
        Act::Delete { .. } => false,
        Act::Asked { .. } => false,
        _ => true,
    }
}

// A copy of an act that is left.
fn copied_if(alloc: Global, is_left: bool, act: &Act) -> Result<Option<Act>, Memory>
    ensures { IfOk result (λ left. left ≡ then_some is_left act.now) }
{
    if is_left {
        Ok(Some(act.copy(alloc)?))
    } else {
        Ok(None)
    }
}

fn inserted(alloc: Global, table: &Name, row: &Cells) -> Result<Act, Memory>
    ensures { IfOk result (λ act. act ≡ Insert table.now row.now) }
{
    let table = table.copy(alloc)?;
    let row = row.copy(alloc)?;
    Ok(Act::Insert { table, row })
}

// The INSERT of a row with its values of today, if it lives.
fn insert_of(alloc: Global, table: &Name, row: Option<&Cells>) -> Result<Option<Act>, Memory>
    ensures { IfOk result (λ left. left ≡ option_map (Insert table.now) (option_copied row.entry)) }
{
    match row {
        None => Ok(None),
        Some(row) => Ok(Some(inserted(alloc, table, row)?)),
    }
}

// What is left of an INSERT of a row with this key.
fn birth_of(
    alloc: Global,
    tables: &Tables,
    table: &Name,
    key: &Cells,
    decided: &mut Decided,
) -> Result<Option<Act>, Memory>
    ensures left { (history later : History) (schema : TableSchema)
        → TablesStandFor tables.now history → IsDecidedBy history decided.old later
        → schema_at history table.now ≡ Some schema
        → IfOk result (λ left. left ≡ birth_of history later table.now schema key.now) }
    ensures adds { OnOk result (AddsBirth decided.old decided.new table.now key.now) }
{
    let is_last = decided.add_birth(alloc, table, key)?;
    if is_last {
        insert_of(alloc, table, tables.row(table, key))
    } else {
        Ok(None)
    }
}

// What is left of an INSERT.
fn birth_left(
    alloc: Global,
    tables: &Tables,
    table: &Name,
    row: &Cells,
    decided: &mut Decided,
) -> Result<Option<Act>, Memory>
    ensures leaves { LeavesAct (Insert table.now row.now) tables.now result decided.old
        decided.new }
{
    match tables.schema(table) {
        None => Ok(None),
        Some(schema) => {
            let key = copied_key(alloc, schema.key.as_slice(), row.as_slice())?;
            let left = birth_of(alloc, tables, table, &key, decided);
            drop(key);
            left
        }
    }
}

// What is left of a word on a user's authorization.
fn grant_left(
    alloc: Global,
    user: &Name,
    purpose: &Name,
    recipient: &Name,
    act: &Act,
    decided: &mut Decided,
) -> Result<Option<Act>, Memory>
    ensures left { IfOk result (λ left. left ≡ then_some
        (not (is_granted_in decided.old user.now purpose.now recipient.now)) act.now) }
    ensures adds { OnOk result
        (AddsGrant decided.old decided.new user.now purpose.now recipient.now) }
{
    let is_last = decided.add_grant(alloc, user, purpose, recipient)?;
    let left = copied_if(alloc, is_last, act)?;
    Ok(left)
}

// What is left of a patient's choice.
fn choice_left(
    alloc: Global,
    subject: &i64,
    item: &Name,
    act: &Act,
    decided: &mut Decided,
) -> Result<Option<Act>, Memory>
    ensures left { IfOk result (λ left. left ≡ then_some
        (not (is_chosen_in decided.old subject.now item.now)) act.now) }
    ensures adds { OnOk result (AddsChoice decided.old decided.new subject.now item.now) }
{
    let is_last = decided.add_choice(alloc, subject, item)?;
    let left = copied_if(alloc, is_last, act)?;
    Ok(left)
}

// The columns that are left of a rule, which is then taken in.
fn ruled_columns(
    alloc: Global,
    ruled: &Ruled<'_>,
    columns: &Places,
    decided: &mut Decided,
) -> Result<Places, Memory>
    ensures left { IfOk result (λ left. left ≡ undecided decided.old ruled.now.purpose.now
        ruled.now.recipient.now ruled.now.table.now columns.now) }
    ensures adds { OnOk result (AddsCells decided.old decided.new ruled.now.purpose.now
        ruled.now.recipient.now ruled.now.table.now columns.now) }
{
    let left = decided.columns_left(alloc, ruled, columns.as_slice())?;
    match decided.add_rule(alloc, ruled, columns.as_slice()) {
        Ok(()) => Ok(left),
        Err(Memory) => Err(Memory),
    }
}

// An ALLOW of other columns.
fn allow_with(
    alloc: Global,
    ruled: &Ruled<'_>,
    columns: Places,
    item: &Option<Name>,
    days: Option<u32>,
) -> Result<Act, Memory>
    ensures { IfOk result (λ act. act ≡ Allow ruled.now.purpose.now ruled.now.recipient.now
        ruled.now.table.now columns item.now days) }
{
    let purpose = ruled.purpose.copy(alloc)?;
    let recipient = ruled.recipient.copy(alloc)?;
    let table = ruled.table.copy(alloc)?;
    let item = item.copy(alloc)?;
    Ok(Act::Allow {
        purpose,
        recipient,
        table,
        columns,
        item,
        days,
    })
}

// A REVOKE of other columns.
fn revoke_with(alloc: Global, ruled: &Ruled<'_>, columns: Places) -> Result<Act, Memory>
    ensures { IfOk result (λ act. act ≡ Revoke ruled.now.purpose.now ruled.now.recipient.now
        ruled.now.table.now columns) }
{
    let purpose = ruled.purpose.copy(alloc)?;
    let recipient = ruled.recipient.copy(alloc)?;
    let table = ruled.table.copy(alloc)?;
    Ok(Act::Revoke {
        purpose,
        recipient,
        table,
        columns,
    })
}

// What is left of an ALLOW.
fn allow_left(
    alloc: Global,
    ruled: &Ruled<'_>,
    columns: &Places,
    item: &Option<Name>,
    days: Option<u32>,
    decided: &mut Decided,
) -> Result<Option<Act>, Memory>
    ensures left { IfOk result (λ left. left ≡ rule_on (λ columns. Allow ruled.now.purpose.now
        ruled.now.recipient.now ruled.now.table.now columns item.now days) (undecided decided.old
        ruled.now.purpose.now ruled.now.recipient.now ruled.now.table.now columns.now)) }
    ensures adds { OnOk result (AddsCells decided.old decided.new ruled.now.purpose.now
        ruled.now.recipient.now ruled.now.table.now columns.now) }
{
    let left = ruled_columns(alloc, ruled, columns, decided)?;
    if left.is_empty() {
        Ok(None)
    } else {
        Ok(Some(allow_with(alloc, ruled, left, item, days)?))
    }
}

// What is left of a REVOKE.
fn revoke_left(
    alloc: Global,
    ruled: &Ruled<'_>,
    columns: &Places,
    decided: &mut Decided,
) -> Result<Option<Act>, Memory>
    ensures left { IfOk result (λ left. left ≡ rule_on (Revoke ruled.now.purpose.now
        ruled.now.recipient.now ruled.now.table.now) (undecided decided.old
        ruled.now.purpose.now ruled.now.recipient.now ruled.now.table.now columns.now)) }
    ensures adds { OnOk result (AddsCells decided.old decided.new ruled.now.purpose.now
        ruled.now.recipient.now ruled.now.table.now columns.now) }
{
    let left = ruled_columns(alloc, ruled, columns, decided)?;
    if left.is_empty() {
        Ok(None)
    } else {
        Ok(Some(revoke_with(alloc, ruled, left)?))
    }
}

// What is left of an act, by the later acts, whose matters are decided. Those of this act are then
// decided, too.
fn act_left(
    alloc: Global,
    tables: &Tables,
    act: &Act,
    decided: &mut Decided,
) -> Result<Option<Act>, Memory>
    ensures leaves { LeavesAct act.now tables.now result decided.old decided.new }
{
    match act {
        Act::Insert { table, row } => birth_left(alloc, tables, table, row, decided),
        Act::Update { .. } => Ok(None),
        Act::Delete { .. } => Ok(None),
        Act::Asked { .. } => Ok(None),
        Act::Authorize {
            user,
            purpose,
            recipient,
        } => grant_left(alloc, user, purpose, recipient, act, decided),
        Act::Deauthorize {
            user,
            purpose,
            recipient,
        } => grant_left(alloc, user, purpose, recipient, act, decided),
        Act::Allow {
            purpose,
            recipient,
            table,
            columns,
            item,
            days,
        } => {
            let ruled = Ruled {
                purpose,
                recipient,
                table,
            };
            allow_left(alloc, &ruled, columns, item, *days, decided)
        }
        Act::Revoke {
            purpose,
            recipient,
            table,
            columns,
        } => {
            let ruled = Ruled {
                purpose,
                recipient,
                table,
            };
            revoke_left(alloc, &ruled, columns, decided)
        }
        Act::Choice { subject, item, .. } => choice_left(alloc, subject, item, act, decided),
        _ => copied_if(alloc, true, act),
    }
}

fn with_act(entry: &Entry, act: Act) -> Entry
    ensures { result ≡ with_act entry.now act }
{
    Entry {
        seq: entry.seq,
        moment: entry.moment,
        act,
    }
}

// Adds what is left of an entry, by the later entries, whose matters are decided. Those of this
// entry are then decided, too.
fn add_left(
    alloc: Global,
    tables: &Tables,
    entry: &Entry,
    decided: &mut Decided,
    left: &mut Vec<Entry>,
) -> Result<(), Memory>
    ensures left { (history later : History) → TablesStandFor tables.now history
        → IsDecidedBy history decided.old later
        → OnOk result (reverse left.new.items
        ≡ entry_left history later entry.now ++ reverse left.old.items) }
    ensures decides { (history later : History) → TablesStandFor tables.now history
        → IsDecidedBy history decided.old later
        → OnOk result (IsDecidedBy history decided.new (entry.now ∷ later)) }
{
    match act_left(alloc, tables, &entry.act, decided) {
        Ok(None) => Ok(()),
        Ok(Some(act)) => {
            left.push(with_act(entry, act))?;
            Ok(())
        }
        Err(Memory) => Err(Memory),
    }
}

/// What is left of the last entries of the history that the tables stand for. The last entry comes
/// first. The only error is running out of memory.
pub fn left_backwards(
    alloc: Global,
    tables: &Tables,
    entries: &[Entry],
) -> Result<Vec<Entry>, Memory>
    ensures left { (history : History) → TablesStandFor tables.now history
        → IfOk result (λ left. reverse left.items ≡ entries_left history entries.now) }
{
    let mut decided = Decided::new(alloc);
    let mut left = Vec::new(alloc);
    for place in 0..entries.len() {
        let entry = &entries[entries.len() - 1 - place];
        add_left(alloc, tables, entry, &mut decided, &mut left)?;
    }
    Ok(left)
}
