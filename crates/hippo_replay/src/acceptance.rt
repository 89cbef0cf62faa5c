//! Whether an entry may come next.
ghost use Rattle.std.specs.Prelude.{◌≡◌, true, ◌&&◌, ◌+◌, ◌==◌, length, Some, IfOk, is_some, is_none, nat_lt};
ghost use Rattle.hippo_values.specs.Limits.{table_limit};
ghost use Rattle.hippo_model.specs.Terms.{History};
ghost use Rattle.hippo_model.specs.declared.entry.Act.TheVariants.{Insert, Update, Delete, Asked};
ghost use Rattle.hippo_model.specs.declared.schema.Schema.{Schema as TableSchema};
ghost use Rattle.hippo_model.specs.Histories.{schema_at, item_at};
ghost use Rattle.hippo_model.specs.Keepable.{is_keepable};
ghost use Rattle.hippo_model.specs.Rows.{key_of};
ghost use Rattle.hippo_model.specs.Rules.{authorized_at};
ghost use Rattle.hippo_model.specs.Versions.{is_live};
ghost use Rattle.hippo_model.specs.Validity.{is_purpose, is_recipient, pair_exists, create_fits, has_columns, table_passes, has_subject, item_fits, is_table_version, is_authorized, is_acceptable, keeps_order, may_follow};
ghost use Rattle.hippo_typing_catalog.specs.Catalogs.{table_of};
ghost use Rattle.hippo_typing.specs.Meanings.{meaning};
ghost use Rattle.hippo_replay.specs.Standing.{Represents};
ghost use Rattle.hippo_replay.specs.NamedPairs.{named_pair_exists};

use crate::schemas::{days_fit, has_columns, is_well_formed};
use crate::state::State;
use hippo_model::{Act, Authorization, Cells, Entry, Places, Schema};
use hippo_tables::{key_fits, row_fits};
use hippo_typing::read_meaning;
use hippo_typing_catalog::Catalog;
use hippo_values::{Memory, Moment, Name, TABLE_LIMIT, Txt};
use std::alloc::Global;

// Whether something was found. Drops it.
fn was_found<T: Drop>(found: Option<T>) -> bool
    ensures { result ≡ is_some found }
{
    found.is_some()
}

// Whether one more table is allowed, and it may have this name.
fn may_make(catalog: &Catalog, name: &Name) -> bool
    ensures { result ≡ (nat_lt (length catalog.now.names.tables) table_limit
        && is_none (table_of catalog.now.names name.now)) }
{
    catalog.table_count() < TABLE_LIMIT && catalog.table(name).is_none()
}

impl State {
    fn has_purpose(&self, purpose: &Name) -> bool
        ensures { (history : History) → Represents self.now history
            → result ≡ is_purpose history purpose.now }
    {
        self.catalog.has_purpose(purpose)
    }

    fn has_recipient(&self, recipient: &Name) -> bool
        ensures { (history : History) → Represents self.now history
            → result ≡ is_recipient history recipient.now }
    {
        self.catalog.has_recipient(recipient)
    }

    fn has_item(&self, item: &Name) -> bool
        ensures { (history : History) → Represents self.now history
            → result ≡ is_some (item_at history item.now) }
    {
        self.catalog.item(item).is_some()
    }

    fn has_pair(&self, purpose: &Name, recipient: &Name) -> bool
        ensures { (history : History) → Represents self.now history
            → result ≡ pair_exists history purpose.now recipient.now }
    {
        self.has_purpose(purpose) && self.has_recipient(recipient)
    }

    fn may_create(&self, schema: &Schema) -> bool
        ensures { (history : History) → Represents self.now history
            → result ≡ create_fits history schema.now }
    {
        may_make(&self.catalog, &schema.name) && is_well_formed(schema)
    }

    // Whether the table has a row with the same key as this one.
    fn is_live_like(&self, table: &Name, row: &Cells) -> bool
        ensures { (history : History) (schema : TableSchema) → Represents self.now history
            → schema_at history table.now ≡ Some schema
            → result ≡ is_live schema history (key_of schema.key row.now) }
    {
        match self.tables.rows(table) {
            None => false,
            Some(rows) => rows.find_like(row).is_some(),
        }
    }

    // Whether the table has a row with this key.
    fn is_live_key(&self, table: &Name, key: &Cells) -> bool
        ensures { (history : History) (schema : TableSchema) → Represents self.now history
            → schema_at history table.now ≡ Some schema → result ≡ is_live schema history key.now }
    {
        self.tables.row(table, key).is_some()
    }

    fn may_insert(&self, table: &Name, row: &Cells) -> bool
        ensures { (history : History) → Represents self.now history
            → result ≡ is_table_version history table.now (Insert table.now row.now) }
    {
        match self.tables.schema(table) {
            None => false,
            Some(schema) => row_fits(schema, row) && !self.is_live_like(table, row),
        }
    }

    fn may_update(&self, table: &Name, row: &Cells) -> bool
        ensures { (history : History) → Represents self.now history
            → result ≡ is_table_version history table.now (Update table.now row.now) }
    {
        match self.tables.schema(table) {
            None => false,
            Some(schema) => row_fits(schema, row) && self.is_live_like(table, row),
        }
    }

    fn may_delete(&self, table: &Name, key: &Cells) -> bool
        ensures { (history : History) → Represents self.now history
            → result ≡ is_table_version history table.now (Delete table.now key.now) }
    {
        match self.tables.schema(table) {
            None => false,
            Some(schema) => key_fits(schema, key) && self.is_live_key(table, key),
        }
    }

    // Whether the table has these columns.
    fn has_columns(&self, table: &Name, columns: &Places) -> bool
        ensures { (history : History) → Represents self.now history
            → result ≡ table_passes history (has_columns columns.now) table.now }
    {
        match self.tables.schema(table) {
            None => false,
            Some(schema) => has_columns(columns, schema),
        }
    }

    fn has_subject(&self, table: &Name) -> bool
        ensures { (history : History) → Represents self.now history
            → result ≡ table_passes history has_subject table.now }
    {
        match self.tables.schema(table) {
            None => false,
            Some(schema) => schema.subject.is_some(),
        }
    }

    // Whether the purpose and the recipient that a grant or a rule names exist.
    fn has_named_pair(&self, act: &Act) -> bool
        ensures { (history : History) → Represents self.now history
            → result ≡ named_pair_exists history act.now }
    {
        match act {
            Act::Authorize {
                purpose,
                recipient,
                ..
            }
            | Act::Deauthorize {
                purpose,
                recipient,
                ..
            }
            | Act::Allow {
                purpose,
                recipient,
                ..
            }
            | Act::Revoke {
                purpose,
                recipient,
                ..
            } => self.has_pair(purpose, recipient),
            _ => true,
        }
    }

    // Whether a rule's purpose, recipient, table and columns exist.
    fn may_rule(&self, rule: &Act, table: &Name, columns: &Places) -> bool
        ensures { (history : History) → Represents self.now history → result
            ≡ (named_pair_exists history rule.now
            && table_passes history (has_columns columns.now) table.now) }
    {
        self.has_named_pair(rule) && self.has_columns(table, columns)
    }

    // Whether a rule's item, if it has one, exists and suits the table.
    fn item_fits(&self, table: &Name, item: &Option<Name>) -> bool
        ensures { (history : History) → Represents self.now history
            → result ≡ item_fits history table.now item.now }
    {
        match item {
            None => true,
            Some(item) => self.has_item(item) && self.has_subject(table),
        }
    }

    fn is_authorized(&self, user: &Name, purpose: &Name, recipient: &Name) -> bool
        ensures { (history : History) → Represents self.now history
            → result ≡ is_authorized (authorized_at history user.now purpose.now recipient.now) }
    {
        let word = self
            .book
            .authorized_at(self.count, user, purpose, recipient);
        matches!(word, Authorization::Yes)
    }

    // Whether the text has a meaning, that is, a query.
    fn has_meaning(&self, alloc: Global, text: &Txt) -> Result<bool, Memory>
        ensures { (history : History) → Represents self.now history
            → IfOk result (λ means. means ≡ is_some (meaning history text.now)) }
    {
        Ok(was_found(read_meaning(alloc, &self.catalog, text.as_str())?))
    }

    fn may_ask(
        &self,
        alloc: Global,
        user: &Name,
        purpose: &Name,
        recipient: &Name,
        text: &Txt,
    ) -> Result<bool, Memory>
        ensures { (history : History) → Represents self.now history
            → IfOk result (λ accepted. accepted
            ≡ is_acceptable meaning history (Asked user.now purpose.now recipient.now text.now)) }
    {
        if !self.is_authorized(user, purpose, recipient) {
            return Ok(false);
        }
        self.has_meaning(alloc, text)
    }

    // Whether an act may come next.
    fn accepts_act(&self, alloc: Global, act: &Act) -> Result<bool, Memory>
        ensures { (history : History) → Represents self.now history
            → IfOk result (λ accepted. accepted ≡ is_acceptable meaning history act.now) }
    {
        match act {
            Act::Create(schema) => Ok(self.may_create(schema)),
            Act::Insert { table, row } => Ok(self.may_insert(table, row)),
            Act::Update { table, row } => Ok(self.may_update(table, row)),
            Act::Delete { table, key } => Ok(self.may_delete(table, key)),
            Act::Purpose(purpose) => Ok(!self.has_purpose(purpose)),
            Act::Recipient(recipient) => Ok(!self.has_recipient(recipient)),
            Act::Item { item, .. } => Ok(!self.has_item(item)),
            Act::Authorize { .. } => Ok(self.has_named_pair(act)),
            Act::Deauthorize { .. } => Ok(self.has_named_pair(act)),
            Act::Allow {
                table,
                columns,
                item,
                days,
                ..
            } => Ok(
                self.may_rule(act, table, columns)
                    && self.item_fits(table, item)
                    && days_fit(*days),
            ),
            Act::Revoke { table, columns, .. } => Ok(self.may_rule(act, table, columns)),
            Act::Choice { item, .. } => Ok(self.has_item(item)),
            Act::Asked {
                user,
                purpose,
                recipient,
                text,
            } => self.may_ask(alloc, user, purpose, recipient, text),
        }
    }

    // Whether this is the number of the next entry.
    fn is_next_number(&self, number: u64) -> bool
        ensures { (history : History) → Represents self.now history
            → result ≡ (number == length history + 1) }
    {
        number > self.count && number - self.count == 1
    }

    // Whether a moment is not earlier than that of the last entry.
    fn keeps_order(&self, moment: &Moment) -> bool
        ensures { (history : History) → Represents self.now history
            → result ≡ keeps_order history moment.now }
    {
        self.last.seconds() <= moment.seconds()
    }

    /// Whether a storable entry may come next. It may if its number is the next one, its moment is
    /// not earlier than that of the last entry, and its act is acceptable. The only error is
    /// running out of memory.
    pub fn accepts(&self, alloc: Global, entry: &Entry) -> Result<bool, Memory>
        requires keepable { is_keepable entry.now ≡ true }
        ensures { (history : History) → Represents self.now history
            → IfOk result (λ accepted. accepted ≡ may_follow meaning history entry.now) }
    {
        if !self.is_next_number(entry.seq) || !self.keeps_order(&entry.moment) {
            return Ok(false);
        }
        self.accepts_act(alloc, &entry.act)
    }
}
