//! The names that a history has created.
ghost use Rattle.std.specs.Prelude.{◌≡◌, ◌∷◌, [], ◌++◌, true, IsOk, OnOk, OnErr};
ghost use Rattle.std.specs.Prelude.{is_none, option_copied, option_map, slice_get, length, bytes_eq};
ghost use Rattle.indexmap.specs.IndexMap.{get};
ghost use Rattle.hippo_model.specs.declared.entry.Act.TheVariants.{Create, Purpose, Recipient, Item};
ghost use Rattle.hippo_model.specs.declared.entry.Act.{Act as HistoryAct};
ghost use Rattle.hippo_typing_catalog.specs.Catalogs.{KnownNames, known_at, known_after, creates_new_names};
ghost use Rattle.hippo_typing_catalog.specs.Catalogs.{table_of, has_purpose, has_recipient, item_of};
ghost use Rattle.hippo_typing_catalog.specs.declared.catalog.Newest.TheVariants as Newest;
ghost use Rattle.hippo_typing_catalog.specs.NewestNames.{RemembersNames, creates_nothing, known_before};

use crate::indexed_table::IndexedTable;
use crate::name_spaces::NameSpaces;
use hippo_model::{Act, Entry, ItemKind, Schema};
use hippo_values::{Duplicate, Memory, Name};
use indexmap::{IndexMap, IndexSet};
use std::alloc::Global;

/// The kind of name that the entry added last created.
#[derive(Clone, Copy, PartialEq, Eq)]
pub enum Newest {
    Nothing,
    Table,
    Purpose,
    Recipient,
    Item,
}

/// The tables, purposes, recipients and items of a history.
#[derive(Drop)]
pub struct Catalog {
    names: NameSpaces,
    newest: Newest,
}

// Appends a new name.
#[tactic(auto, using(crate::proofs::NewNames::new_entries))]
fn put<V: Drop>(entries: &mut IndexMap<Name, V>, name: Name, value: V) -> Result<(), Memory>
    requires { is_none (get bytes_eq entries.old name) ≡ true }
    ensures ok { OnOk result (entries.new.entries ≡ entries.old.entries ++ (name, value) ∷ []) }
    ensures err { OnErr result (entries.new.entries ≡ entries.old.entries) }
{
    entries.insert(name, value)?;
    Ok(())
}

impl Catalog {
    /// The catalog of the empty history. Takes no memory.
    pub fn new(alloc: Global) -> Catalog
        ensures { result.names ≡ known_at [] }
    {
        let names = NameSpaces {
            tables: IndexMap::new(alloc),
            purposes: IndexSet::new(alloc),
            recipients: IndexSet::new(alloc),
            items: IndexMap::new(alloc),
        };
        Catalog {
            names,
            newest: Newest::Nothing,
        }
    }

    /// The schema of the table with this name, or none.
    pub fn table(&self, table: &Name) -> Option<&Schema>
        ensures { option_copied result ≡ table_of self.now.names table.now }
    {
        match self.indexed_table(table) {
            Some(found) => Some(found.schema()),
            None => None,
        }
    }

    /// The table with this name, with the index of its columns, or none.
    pub fn indexed_table(&self, table: &Name) -> Option<&IndexedTable>
        ensures { option_copied result ≡ table_of self.now.names table.now }
    {
        self.names.tables.get(table)
    }

    pub fn has_purpose(&self, purpose: &Name) -> bool
        ensures { result ≡ has_purpose self.now.names purpose.now }
    {
        self.names.purposes.contains(purpose)
    }

    pub fn has_recipient(&self, recipient: &Name) -> bool
        ensures { result ≡ has_recipient self.now.names recipient.now }
    {
        self.names.recipients.contains(recipient)
    }

    /// How silence on the item with this name is read, or none if there is no such item.
    pub fn item(&self, item: &Name) -> Option<ItemKind>
        ensures { result ≡ item_of self.now.names item.now }
    {
        self.names.items.get(item).copied()
    }

    /// The number of tables.
    pub fn table_count(&self) -> usize
        ensures { result ≡ length self.now.names.tables }
    {
        self.names.tables.len()
    }

    /// The table at this place in the order of creation, counted from 0.
    pub fn table_at(&self, place: usize) -> Option<&Schema>
        ensures { option_copied result ≡ option_map
            (λ named. named.1) (slice_get self.now.names.tables place) }
    {
        match self.names.tables.get_index(place) {
            Some((_, found)) => Some(found.schema()),
            None => None,
        }
    }

    /// The purposes, in the order of their creation.
    pub fn purposes(&self) -> &[Name]
        ensures { result.now ≡ self.now.names.purposes }
    {
        self.names.purposes.as_slice()
    }

    /// The recipients, in the order of their creation.
    pub fn recipients(&self) -> &[Name]
        ensures { result.now ≡ self.now.names.recipients }
    {
        self.names.recipients.as_slice()
    }

    fn add_table(&mut self, alloc: Global, schema: &Schema) -> Result<(), Memory>
        requires { creates_new_names self.old.names (Create schema.now) ≡ true }
        ensures names { OnOk result (self.new.names
            ≡ known_after self.old.names (Create schema.now)) }
        ensures newest { OnOk result (RemembersNames self.new.newest (Create schema.now)) }
        ensures err { OnErr result (self.new ≡ self.old) }
    {
        let name = schema.name.copy(alloc)?;
        let table = IndexedTable::new(alloc, schema)?;
        put(&mut self.names.tables, name, table)?;
        self.newest = Newest::Table;
        Ok(())
    }

    fn add_purpose(&mut self, alloc: Global, purpose: &Name) -> Result<(), Memory>
        requires { creates_new_names self.old.names (Purpose purpose.now) ≡ true }
        ensures names { OnOk result (self.new.names
            ≡ known_after self.old.names (Purpose purpose.now)) }
        ensures newest { OnOk result (RemembersNames self.new.newest (Purpose purpose.now)) }
        ensures err { OnErr result (self.new ≡ self.old) }
    {
        let purpose = purpose.copy(alloc)?;
        self.names.purposes.insert(purpose)?;
        self.newest = Newest::Purpose;
        Ok(())
    }

    fn add_recipient(&mut self, alloc: Global, recipient: &Name) -> Result<(), Memory>
        requires { creates_new_names self.old.names (Recipient recipient.now) ≡ true }
        ensures names { OnOk result (self.new.names
            ≡ known_after self.old.names (Recipient recipient.now)) }
        ensures newest { OnOk result (RemembersNames self.new.newest (Recipient recipient.now)) }
        ensures err { OnErr result (self.new ≡ self.old) }
    {
        let recipient = recipient.copy(alloc)?;
        self.names.recipients.insert(recipient)?;
        self.newest = Newest::Recipient;
        Ok(())
    }

    fn add_item(&mut self, alloc: Global, item: &Name, kind: ItemKind) -> Result<(), Memory>
        requires { creates_new_names self.old.names (Item item.now kind) ≡ true }
        ensures names { OnOk result (self.new.names
            ≡ known_after self.old.names (Item item.now kind)) }
        ensures newest { OnOk result (RemembersNames self.new.newest (Item item.now kind)) }
        ensures err { OnErr result (self.new ≡ self.old) }
    {
        let item = item.copy(alloc)?;
        put(&mut self.names.items, item, kind)?;
        self.newest = Newest::Item;
        Ok(())
    }

    /// Adds the next entry, which must not create a name that already exists: the catalog then
    /// stands for the history with this entry. Fails only when out of memory, and the catalog is
    /// then unchanged. It never runs out of memory for a Delete.
    pub fn add(&mut self, alloc: Global, entry: &Entry) -> Result<(), Memory>
        requires { creates_new_names self.old.names entry.now.act ≡ true }
        ensures names { OnOk result (self.new.names ≡ known_after self.old.names entry.now.act) }
        ensures newest { OnOk result (RemembersNames self.new.newest entry.now.act) }
        ensures err { OnErr result (self.new ≡ self.old) }
        ensures room { creates_nothing entry.now.act ≡ true → IsOk result }
    {
        match &entry.act {
            Act::Create(schema) => self.add_table(alloc, schema),
            Act::Purpose(purpose) => self.add_purpose(alloc, purpose),
            Act::Recipient(recipient) => self.add_recipient(alloc, recipient),
            Act::Item { item, kind } => self.add_item(alloc, item, *kind),
            _ => {
                self.newest = Newest::Nothing;
                Ok(())
            }
        }
    }

    fn drop_table(&mut self)
        ensures { self.new.names ≡ known_before Newest.Table self.old.names }
    {
        let count = self.names.tables.len();
        self.names.tables.truncate(count.saturating_sub(1));
    }

    fn drop_purpose(&mut self)
        ensures { self.new.names ≡ known_before Newest.Purpose self.old.names }
    {
        let count = self.names.purposes.len();
        self.names.purposes.truncate(count.saturating_sub(1));
    }

    fn drop_recipient(&mut self)
        ensures { self.new.names ≡ known_before Newest.Recipient self.old.names }
    {
        let count = self.names.recipients.len();
        self.names.recipients.truncate(count.saturating_sub(1));
    }

    fn drop_item(&mut self)
        ensures { self.new.names ≡ known_before Newest.Item self.old.names }
    {
        let count = self.names.items.len();
        self.names.items.truncate(count.saturating_sub(1));
    }

    // Removes what the entry added last created.
    fn drop_newest(&mut self)
        ensures { self.new.names ≡ known_before self.old.newest self.old.names }
    {
        match self.newest {
            Newest::Nothing => {}
            Newest::Table => self.drop_table(),
            Newest::Purpose => self.drop_purpose(),
            Newest::Recipient => self.drop_recipient(),
            Newest::Item => self.drop_item(),
        }
    }

    /// Removes the entry added last: the catalog then stands for the history before it. Takes no
    /// memory. The last call that changed the catalog must have added an entry.
    pub fn take_back(&mut self)
        ensures { (known : KnownNames) (act : HistoryAct) → RemembersNames self.old.newest act
            → self.old.names ≡ known_after known act → self.new.names ≡ known }
    {
        self.drop_newest();
    }
}
