//! The rules, choices, authorizations and items of a history, as of every entry number.
ghost use Rattle.std.specs.Prelude.{◌≡◌, true, IsOk, ◌∷◌, [], ◌++◌, ◌+◌, OnOk, OnErr, IfOk};
ghost use Rattle.hippo_model.specs.Terms.{History};
ghost use Rattle.hippo_model.specs.declared.entry.Entry.{Entry as HistoryEntry};
ghost use Rattle.hippo_model.specs.declared.entry.Act.TheVariants.{Item, Choice};
ghost use Rattle.hippo_policy.specs.Books.{BookRepresents, RemembersMatter, BookAdds, AddsUser, AddsRule, BookIsAsBefore, cell_keys, ruled_cells, leaves_book};
ghost use Rattle.hippo_policy.specs.Rulings.{ruling_in};

use crate::keys::{CellKey, ChoiceKey, KeyName, UserKey};
use crate::last_words::{LastWords, Said};
use crate::ruled_tables::RuledTables;
use crate::ruling::Ruling;
use hippo_model::{Act, Authorization, Entry, ItemKind};
use hippo_values::{Memory, Name, Sequence};
use std::alloc::Global;

/// What the last added entry is about: the keys whose values it sets.
#[derive(Drop)]
enum Matter {
    Nothing,
    Cells(Sequence<CellKey<'static>>),
    Choice(ChoiceKey<'static>),
    User(UserKey<'static>),
    Item(KeyName<'static>),
}

/// The rules, choices, authorizations and items of a history, as of every entry number.
#[derive(Drop)]
pub struct PolicyBook {
    pub(crate) rules: RuledTables,
    pub(crate) choices: LastWords<ChoiceKey<'static>, bool>,
    pub(crate) users: LastWords<UserKey<'static>, Authorization>,
    pub(crate) items: LastWords<KeyName<'static>, ItemKind>,
    last: Matter,
}

// The keys of the cells in these columns of a table.
fn cell_keys(
    alloc: Global,
    purpose: &Name,
    recipient: &Name,
    table: &Name,
    columns: &[usize],
) -> Result<Sequence<CellKey<'static>>, Memory>
    ensures { IfOk result (λ keys. keys ≡ cell_keys purpose.now recipient.now table.now
        columns.now) }
{
    let mut keys = Sequence::new(alloc);
    for column in columns {
        let key = CellKey::lent(purpose, recipient, table, *column);
        keys.push(CellKey::owned(alloc, &key)?)?;
    }
    Ok(keys)
}

// The keys of the cells that an ALLOW or a REVOKE names; none for any other act.
fn ruled_cells(alloc: Global, act: &Act) -> Result<Sequence<CellKey<'static>>, Memory>
    ensures { IfOk result (λ keys. keys ≡ ruled_cells act.now) }
{
    match act {
        Act::Allow {
            purpose,
            recipient,
            table,
            columns,
            ..
        }
        | Act::Revoke {
            purpose,
            recipient,
            table,
            columns,
        } => cell_keys(alloc, purpose, recipient, table, columns.as_slice()),
        _ => Ok(Sequence::new(alloc)),
    }
}

impl PolicyBook {
    /// The book of the empty history. Takes no memory.
    pub fn new(alloc: Global) -> PolicyBook
        ensures { BookRepresents result [] }
    {
        PolicyBook {
            rules: RuledTables::new(alloc),
            choices: LastWords::new(alloc),
            users: LastWords::new(alloc),
            items: LastWords::new(alloc),
            last: Matter::Nothing,
        }
    }

    // Stores what the last entry is about, for `take_back`.
    fn remember(&mut self, last: Matter)
        ensures { self.new ≡ record {
          rules = self.old.rules;
          choices = self.old.choices;
          users = self.old.users;
          items = self.old.items;
          last = last;
        } }
    {
        self.last = last;
    }

    fn add_item(
        &mut self,
        alloc: Global,
        number: u64,
        item: &Name,
        kind: ItemKind,
    ) -> Result<(), Memory>
        ensures ok { OnOk result (BookAdds self.old self.new number (Item item.now kind)) }
        ensures err { OnErr result (BookIsAsBefore self.old self.new) }
    {
        let key = KeyName::owned(alloc, item)?;
        let last = KeyName::owned(alloc, item)?;
        self.items.push(alloc, key, Said { number, word: kind })?;
        self.remember(Matter::Item(last));
        Ok(())
    }

    fn add_choice(
        &mut self,
        alloc: Global,
        number: u64,
        subject: &i64,
        item: &Name,
        yes: bool,
    ) -> Result<(), Memory>
        ensures ok { OnOk result (BookAdds self.old self.new number
            (Choice subject.now item.now yes)) }
        ensures err { OnErr result (BookIsAsBefore self.old self.new) }
    {
        let key = ChoiceKey::owned(alloc, subject, item)?;
        let last = ChoiceKey::owned(alloc, subject, item)?;
        self.choices.push(alloc, key, Said { number, word: yes })?;
        self.remember(Matter::Choice(last));
        Ok(())
    }

    fn add_user(
        &mut self,
        alloc: Global,
        number: u64,
        user: &Name,
        purpose: &Name,
        recipient: &Name,
        word: Authorization,
    ) -> Result<(), Memory>
        ensures ok { OnOk result (AddsUser self.old self.new number
            (record { user = user.now; purpose = purpose.now; recipient = recipient.now }) word) }
        ensures err { OnErr result (BookIsAsBefore self.old self.new) }
    {
        let key = UserKey::owned(alloc, user, purpose, recipient)?;
        let last = UserKey::owned(alloc, user, purpose, recipient)?;
        self.users.push(alloc, key, Said { number, word })?;
        self.remember(Matter::User(last));
        Ok(())
    }

    // Adds an ALLOW or a REVOKE.
    fn add_rule(&mut self, alloc: Global, number: u64, act: &Act) -> Result<(), Memory>
        ensures ok { OnOk result
            (AddsRule self.old self.new number (ruled_cells act.now) (ruling_in number act.now)) }
        ensures err { OnErr result (BookIsAsBefore self.old self.new) }
    {
        let keys = ruled_cells(alloc, act)?;
        let ruling = Ruling::of(alloc, number, act)?;
        self.rules
            .push_all(alloc, keys.as_slice(), number, &ruling)?;
        self.remember(Matter::Cells(keys));
        Ok(())
    }

    /// Adds the next entry of the history: the book then represents the history with this entry
    /// appended. Fails when out of memory, and leaves the book unchanged; adding a Delete never
    /// fails. A rule that names a column from 65,536 on also fails with `Memory`.
    pub fn add(&mut self, alloc: Global, entry: &Entry) -> Result<(), Memory>
        ensures ok { OnOk result (BookAdds self.old self.new entry.now.seq entry.now.act) }
        ensures err { OnErr result (BookIsAsBefore self.old self.new) }
        ensures deletes { leaves_book entry.now.act ≡ true → IsOk result }
    {
        let seq = entry.seq;
        match &entry.act {
            Act::Item { item, kind } => self.add_item(alloc, seq, item, *kind),
            Act::Authorize {
                user,
                purpose,
                recipient,
            } => self.add_user(alloc, seq, user, purpose, recipient, Authorization::Yes),
            Act::Deauthorize {
                user,
                purpose,
                recipient,
            } => self.add_user(alloc, seq, user, purpose, recipient, Authorization::No(seq)),
            Act::Allow { .. } => self.add_rule(alloc, seq, &entry.act),
            Act::Revoke { .. } => self.add_rule(alloc, seq, &entry.act),
            Act::Choice { subject, item, yes } => self.add_choice(alloc, seq, subject, item, *yes),
            _ => Ok(self.remember(Matter::Nothing)),
        }
    }

    /// Removes the entry that was added last: the book then represents the history before it. Takes
    /// no memory. The last call that changed the book must have added an entry; otherwise the book
    /// represents no history.
    pub fn take_back(&mut self)
        ensures { (history : History) (entry : HistoryEntry) → RemembersMatter self.old entry.act
            → BookRepresents self.old (history ++ entry ∷ []) → BookRepresents self.new history }
    {
        match &self.last {
            Matter::Nothing => {}
            Matter::Cells(keys) => self.rules.pop_all(keys.as_slice()),
            Matter::Choice(key) => self.choices.pop(key),
            Matter::User(key) => self.users.pop(key),
            Matter::Item(key) => self.items.pop(key),
        }
    }
}
