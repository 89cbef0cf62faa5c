//! The state of a history.
ghost use Rattle.std.specs.Prelude.{◌≡◌, ◌+◌, true, false, [], ◌∷◌, ◌++◌, length, IsOk, OnOk, OnErr};
ghost use Rattle.hippo_values.specs.Moments.{first_moment};
ghost use Rattle.hippo_model.specs.Terms.{History};
ghost use Rattle.hippo_model.specs.declared.entry.Entry.{Entry as HistoryEntry};
ghost use Rattle.hippo_model.specs.Validity.{may_follow};
ghost use Rattle.hippo_policy.specs.Books.{BookRepresents, BookAdds};
ghost use Rattle.hippo_tables.specs.Standing.{is_delete, TablesAdd, TablesAreAsBefore};
ghost use Rattle.hippo_typing.specs.Meanings.{meaning};
ghost use Rattle.hippo_replay.specs.Standing.{Represents, IsNext, takes_no_memory, PartsAdd, Remembers};

use hippo_model::{Entry, Query};
use hippo_policy::PolicyBook;
use hippo_tables::Tables;
use hippo_typing_catalog::Catalog;
use hippo_values::{Memory, Moment};
use std::alloc::Global;

/// The contents of a valid history: its names, rules and rows, the number of its entries, and its
/// latest moments.
#[derive(Drop)]
pub struct State {
    pub catalog: Catalog,
    pub book: PolicyBook,
    pub tables: Tables,
    /// The number of entries.
    pub count: u64,
    /// The moment of the last entry, or the earliest moment if there is none.
    pub last: Moment,
    /// The moment of the last entry but one, or the earliest moment if there is none.
    pub earlier: Moment,
}

fn least_moment() -> Moment
    ensures { result ≡ first_moment }
{
    Moment::new(Moment::FIRST).unwrap()
}

// The book and the tables both take in an entry, or neither does.
fn add_to_both(
    book: &mut PolicyBook,
    tables: &mut Tables,
    alloc: Global,
    entry: &Entry,
) -> Result<(), Memory>
    ensures book { OnOk result (BookAdds book.old book.new entry.now.seq entry.now.act) }
    ensures tables { OnOk result (TablesAdd tables.old tables.new entry.now) }
    ensures same_book { OnErr result ((history : History) → entry.now.seq ≡ length history + 1
        → BookRepresents book.old history → BookRepresents book.new history) }
    ensures same_tables { OnErr result (TablesAreAsBefore tables.old tables.new) }
    ensures room { takes_no_memory entry.now.act ≡ true → IsOk result }
{
    book.add(alloc, entry)?;
    match tables.apply(alloc, entry) {
        Ok(()) => Ok(()),
        Err(Memory) => {
            book.take_back();
            Err(Memory)
        }
    }
}

impl State {
    /// The state of the empty history. Allocates nothing.
    pub fn new(alloc: Global) -> State
        ensures { Represents result [] }
    {
        let catalog = Catalog::new(alloc);
        let book = PolicyBook::new(alloc);
        let tables = Tables::new(alloc);
        let last = least_moment();
        State {
            catalog,
            book,
            tables,
            count: 0,
            last,
            earlier: last,
        }
    }

    /// From now on, the tables of a query keep their rows sorted by the columns that the query
    /// compares with `=`. The query can then find rows by binary search. The history that the state
    /// stands for is unchanged.
    pub fn order_for(&mut self, alloc: Global, query: &Query)
        ensures stands { (history : History) → Represents self.old history
            → Represents self.new history }
        ensures tables { TablesAreAsBefore self.old.tables self.new.tables }
        ensures remembers { (history : History) (entry : HistoryEntry)
            → Remembers self.old history entry
            → Remembers self.new history entry }
    {
        self.tables.order_for(alloc, query);
    }

    // The catalog, the book and the tables all take in an entry, or none does.
    fn add_to_parts(&mut self, alloc: Global, entry: &Entry) -> Result<(), Memory>
        requires next { IsNext self.old entry.now }
        ensures ok { OnOk result (PartsAdd self.old self.new entry.now) }
        ensures last { OnOk result (self.new.last ≡ self.old.last) }
        ensures err { OnErr result ((history : History) → Represents self.old history
            → may_follow meaning history entry.now ≡ true → Represents self.new history) }
        ensures room { takes_no_memory entry.now.act ≡ true → IsOk result }
    {
        self.catalog.add(alloc, entry)?;
        match add_to_both(&mut self.book, &mut self.tables, alloc, entry) {
            Ok(()) => Ok(()),
            Err(Memory) => {
                self.catalog.take_back();
                Err(Memory)
            }
        }
    }

    /// Takes in the entry that comes next. The state then stands for the history with this entry at
    /// its end. When out of memory, the state stands for the same history as before; a Delete or a
    /// question never runs out of memory.
    pub fn add(&mut self, alloc: Global, entry: &Entry) -> Result<(), Memory>
        requires next { IsNext self.old entry.now }
        ensures stands { OnOk result ((history : History) → Represents self.old history
            → may_follow meaning history entry.now ≡ true
            → Represents self.new (history ++ entry.now ∷ [])) }
        ensures remembers { OnOk result (is_delete entry.now.act ≡ false
            → (history : History) → Represents self.old history
            → may_follow meaning history entry.now ≡ true → Remembers self.new history entry.now) }
        ensures count { OnOk result (self.new.count ≡ entry.now.seq) }
        ensures err { OnErr result ((history : History) → Represents self.old history
            → may_follow meaning history entry.now ≡ true → Represents self.new history) }
        ensures room { takes_no_memory entry.now.act ≡ true → IsOk result }
    {
        self.add_to_parts(alloc, entry)?;
        self.earlier = self.last;
        self.last = entry.moment;
        self.count = entry.seq;
        Ok(())
    }

    /// Takes back the entry that was added last, which must not be a Delete. The state then stands
    /// for the history before that entry. Allocates nothing.
    pub fn take_back(&mut self)
        ensures { (history : History) (entry : HistoryEntry) → Remembers self.old history entry
            → Represents self.new history }
    {
        self.catalog.take_back();
        self.book.take_back();
        self.tables.take_back();
        self.count = self.count.saturating_sub(1);
        self.last = self.earlier;
    }

    /// Drops the state and all its parts. Every function that owns a state ends with this call, so
    /// that the proof about dropping its parts is made only here.
    pub fn close(self) {
        drop(self);
    }
}
