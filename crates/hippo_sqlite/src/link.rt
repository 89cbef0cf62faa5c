//! A keeper's connection to its store.
ghost use Rattle.std.specs.Prelude.{◌≡◌, ◌+◌, ◌^◌, ◌<◌, ◌≤◌, true, false, Err, List, [], map, length, if◌then◌else◌, IfOk, IfSome, ⊤};
ghost use Rattle.sqlite.specs.State.{HasCleanDisk, Survives, CommitsShowing, Opens, IsLive};
ghost use Rattle.sqlite.specs.Held.{state};
ghost use Rattle.hippo_keeper.specs.Answering.{has_failed};
ghost use Rattle.hippo_keeper.specs.Keeping.{RisesAbove, next_number};
ghost use Rattle.hippo_keeper.specs.Selecting.{selected_entries, was_asked_in, is_selected, versions_read};
ghost use Rattle.hippo_sqlite.specs.Contents.{AppendsTo, HasRead};
ghost use Rattle.hippo_sqlite.specs.Leaving.{IsLeftBy};
ghost use Rattle.hippo_sqlite.specs.Links.{linked_contents, link_contents};
ghost use Rattle.hippo_sqlite.specs.Outcomes.{HasExecuted, HasLooked, IsLinked};
ghost use Rattle.hippo_sqlite_table.specs.Queries.{insert_sql, read_sql, params_of};
ghost use Rattle.hippo_sqlite.specs.Standings.{IsStarted};
ghost use Rattle.hippo_sqlite_table.specs.Tables.{HistoryRow, row_of, values_of, stored_row, entries_in, AreInOrder, history_schema, is_foreign};

use crate::faults::fault_of;
use hippo_keeper::{
    CountedKeeper, Keeper, KeeperFails, KeeperFault, MemoryKeeper, ReadQuery, ReadResult,
    Selection, Steps, counted,
};
use hippo_model::{StoredEntry, StoredList};
use hippo_sqlite_table::{create_history, entries_of, insert, select};
use hippo_values::Moment;
use sqlite::{Alter, Connection};
use sqlite_schema::schema::Schema;
use std::alloc::Global;
use std::snapshot::Snapshot;
use std::sync::ledger::Ledger;

// Every entry's number is below this one.
const NUMBERS: u64 = 1 << 63;

/// A connection to a store that has the table `history`.
#[derive(Drop)]
pub(crate) struct Linked<S: Alter + Drop> {
    connection: Connection<S>,
    // The connection after the last call that did not fail.
    told: Snapshot<Connection<S>>,
    // The connection as it was opened.
    opened: Snapshot<Connection<S>>,
}

/// Where the entries are: in memory, or in a store that an opener connected to.
#[derive(Drop)]
pub(crate) enum Link<S: Alter + Drop> {
    Absent,
    InMemory(MemoryKeeper),
    Opened(Linked<S>),
}

// Stores one more entry.
fn keep<S: Alter>(connection: &mut Connection<S>, entry: &StoredEntry) -> Result<(), KeeperFault>
    requires { entry.now.seq < 2 ^ 63 }
    ensures executed { HasExecuted insert_sql (values_of (row_of entry.now)) result
        (state S.Store connection.old) (state S.Store connection.new) }
    ensures kind { entry.now.kind < 256 }
{
    match insert(connection, entry) {
        Ok(_) => Ok(()),
        Err(error) => Err(fault_of(error)),
    }
}

// The stored entries that the read query asks for.
fn find<S: Alter>(
    connection: &mut Connection<S>,
    alloc: Global,
    read_query: &ReadQuery<'_>,
) -> ReadResult
    requires above { read_query.now.after < 2 ^ 63 }
    requires limit { read_query.now.max ≤ 1000 }
    ensures few { IfOk result (λ list. length list ≤ read_query.now.max) }
    ensures order { IfOk result (RisesAbove read_query.now.after) }
    ensures looked { HasCleanDisk (state S.Store connection.new)
        → HasLooked (read_sql read_query.now.selection)
        (params_of read_query.now.selection read_query.now.after read_query.now.max)
        (state S.Store connection.old) (state S.Store connection.new) }
    ensures survives { Survives (state S.Store connection.old) (state S.Store connection.new)
        (CommitsShowing (read_sql read_query.now.selection)
        (params_of read_query.now.selection read_query.now.after read_query.now.max)
        (state S.Store connection.old)) }
    ensures told { IfOk result (λ list. HasCleanDisk (state S.Store connection.new)
        → (rows : List HistoryRow)
        → (state S.Store connection.old).now.schema ≡ history_schema
        → (state S.Store connection.old).now.trees 0 ≡ map stored_row rows → AreInOrder rows
        → list ≡ selected_entries (is_selected read_query.now.selection) read_query.now.after
        read_query.now.max
        (entries_in (map stored_row rows))) }
{
    match select(connection, read_query) {
        Ok(rows) => match entries_of(alloc, rows.as_slice(), read_query.after, read_query.max) {
            Ok(list) => Ok(list),
            Err(fault) => Err(fault.fault()),
        },
        Err(error) => Err(fault_of(error)),
    }
}

// Whether the database belongs to another program: it has tables or views, and no table named
// `history`.
fn is_foreign(schema: &Schema) -> bool
    ensures { result ≡ is_foreign schema.now }
{
    let is_new = schema.tables.as_slice().is_empty() && schema.views.as_slice().is_empty();
    !is_new && schema.table_named(b"history").is_none()
}

impl<S: Alter + Drop> Linked<S> {
    /// The store of a new connection. Creates the table `history` if there is none. Refuses the
    /// database of another program, and writes nothing to it.
    fn new(mut connection: Connection<S>) -> Result<Linked<S>, KeeperFault>
        requires { HasCleanDisk (state S.Store connection)
            → Opens (state S.Store connection) × IsLive (state S.Store connection) }
        ensures linked { IfOk result (λ it. IsLinked (state S.Store connection)
            (linked_contents S.Store it)) }
        ensures own { IfOk result (λ it. is_foreign (state S.Store connection).now.schema ≡ false) }
        ensures foreign { is_foreign (state S.Store connection).now.schema ≡ true
            → result ≡ Err KeeperFault.Failed }
    {
        if is_foreign(connection.schema()) {
            return Err(KeeperFault::Failed);
        }
        let opened = Snapshot::of(&connection);
        match create_history(&mut connection) {
            Ok(_) => Ok(Linked {
                told: Snapshot::of(&connection),
                connection,
                opened,
            }),
            Err(error) => Err(fault_of(error)),
        }
    }

    /// Gives the store back, without what was not committed.
    fn into_store(self) -> S
        ensures { IsLeftBy S.Store (linked_contents S.Store self).survives result }
    {
        let Linked {
            connection,
            told: _,
            opened: _,
        } = self;
        connection.into_store()
    }

    // Records the state of the connection, unless the call failed.
    fn note<T>(&mut self, answer: &Result<T, KeeperFault>)
        ensures connection { self.new.connection ≡ self.old.connection }
        ensures told { self.new.told.value
            ≡ if has_failed answer.now then self.old.told.value else self.old.connection }
        ensures opened { self.new.opened ≡ self.old.opened }
    {
        if let Err(KeeperFault::Failed) = answer {
            return;
        }
        self.told = Snapshot::of(&self.connection);
    }

    /// Stores one more entry.
    fn append(&mut self, entry: &StoredEntry) -> Result<(), KeeperFault>
        requires number { entry.now.seq < 2 ^ 63 }
        requires rests { (linked_contents S.Store self.old).rests }
        requires next { (linked_contents S.Store self.old).tells
            → entry.now.seq ≡ next_number (linked_contents S.Store self.old).kept }
        ensures { AppendsTo entry.now result (linked_contents S.Store self.old)
            (linked_contents S.Store self.new) }
    {
        let answer = keep(&mut self.connection, entry);
        self.note(&answer);
        answer
    }

    /// Returns the stored entries that the read query asks for.
    fn read(&mut self, alloc: Global, read_query: &ReadQuery<'_>) -> ReadResult
        requires limit { read_query.now.max ≤ 1000 }
        requires rests { (linked_contents S.Store self.old).rests }
        ensures { HasRead (is_selected read_query.now.selection) read_query.now.after
            read_query.now.max result
            (linked_contents S.Store self.old) (linked_contents S.Store self.new) }
    {
        if read_query.after >= NUMBERS {
            return Ok(StoredList::new(alloc));
        }
        let answer = find(&mut self.connection, alloc, read_query);
        self.note(&answer);
        answer
    }
}

impl<S: Alter + Drop> Link<S> {
    /// A new store in memory.
    pub(crate) fn in_memory(alloc: Global) -> Result<Link<S>, KeeperFault>
        ensures started { IfOk result (λ link. IsStarted (λ entries. entries ≡ []) ⊤ ⊤
            (link_contents S.Store link)) }
    {
        let mut keeper = MemoryKeeper::new(alloc, KeeperFails::new(alloc));
        match keeper.start(alloc, "") {
            Ok(()) => Ok(Link::InMemory(keeper)),
            Err(fault) => {
                drop(keeper);
                Err(fault)
            }
        }
    }

    /// The store of a connection. Creates the table `history` if there is none. Refuses the
    /// database of another program.
    pub(crate) fn opened(connection: Connection<S>) -> Result<Link<S>, KeeperFault>
        requires { HasCleanDisk (state S.Store connection)
            → Opens (state S.Store connection) × IsLive (state S.Store connection) }
        ensures linked { IfOk result (λ link. IsLinked (state S.Store connection)
            (link_contents S.Store link)) }
        ensures own { IfOk result (λ link. is_foreign (state S.Store connection).now.schema
            ≡ false) }
        ensures foreign { is_foreign (state S.Store connection).now.schema ≡ true
            → result ≡ Err KeeperFault.Failed }
    {
        match Linked::new(connection) {
            Ok(linked) => Ok(Link::Opened(linked)),
            Err(fault) => Err(fault),
        }
    }

    /// Gives the store back, if one was opened, without what was not committed.
    pub(crate) fn into_store(self) -> Option<S>
        ensures { IfSome result (IsLeftBy S.Store (link_contents S.Store self).survives) }
    {
        match self {
            Link::Absent => None,
            Link::InMemory(keeper) => {
                drop(keeper);
                None
            }
            Link::Opened(linked) => Some(linked.into_store()),
        }
    }

    /// Stores one more entry.
    pub(crate) fn append(&mut self, alloc: Global, entry: StoredEntry) -> Result<(), KeeperFault>
        requires number { entry.seq < 2 ^ 63 }
        requires rests { (link_contents S.Store self.old).rests }
        requires next { (link_contents S.Store self.old).tells
            → entry.seq ≡ next_number (link_contents S.Store self.old).kept }
        ensures { AppendsTo entry result (link_contents S.Store self.old)
            (link_contents S.Store self.new) }
    {
        match self {
            Link::Absent => Err(KeeperFault::Failed),
            Link::InMemory(keeper) => keeper.append(alloc, entry),
            Link::Opened(linked) => linked.append(&entry),
        }
    }

    /// Returns the stored entries that the read query asks for. Each version among them counts as
    /// one step.
    pub(crate) fn read<L: Ledger>(
        &mut self,
        alloc: Global,
        read_query: &ReadQuery<'_>,
        steps: &mut Steps<L>,
    ) -> ReadResult
        requires limit { read_query.now.max ≤ 1000 }
        requires rests { (link_contents S.Store self.old).rests }
        ensures reads { HasRead (is_selected read_query.now.selection) read_query.now.after
            read_query.now.max
            result (link_contents S.Store self.old) (link_contents S.Store self.new) }
        ensures steps { steps.new ≡ steps.old + versions_read result }
    {
        match self {
            Link::Absent => Err(KeeperFault::Failed),
            Link::InMemory(keeper) => keeper.read(alloc, read_query, steps),
            Link::Opened(linked) => counted(linked.read(alloc, read_query), steps),
        }
    }

    /// Returns the first `max` questions with a number above `after` that were asked between `from`
    /// and `to`, both included.
    pub(crate) fn read_asked(
        &mut self,
        alloc: Global,
        from: Moment,
        to: Moment,
        after: u64,
        max: u64,
    ) -> ReadResult
        requires limit { max ≤ 1000 }
        requires rests { (link_contents S.Store self.old).rests }
        ensures reads { HasRead (was_asked_in from to) after max result
            (link_contents S.Store self.old) (link_contents S.Store self.new) }
    {
        let read_query = ReadQuery {
            selection: Selection::AskedIn(from, to),
            after,
            max,
        };
        match self {
            Link::Absent => Err(KeeperFault::Failed),
            Link::InMemory(keeper) => keeper.read_asked(alloc, from, to, after, max),
            Link::Opened(linked) => linked.read(alloc, &read_query),
        }
    }
}
