//! A keeper over a SQLite store.
ghost use Rattle.std.specs.Prelude.{◌≡◌, ◌↔◌, ℕ, List, [], false, IfOk, IfSome, OnOk, OnErr};
ghost use Rattle.hippo_keeper.specs.Keeping.{Store, IsReady};
ghost use Rattle.hippo_sqlite.specs.Leaving.{IsLeftBy};
ghost use Rattle.hippo_sqlite.specs.Links.{link_contents};
ghost use Rattle.hippo_sqlite.specs.Standings.{finds_by, finds_own_by, sqlite_keeper_state, IsStarted};

use crate::link::Link;
use crate::opener::Opener;
use hippo_keeper::{CountedKeeper, Keeper, KeeperFault, ReadQuery, ReadResult, Standing, Steps};
use hippo_model::StoredEntry;
use hippo_values::Moment;
use std::alloc::Global;
use std::sync::ledger::Ledger;

/// A keeper over the store that its opener connects to, with the entries in the table `history`. If
/// the store has no name, the keeper is in memory. Every error of `sqlite`, except running out of
/// memory, is counted as a failure.
#[derive(Drop)]
pub struct SqliteKeeper<O: Opener> {
    opener: O,
    link: Link<O::Base>,
    standing: Standing,
}

impl<O: Opener> SqliteKeeper<O> {
    /// A keeper that has not been started.
    pub fn new(opener: O) -> SqliteKeeper<O>
        requires { O.used opener ≡ false }
        ensures ready { IsReady false (⟦<SqliteKeeper<O> as Keeper>⟧.state result) }
        ensures finds { (name : List ℕ) (entries : Store)
            → (⟦<SqliteKeeper<O> as Keeper>⟧.state result).finds name entries
            ↔ finds_by (O.finds opener) name entries }
        ensures own { (name : List ℕ) → finds_own_by (O.finds opener) name
            → (⟦<SqliteKeeper<O> as Keeper>⟧.state result).finds_own name }
    {
        SqliteKeeper {
            opener,
            link: Link::Absent,
            standing: Standing::new(),
        }
    }

    // Connects to the store with this name.
    fn connect(&mut self, alloc: Global, name: &str) -> Result<Link<O::Base>, KeeperFault>
        requires { O.used self.old.opener ≡ false }
        ensures standing { self.new.standing ≡ self.old.standing }
        ensures link { self.new.link ≡ self.old.link }
        ensures started { IfOk result (λ link. IsStarted
            (finds_by (O.finds self.old.opener) name.now)
            (finds_own_by (O.finds self.old.opener) name.now) (name.now ≡ [])
            (link_contents O.Base.Store link)) }
    {
        if name.is_empty() {
            return Link::in_memory(alloc);
        }
        let connection = self.opener.connect(alloc, name)?;
        Link::opened(connection)
    }

    // Connects to the store with this name, and stores the connection.
    fn join(&mut self, alloc: Global, name: &str) -> Result<(), KeeperFault>
        requires { O.used self.old.opener ≡ false }
        ensures standing { self.new.standing ≡ self.old.standing }
        ensures started { OnOk result (IsStarted (finds_by (O.finds self.old.opener) name.now)
            (finds_own_by (O.finds self.old.opener) name.now) (name.now ≡ [])
            (link_contents O.Base.Store self.new.link)) }
        ensures kept { OnErr result (self.new.link ≡ self.old.link) }
    {
        self.link = self.connect(alloc, name)?;
        Ok(())
    }
}

impl<O: Opener + Drop> SqliteKeeper<O> {
    /// Ends the keeper, and gives back the store that it opened, if it opened one. What an opening of
    /// that store may find after a stop survives a stop of the keeper.
    pub fn into_store(self) -> Option<O::Base>
        ensures { IfSome result (IsLeftBy O.Base.Store
            (⟦<SqliteKeeper<O> as Keeper>⟧.state self).survives) }
    {
        let SqliteKeeper {
            opener,
            link,
            standing: _,
        } = self;
        drop(opener);
        link.into_store()
    }
}

impl<O: Opener> Keeper for SqliteKeeper<O> {
    ghost state = { λ keeper. sqlite_keeper_state keeper.standing (O.used keeper.opener)
        (O.finds keeper.opener)
        (link_contents O.Base.Store keeper.link) };

    fn start(&mut self, alloc: Global, name: &str) -> Result<(), KeeperFault> {
        let answer = self.join(alloc, name);
        self.standing.settle_start(answer)
    }

    fn append(&mut self, alloc: Global, entry: StoredEntry) -> Result<(), KeeperFault> {
        let answer = self.link.append(alloc, entry);
        self.standing.settle(answer)
    }

    fn read_asked(
        &mut self,
        alloc: Global,
        from: Moment,
        to: Moment,
        after: u64,
        max: u64,
    ) -> ReadResult {
        let answer = self.link.read_asked(alloc, from, to, after, max);
        self.standing.settle(answer)
    }
}

impl<O: Opener, L: Ledger> CountedKeeper<L> for SqliteKeeper<O> {
    fn read(
        &mut self,
        alloc: Global,
        read_query: &ReadQuery<'_>,
        steps: &mut Steps<L>,
    ) -> ReadResult {
        let answer = self.link.read(alloc, read_query, steps);
        self.standing.settle(answer)
    }
}
