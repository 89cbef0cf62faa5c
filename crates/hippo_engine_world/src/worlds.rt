//! The state of a run beside the history.
ghost use Rattle.std.specs.Prelude.{◌≡◌, Some, None, IfOk, OnOk, OnErr};
ghost use Rattle.hippo_engine_sessions.specs.declared.cursors.Cursor.{Cursor as KeptCursor};
ghost use Rattle.hippo_engine_sessions.specs.declared.sessions.Session.{Session as KeptSession};
ghost use Rattle.hippo_engine_sessions.specs.Worlds.{at_number, session_at, with_session, with_cursor, new_session, new_cursor, moved_on, opening};
ghost use Rattle.hippo_engine_world.specs.Holding.{world_of, KeepsAudits, WatchesFollow, WatchesGoBack};

use crate::audit_jobs::AuditJob;
use crate::watches::{take_back, take_in};
use hippo_engine_sessions::{Cursor, Numbered, Session, WorldView};
use hippo_model::{Act, Answer, Pair};
use hippo_report::Format;
use hippo_tables::Tables;
use hippo_values::{JOB_LIMIT, Memory, Moment, Name, SESSION_LIMIT, WATCH_LIMIT};
use hippo_watch::Watch;
use std::alloc::Global;

/// The clock, the greatest number of entries that the history may have, the format of flags, and
/// the open sessions, audit jobs and watches.
#[derive(Drop)]
pub struct World {
    pub clock: Moment,
    pub limit: u32,
    pub format: Format,
    pub sessions: Numbered<Session>,
    pub jobs: Numbered<AuditJob>,
    pub watches: Numbered<Watch>,
}

impl World {
    /// The state in which a run begins. Fails when out of memory.
    pub fn new(alloc: Global, clock: Moment, limit: u32, format: Format) -> Result<World, Memory>
        ensures { IfOk result (λ world. world_of world ≡ opening clock limit format) }
    {
        let sessions = Numbered::none(alloc, usize::from(SESSION_LIMIT))?;
        let jobs = Numbered::none(alloc, usize::from(JOB_LIMIT))?;
        let watches = Numbered::none(alloc, usize::from(WATCH_LIMIT))?;
        Ok(World {
            clock,
            limit,
            format,
            sessions,
            jobs,
            watches,
        })
    }

    /// Opens the session with a number, without cursors. A session that is open there is replaced.
    /// Fails when out of memory, and changes nothing.
    pub fn log_in(
        &mut self,
        alloc: Global,
        number: u8,
        user: Name,
        pair: Pair,
    ) -> Result<(), Memory>
        ensures ok { OnOk result (world_of self.new
            ≡ with_session (world_of self.old) number (Some (new_session user pair))) }
        ensures err { OnErr result (self.new ≡ self.old) }
        ensures audits { KeepsAudits self.old self.new }
    {
        let session = Session::new(alloc, user, pair)?;
        self.sessions.put(usize::from(number), Some(session));
        Ok(())
    }

    /// Closes the session with a number, and its cursors.
    pub fn log_out(&mut self, number: u8)
        ensures closed { world_of self.new ≡ with_session (world_of self.old) number None }
        ensures audits { KeepsAudits self.old self.new }
    {
        self.sessions.put(usize::from(number), None);
    }

    // Puts a cursor at a number of an open session, or closes the one there.
    #[tactic(auto, using(hippo_engine_sessions::proofs::NumberLemmas::put_back, hippo_engine_sessions::proofs::NumberLemmas::put_again))]
    fn put_cursor(&mut self, number: u8, cursor: u8, held: Option<Cursor>)
        ensures open { (session : KeptSession)
            → session_at (world_of self.old) number ≡ Some session
            → world_of self.new ≡ with_session (world_of self.old) number
            (Some (with_cursor session cursor held)) }
        ensures closed { session_at (world_of self.old) number ≡ None → self.new ≡ self.old }
        ensures audits { KeepsAudits self.old self.new }
    {
        if let Some(mut session) = self.sessions.take(usize::from(number)) {
            session.put_cursor(cursor, held);
            self.sessions.put(usize::from(number), Some(session));
        }
    }

    /// Opens a cursor of an open session over an answer, before its first row. Takes no memory.
    pub fn open_cursor(&mut self, number: u8, cursor: u8, answer: Answer)
        ensures open { (session : KeptSession)
            → session_at (world_of self.old) number ≡ Some session
            → world_of self.new
            ≡ with_session (world_of self.old) number
            (Some (with_cursor session cursor (Some (new_cursor answer)))) }
        ensures closed { session_at (world_of self.old) number ≡ None → self.new ≡ self.old }
        ensures audits { KeepsAudits self.old self.new }
    {
        self.put_cursor(number, cursor, Some(Cursor::new(answer)));
    }

    /// Closes a cursor of an open session.
    pub fn close_cursor(&mut self, number: u8, cursor: u8)
        ensures open { (session : KeptSession)
            → session_at (world_of self.old) number ≡ Some session
            → world_of self.new ≡ with_session (world_of self.old) number
            (Some (with_cursor session cursor None)) }
        ensures closed { session_at (world_of self.old) number ≡ None → self.new ≡ self.old }
        ensures audits { KeepsAudits self.old self.new }
    {
        self.put_cursor(number, cursor, None);
    }

    /// Moves a cursor of a session past its next rows, up to `count` of them.
    #[tactic(auto, using(hippo_engine_sessions::proofs::NumberLemmas::put_back, hippo_engine_sessions::proofs::NumberLemmas::put_again))]
    pub fn move_on(&mut self, number: u8, cursor: u8, count: u32)
        ensures held { (session : KeptSession) (held : KeptCursor)
            → session_at (world_of self.old) number ≡ Some session
            → at_number session.cursors cursor ≡ Some held
            → world_of self.new
            ≡ with_session (world_of self.old) number
            (Some (with_cursor session cursor (Some (moved_on held count)))) }
        ensures missing { (session : KeptSession)
            → session_at (world_of self.old) number ≡ Some session
            → at_number session.cursors cursor ≡ None → self.new ≡ self.old }
        ensures closed { session_at (world_of self.old) number ≡ None → self.new ≡ self.old }
        ensures audits { KeepsAudits self.old self.new }
    {
        if let Some(mut session) = self.sessions.take(usize::from(number)) {
            session.move_on(cursor, count);
            self.sessions.put(usize::from(number), Some(session));
        }
    }

    /// Changes the hits of each watch by the act of the next entry. `tables` are those before that
    /// entry. Takes no memory.
    pub fn take_in(&mut self, tables: &Tables, act: &Act)
        ensures world { world_of self.new ≡ world_of self.old }
        ensures jobs { self.new.jobs ≡ self.old.jobs }
        ensures follow { WatchesFollow tables.now act.now self.old self.new }
    {
        take_in(&mut self.watches, tables, act);
    }

    /// Reverts the last `take_in`, if its act is not added after all. `tables` are the same. Takes
    /// no memory.
    pub fn take_back(&mut self, tables: &Tables, act: &Act)
        ensures world { world_of self.new ≡ world_of self.old }
        ensures jobs { self.new.jobs ≡ self.old.jobs }
        ensures go_back { WatchesGoBack tables.now act.now self.old self.new }
    {
        take_back(&mut self.watches, tables, act);
    }

    /// Frees everything that it holds. An owner of a `World` calls this at its end, so that freeing
    /// the parts is proved only here.
    pub fn close(self) {
        drop(self);
    }
}

impl WorldView for World {
    ghost use Rattle.hippo_engine_world.specs.Holding.{world_of};

    ghost seen = { world_of };

    fn clock(&self) -> Moment {
        self.clock
    }

    fn limit(&self) -> u32 {
        self.limit
    }

    fn session(&self, number: u8) -> Option<&Session> {
        self.sessions.at(usize::from(number))
    }

    fn has_job(&self, number: u8) -> bool {
        self.jobs.at(usize::from(number)).is_some()
    }

    fn free_job(&self) -> Option<usize> {
        self.jobs.free()
    }

    fn has_watch(&self, number: u8) -> bool {
        self.watches.at(usize::from(number)).is_some()
    }

    fn free_watch(&self) -> Option<usize> {
        self.watches.free()
    }
}
