//! Open sessions.
ghost use Rattle.std.specs.Prelude.{◌≡◌, Some, None, IfOk};
ghost use Rattle.hippo_engine_sessions.specs.declared.cursors.Cursor.{Cursor as KeptCursor};
ghost use Rattle.hippo_engine_sessions.specs.Worlds.{at_number, new_session, with_cursor, moved_on};

use crate::cursors::Cursor;
use crate::numbered::Numbered;
use hippo_model::Pair;
use hippo_values::{CURSOR_LIMIT, Memory, Name};
use std::alloc::Global;

/// An open session: its user, its purpose and recipient, and its cursors.
#[derive(Drop)]
pub struct Session {
    pub user: Name,
    pub pair: Pair,
    pub cursors: Numbered<Cursor>,
}

impl Session {
    /// A session without cursors. Fails when out of memory.
    pub fn new(alloc: Global, user: Name, pair: Pair) -> Result<Session, Memory>
        ensures { IfOk result (λ made. made ≡ new_session user pair) }
    {
        let cursors = Numbered::none(alloc, usize::from(CURSOR_LIMIT))?;
        Ok(Session {
            user,
            pair,
            cursors,
        })
    }

    /// Puts a cursor at a number, or closes the one there.
    pub fn put_cursor(&mut self, number: u8, held: Option<Cursor>)
        ensures { self.new ≡ with_cursor self.old number held }
    {
        self.cursors.put(usize::from(number), held);
    }

    /// Moves a cursor past its next rows, up to `count` of them.
    #[tactic(auto, using(crate::proofs::NumberLemmas::put_back, crate::proofs::NumberLemmas::put_again))]
    pub fn move_on(&mut self, number: u8, count: u32)
        ensures held { (held : KeptCursor) → at_number self.old.cursors number ≡ Some held
            → self.new ≡ with_cursor self.old number (Some (moved_on held count)) }
        ensures missing { at_number self.old.cursors number ≡ None → self.new ≡ self.old }
    {
        let number = usize::from(number);
        if let Some(mut cursor) = self.cursors.take(number) {
            cursor.move_on(count);
            self.cursors.put(number, Some(cursor));
        }
    }
}
