//! Cursors: answers whose rows are fetched in parts.
ghost use Rattle.std.specs.Prelude.{◌≡◌};
ghost use Rattle.hippo_engine_sessions.specs.Worlds.{new_cursor, rows_next, moved_on};

use hippo_model::{Answer, CellRow};

/// The answer to a question as of the time it was asked, and the number of its rows that were
/// fetched.
#[derive(Drop)]
pub struct Cursor {
    pub answer: Answer,
    pub given: usize,
}

impl Cursor {
    /// A cursor over an answer, before its first row.
    pub fn new(answer: Answer) -> Cursor
        ensures { result ≡ new_cursor answer }
    {
        Cursor { answer, given: 0 }
    }

    /// The next rows, up to `count` of them.
    pub fn rows_next(&self, count: u32) -> &[CellRow]
        ensures { result.now ≡ rows_next self.now count }
    {
        let rows = self.answer.as_slice();
        let left = &rows[self.given.min(rows.len())..];
        &left[..left.len().min(count as usize)]
    }

    /// Moves past the next rows, up to `count` of them.
    pub fn move_on(&mut self, count: u32)
        ensures { self.new ≡ moved_on self.old count }
    {
        let given = self.given.saturating_add(count as usize);
        self.given = given.min(self.answer.len());
    }
}
