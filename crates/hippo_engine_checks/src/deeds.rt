//! What to do for a line that is not refused.
use crate::asking::Delivery;
use hippo_backlog::ReadFault;
use hippo_model::{Audit, Entry, Pair, Query};
use hippo_report::Refusal;
use hippo_values::{Boxed, Moment, Name};

/// A question of an open session: its text, borrowed from the line, and the query that it means.
#[derive(Drop)]
pub struct Question<'a> {
    pub session: u8,
    pub text: &'a str,
    pub query: Boxed<Query>,
}

/// What to do for a line, with what the checks found. Sessions, cursors, jobs and watches are given
/// by their numbers. Large values are boxed, since a deed is moved often.
#[derive(Drop)]
pub enum Deed<'a> {
    DoNothing,
    SetClock {
        moment: Moment,
    },
    LogIn {
        session: u8,
        user: Boxed<Name>,
        pair: Boxed<Pair>,
    },
    LogOut {
        session: u8,
    },
    /// Return up to `count` further rows of a session's cursor.
    HandOut {
        session: u8,
        cursor: u8,
        count: u32,
    },
    CloseCursor {
        session: u8,
        cursor: u8,
    },
    /// Let a job look at up to `count` further entry numbers.
    StepJob {
        job: u8,
        count: u32,
    },
    DropJob {
        job: u8,
    },
    EndWatch {
        watch: u8,
    },
    /// Add this entry.
    Change {
        entry: Boxed<Entry>,
    },
    /// Answer this question, and deliver its answer in this way.
    Ask {
        question: Question<'a>,
        delivery: Delivery,
    },
    /// Explain the question whose entry this is.
    Explain {
        entry: Boxed<Entry>,
    },
    Audit {
        audit: Boxed<Audit>,
    },
    /// Begin a job with this number.
    BeginAudit {
        job: usize,
        audit: Boxed<Audit>,
    },
    /// Set a watch with this number.
    Watch {
        watch: usize,
        audit: Boxed<Audit>,
    },
}

/// Why there is nothing to do for a line.
#[derive(Drop)]
pub enum Unjudged {
    /// The line's first refusal, or out of memory.
    Refused(Refusal),
    /// No question has the number that an EXPLAIN of the console names.
    NoQuestion(i64),
    /// The question's entry could not be read.
    Unread(ReadFault),
}
