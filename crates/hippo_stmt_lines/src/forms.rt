//! The forms of lines.
use crate::written_name::WrittenName;

/// A request: the short word after a session's number, with its arguments.
#[derive(Drop)]
pub enum RequestForm<'a> {
    /// Open the session.
    Login {
        user: WrittenName<'a>,
        purpose: WrittenName<'a>,
        recipient: WrittenName<'a>,
    },
    /// Close the session and its cursors.
    Logout,
    /// Return up to `count` further rows of a cursor.
    Fetch {
        cursor: u8,
        count: u32,
    },
    /// Close a cursor.
    Close {
        cursor: u8,
    },
    /// Let a job look at up to `count` further entries.
    Step {
        job: u8,
        count: u32,
    },
    /// Drop a job.
    Drop {
        job: u8,
    },
    /// End a watch.
    Unwatch {
        watch: u8,
    },
    /// Insert a row, given as a CSV record.
    Load {
        table: WrittenName<'a>,
        record: &'a str,
    },
}

/// The form of a line. Texts are borrowed from the line.
#[derive(Drop)]
pub enum LineForm<'a> {
    /// The line is empty, has only spaces, or begins with `#`.
    Silent,
    /// Set the clock.
    At {
        moment: &'a str,
    },
    /// Carry out a request in a session, or at the console, which is session 0.
    Short {
        session: u8,
        request: RequestForm<'a>,
    },
    /// Carry out a statement in a session or at the console. The statement is everything after the
    /// one space that follows the session's number.
    Statement {
        session: u8,
        text: &'a str,
    },
}
