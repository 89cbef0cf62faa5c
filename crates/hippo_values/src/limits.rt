//! The limits of the language: the longest lengths, in bytes, the largest counts, the deepest
//! nesting of a statement, and the largest numbers that a line may name.

/// The most bytes in a text cell.
pub const TEXT_LIMIT: usize = 4096;

/// The most bytes in a name.
pub const NAME_LIMIT: usize = 63;

/// The most bytes in an input line, before its line feed, and in the text of a query.
pub const LINE_LIMIT: usize = 65_536;

/// The most days after a row's birth for which a rule may show its cells.
pub const RETENTION_LIMIT: u32 = 36_500;

/// The most by which `(` may outnumber `)` in any prefix of a statement, and the most NOTs in a
/// statement.
pub const DEPTH_LIMIT: usize = 64;

/// The most tables in a database.
pub const TABLE_LIMIT: usize = 64;

/// The most columns in a table.
pub const COLUMN_LIMIT: usize = 64;

/// The most tables in a FROM list.
pub const FROM_LIMIT: usize = 4;

/// The most items of a select, columns of its GROUP BY, and columns of an audit.
pub const ITEM_LIMIT: usize = 128;

/// The most exempt pairs of an audit.
pub const PAIR_LIMIT: usize = 64;

/// The largest session number; session 0 is the console.
pub const SESSION_LIMIT: u8 = 64;

/// The largest cursor number of a session; cursors are counted from 1.
pub const CURSOR_LIMIT: u8 = 4;

/// The largest number of an audit's job; jobs are counted from 1.
pub const JOB_LIMIT: u8 = 8;

/// The largest watch number; watches are counted from 1.
pub const WATCH_LIMIT: u8 = 8;

/// The most rows that one line may fetch.
pub const FETCH_LIMIT: u32 = 100_000;

/// The most entries that one step of a job may read.
pub const STEP_LIMIT: u32 = 1_000_000;
