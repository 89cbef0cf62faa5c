use hippo_model::NameFault;
use hippo_values::{Boxed, Moment, Name, Txt};

/// Why a line is not carried out, with what the refusal names.
#[derive(Drop)]
pub enum Refusal {
    /// The line is not UTF-8, or has none of the forms of a line.
    BadLine,
    /// More than 65,536 bytes come before the line's end.
    LineTooLong,
    /// No token begins at this byte of the statement.
    BadToken(usize),
    /// The tokens are not a statement.
    BadSyntax,
    /// The word of SQL that is not supported, in upper case.
    Unsupported(Txt),
    /// Parentheses are nested more than 64 deep, or NOT occurs more than 64 times.
    TooDeep,
    /// The number at this byte of the statement does not fit in 64 bits.
    NumberTooLarge(usize),
    /// The text after DATE at this byte of the statement is not a day.
    BadDate(usize),
    /// The word of an `at` line is not a moment.
    BadMoment,
    /// An `at` line would set the clock back. The moment is the clock's.
    MomentBack(Moment),
    /// The session is not open.
    NoSession,
    /// The session is open already.
    SessionOpen,
    /// The user is not authorized. The number of the entry that decides this; 0 if no entry names
    /// the user with the purpose and recipient.
    NotAuthorized(u64),
    /// Only the console may send this line.
    ConsoleOnly,
    /// Only a session may send this line.
    SessionsOnly,
    /// The statement is grammatical, but has no meaning after the entries so far.
    Meaningless(NameFault),
    /// The key is live. The number is that of the last entry that names the key.
    KeyThere(u64),
    /// The key is not live.
    KeyMissing,
    /// An answer or a list of denied cells has more than 100,000 lines.
    TooManyRows,
    /// Four cursors are open in the session.
    CursorLimit,
    /// This cursor is not open.
    NoCursor(u64),
    /// There are already eight audit jobs.
    JobLimit,
    /// This audit job does not exist.
    NoJob(u64),
    /// The history has reached its largest number of entries.
    HistoryFull,
    /// This number is not the number of an entry that records a query.
    NoSuchQuery(i64),
    /// The bytes of a record are not exactly one record.
    BadRecord,
    /// The field of this column does not have the column's form.
    BadField(Boxed<Name>),
    /// There are already eight watches.
    WatchLimit,
    /// This watch does not exist.
    NoWatch(u64),
    /// Out of memory.
    Memory,
}

/// What a refusal names.
#[derive(Clone, Copy)]
pub enum Detail<'a> {
    Nothing,
    Text(&'a str),
    Number(u64),
    Integer(i64),
    Moment(Moment),
}
