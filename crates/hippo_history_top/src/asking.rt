//! What a call of the program asks for.
use hippo_report::Format;
use hippo_values::{Moment, Name, Txt};

/// How entries are shown.
#[derive(Clone, Copy, PartialEq, Eq)]
pub enum Form {
    /// One line for each entry, in a format: the number, the moment and the statement.
    Listing(Format),
    /// Lines that `hippo run` reads.
    Script,
}

/// Which entries or rules are shown, by their table.
#[derive(Drop)]
pub enum Scope {
    Whole,
    /// Only those that are about this table.
    Table(Name),
}

/// Which entries are shown, by what they do.
#[derive(Clone, Copy, PartialEq, Eq)]
pub enum Acts {
    All,
    /// Only those that create a table.
    Tables,
}

/// One end of a stretch of entries.
#[derive(Clone, Copy)]
pub enum Bound {
    /// The entry with this number.
    Number(u64),
    /// The entries at this moment.
    At(Moment),
}

/// Some entries of a history, and how they are shown.
#[derive(Drop)]
pub struct Excerpt {
    /// Where the stretch of entries begins; `last` is where it ends. Both ends belong to it.
    pub first: Bound,
    pub last: Bound,
    pub acts: Acts,
    pub scope: Scope,
    pub form: Form,
}

/// A page about a history as of one entry: which entry that is, which tables the page covers, and
/// how it is shown.
#[derive(Drop)]
pub struct Page {
    /// The end of the entries that are taken into account.
    pub last: Bound,
    pub scope: Scope,
    pub format: Format,
}

/// A list of the authorizations in force after some entries, and how it is shown.
#[derive(Drop)]
pub struct Roster {
    /// The end of the entries that are taken into account.
    pub last: Bound,
    pub format: Format,
}

/// How it is shown what was disclosed of a patient.
#[derive(Clone, Copy, PartialEq, Eq)]
pub enum Layout {
    /// One line for each access, in a format.
    Lines(Format),
    /// An HTML page.
    Html,
}

/// What was disclosed of a patient by the questions of a stretch of entries, and how it is shown.
#[derive(Drop)]
pub struct Inquiry {
    /// The patient's number.
    pub patient: i64,
    /// Where the stretch of entries begins; `last` is where it ends. Both ends belong to it.
    pub first: Bound,
    pub last: Bound,
    pub layout: Layout,
}

/// What is shown of a history.
#[derive(Drop)]
pub enum View {
    Entries(Excerpt),
    /// The rules in force.
    Rules(Page),
    /// The authorizations in force.
    Users(Roster),
    /// The digest of the entries up to this number.
    Digest(u64),
    /// What was disclosed of a patient.
    Patient(Inquiry),
    /// The lines that carry the history on in a new store.
    Carry,
}

/// The name of a store, and what is shown of its history.
#[derive(Drop)]
pub struct Call {
    pub store: Txt,
    pub view: View,
}
