//! Laws on statements: the text that shows an act parses as a statement that asks for this act.
ghost use Rattle.hippo_history_laws.specs.TellingLaws.{NamesReadBack, CreatesReadBack, InsertsReadBack, UpdatesReadBack, DeletesReadBack, RevokesReadBack, AllowsReadBack, EntriesAreMadeAgain};

/// The text of these acts parses as a statement, and after any history the statement asks for
/// exactly the same act: a purpose, a recipient or an item that is created, a user who is
/// authorized or no longer authorized, and a patient's choice.
pub fn names_read_back()
    ensures { NamesReadBack }
{}

/// The text of a CREATE TABLE parses as a statement, with all of its columns, its key and its
/// SUBJECT. After any history, the statement asks for exactly this table. The table's schema must
/// be storable and well formed.
pub fn creates_read_back()
    ensures { CreatesReadBack }
{}

/// The text of an INSERT parses as a statement. After a history in which the table exists and no
/// row has the row's key, the statement asks for exactly this row. The row must have at least one
/// value, and its values must be storable.
pub fn inserts_read_back()
    ensures { InsertsReadBack }
{}

/// The text of an UPDATE parses as a statement. After a history in which the table exists, with
/// columns of distinct names, and has a row with the key, the statement asks for exactly this row.
/// The table must have a column outside its key. If it has none, the text is not a statement, and
/// no statement makes such an act.
pub fn updates_read_back()
    ensures { UpdatesReadBack }
{}

/// The text of a DELETE parses as a statement. After a history in which the table exists, with
/// columns of distinct names, and has a row with the key, the statement asks for exactly this act.
pub fn deletes_read_back()
    ensures { DeletesReadBack }
{}

/// The text of a REVOKE parses as a statement. After a history in which the table exists, with
/// columns of distinct names, the statement asks for exactly this act.
pub fn revokes_read_back()
    ensures { RevokesReadBack }
{}

/// The text of an ALLOW parses as a statement, with its item and its days if it has them. After a
/// history in which the table exists, with columns of distinct names, the statement asks for
/// exactly this act.
pub fn allows_read_back()
    ensures { AllowsReadBack }
{}

/// The text of each entry of a valid history parses as a statement, except for a question and for
/// an UPDATE of a table whose columns all belong to its key. After the entries before it, nothing
/// in the statement is refused, and it makes exactly this entry's act.
pub fn entries_are_made_again()
    ensures { EntriesAreMadeAgain }
{}
