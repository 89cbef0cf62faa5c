//! The keeper's SQL statements, one function for each, over any store.
ghost use Rattle.std.specs.Prelude.{◌≡◌, [], ◌^◌, ◌<◌};
ghost use Rattle.sqlite.specs.State.{HasCleanDisk, Survives, Executes, CommitsBy};
ghost use Rattle.sqlite.specs.Held.{state};
ghost use Rattle.sqlite.specs.Values.{bound};
ghost use Rattle.hippo_sqlite_table.specs.Queries.{create_sql, insert_sql, read_sql, params_of, HasQueried};
ghost use Rattle.hippo_sqlite_table.specs.Tables.{row_of, values_of};

use hippo_keeper::{ReadQuery, Selection};
use hippo_model::StoredEntry;
use sqlite::types::ValueRef;
use sqlite::{Alter, Connection, Error, Row, params};

/// Creates the table of the history if there is none.
pub fn create_history<S: Alter>(connection: &mut Connection<S>) -> Result<usize, Error>
    ensures runs { HasCleanDisk (state S.Store connection.new)
        → Executes create_sql [] (state S.Store connection.old) (state S.Store connection.new)
        result }
    ensures survives { Survives (state S.Store connection.old) (state S.Store connection.new)
        (CommitsBy create_sql [] (state S.Store connection.old)) }
{
    connection.execute(
        "CREATE TABLE IF NOT EXISTS history (seq INTEGER PRIMARY KEY, moment INTEGER NOT NULL, kind INTEGER NOT NULL, tbl TEXT NOT NULL, body BLOB NOT NULL) STRICT",
        &[],
    )
}

/// Stores one more entry.
pub fn insert<S: Alter>(connection: &mut Connection<S>, entry: &StoredEntry) -> Result<usize, Error>
    requires { entry.now.seq < 2 ^ 63 }
    ensures runs { HasCleanDisk (state S.Store connection.new)
        → Executes insert_sql (values_of (row_of entry.now))
        (state S.Store connection.old) (state S.Store connection.new) result }
    ensures survives { Survives (state S.Store connection.old) (state S.Store connection.new)
        (CommitsBy insert_sql (values_of (row_of entry.now)) (state S.Store connection.old)) }
    ensures kind { entry.now.kind < 256 }
{
    connection.execute(
        "INSERT INTO history (seq, moment, kind, tbl, body) VALUES (?1, ?2, ?3, ?4, ?5)",
        params![
            entry.seq as i64,
            entry.moment,
            i64::from(entry.kind),
            entry.table.as_str(),
            entry.body.as_slice()
        ],
    )
}

// The SQL text of a read.
fn statement_of(selection: &Selection<'_>) -> &'static str
    ensures { result.now ≡ read_sql selection.now }
{
    match selection {
        Selection::All => {
            "SELECT seq, moment, kind, tbl, body FROM history WHERE seq > ?1 ORDER BY seq LIMIT ?2"
        }
        Selection::VersionsOf(_) => {
            "SELECT seq, moment, kind, tbl, body FROM history WHERE tbl = ?1 AND kind >= 2 AND kind <= 4 AND seq > ?2 ORDER BY seq LIMIT ?3"
        }
        Selection::AskedIn(_, _) => {
            "SELECT seq, moment, kind, tbl, body FROM history WHERE kind = 13 AND moment >= ?1 AND moment <= ?2 AND seq > ?3 ORDER BY seq LIMIT ?4"
        }
    }
}

fn query<S: Alter>(
    connection: &mut Connection<S>,
    text: &str,
    params: &[ValueRef<'_>],
) -> Result<Vec<Row>, Error>
    ensures { HasQueried text.now (bound params.now) result (state S.Store connection.old)
        (state S.Store connection.new) }
{
    connection.query_all(text, params)
}

/// Returns the rows that a read asks for.
pub fn select<S: Alter>(
    connection: &mut Connection<S>,
    read_query: &ReadQuery<'_>,
) -> Result<Vec<Row>, Error>
    requires above { read_query.now.after < 2 ^ 63 }
    requires limit { read_query.now.max < 2 ^ 63 }
    ensures { HasQueried (read_sql read_query.now.selection)
        (params_of read_query.now.selection read_query.now.after read_query.now.max) result
        (state S.Store connection.old) (state S.Store connection.new) }
{
    let text = statement_of(&read_query.selection);
    let (after, max) = (read_query.after as i64, read_query.max as i64);
    match &read_query.selection {
        Selection::All => query(connection, text, params![after, max]),
        Selection::VersionsOf(table) => {
            query(connection, text, params![table.as_str(), after, max])
        }
        Selection::AskedIn(from, to) => query(
            connection,
            text,
            params![from.seconds(), to.seconds(), after, max],
        ),
    }
}
