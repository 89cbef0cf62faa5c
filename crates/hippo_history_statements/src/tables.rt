//! Tables that are created.
ghost use Rattle.std.specs.Prelude.{◌≡◌, ◌++◌, OnOk, OnErr};
ghost use Rattle.hippo_values_text.specs.Printing.{AppendsText, KeepsFront};
ghost use Rattle.hippo_report.specs.Cells.{separated_text, comma};
ghost use Rattle.hippo_history_statements.specs.Telling.{kind_text, not_null_text, column_definition, names_text, subject_text, create_text};

use crate::columns::{append_listed, append_name, append_named};
use crate::joining::{Spelling, append_joined};
use hippo_model::{Column, ColumnKind, Schema};
use hippo_values::{Memory, Name, RoomyTxt};

fn kind_text(kind: ColumnKind) -> &'static str
    ensures { result.now ≡ kind_text kind }
{
    match kind {
        ColumnKind::Integer => " INTEGER",
        ColumnKind::Text => " TEXT",
        ColumnKind::Date => " DATE",
    }
}

fn not_null_text(not_null: bool) -> &'static str
    ensures { result.now ≡ not_null_text not_null }
{
    if not_null { " NOT NULL" } else { "" }
}

fn append_column<const ROOM: usize>(column: &Column, out: &mut RoomyTxt<ROOM>) -> Result<(), Memory>
    ensures adds { AppendsText (column_definition column.now) result out.old out.new }
{
    out.append(column.name.as_str())?;
    out.append(kind_text(column.kind))?;
    out.append(not_null_text(column.not_null))
}

// Spells each column of a table.
#[derive(Clone, Copy)]
struct ColumnDefinitions;

impl<const ROOM: usize> Spelling<Column, ROOM> for ColumnDefinitions {
    ghost use Rattle.hippo_history_statements.specs.Telling.{column_definition};

    ghost text = { λ definitions column. column_definition column };

    fn spell(&self, column: &Column, out: &mut RoomyTxt<ROOM>) -> Result<(), Memory> {
        append_column(column, out)
    }
}

fn append_definitions<const ROOM: usize>(
    columns: &[Column],
    out: &mut RoomyTxt<ROOM>,
) -> Result<(), Memory>
    ensures adds { AppendsText (separated_text column_definition comma columns.now)
        result out.old out.new }
{
    append_joined(&ColumnDefinitions, ", ", columns, out)
}

fn append_subject<const ROOM: usize>(
    columns: &[Column],
    subject: Option<usize>,
    out: &mut RoomyTxt<ROOM>,
) -> Result<(), Memory>
    ensures adds { AppendsText (subject_text columns.now subject) result out.old out.new }
{
    match subject {
        None => Ok(()),
        Some(place) => {
            out.append(", SUBJECT ")?;
            append_name(columns, place, out)
        }
    }
}

fn append_head<const ROOM: usize>(
    words: &str,
    table: &Name,
    before: &str,
    columns: &[Column],
    out: &mut RoomyTxt<ROOM>,
) -> Result<(), Memory>
    ensures ok { OnOk result (out.new ≡ out.old ++ (words.now ++ (table.now ++ (before.now
        ++ separated_text column_definition comma columns.now)))) }
    ensures err { OnErr result (KeepsFront out.old out.new) }
{
    append_named(words, table, out)?;
    out.append(before)?;
    append_definitions(columns, out)
}

fn append_end<const ROOM: usize>(
    columns: &[Column],
    subject: Option<usize>,
    end: &str,
    out: &mut RoomyTxt<ROOM>,
) -> Result<(), Memory>
    ensures adds { AppendsText (subject_text columns.now subject ++ end.now) result out.old out.new }
{
    append_subject(columns, subject, out)?;
    out.append(end)
}

fn append_created<const ROOM: usize>(
    words: &str,
    before_columns: &str,
    before_key: &str,
    schema: &Schema,
    end: &str,
    out: &mut RoomyTxt<ROOM>,
) -> Result<(), Memory>
    ensures adds { AppendsText (words.now ++ (schema.now.name ++ (before_columns.now
        ++ (separated_text column_definition comma schema.now.columns ++ (before_key.now
        ++ (names_text schema.now.columns schema.now.key ++ (end.now
        ++ (subject_text schema.now.columns schema.now.subject ++ end.now))))))))
        result out.old out.new }
{
    let columns = schema.columns.as_slice();
    append_head(words, &schema.name, before_columns, columns, out)?;
    append_listed(before_key, columns, schema.key.as_slice(), end, out)?;
    append_end(columns, schema.subject, end, out)
}

/// Appends the CREATE TABLE of a table.
pub fn append_create<const ROOM: usize>(
    schema: &Schema,
    out: &mut RoomyTxt<ROOM>,
) -> Result<(), Memory>
    ensures adds { AppendsText (create_text schema.now) result out.old out.new }
{
    append_created("CREATE TABLE ", " (", ", PRIMARY KEY (", schema, ")", out)
}
