//! The values in a change, each with its column.
ghost use Rattle.std.specs.Prelude.{◌≡◌, ◌++◌};
ghost use Rattle.std.specs.List.{zip};
ghost use Rattle.hippo_model.specs.Conditions.{is_null};
ghost use Rattle.hippo_typing_catalog.specs.Kinds.{may_have_kind};
ghost use Rattle.hippo_typing_catalog.specs.Refusals.{Resolves};
ghost use Rattle.hippo_typing_catalog.specs.ChangesRefused.{in_column, row_refused, assigned_refused, assignments_refused};
ghost use Rattle.hippo_typing_catalog.specs.ChangesRefused.{count_refused, insert_refused};

use crate::columns::column_named;
use hippo_model::{Column, ColumnKind, NameFault, Schema};
use hippo_typing_catalog::{IndexedTable, column_faults, is_bad_text};
use hippo_values::{Name, Value};
use std::alloc::Global;

fn may_have_kind(kind: ColumnKind, value: &Value) -> bool
    ensures { result ≡ may_have_kind kind value.now }
{
    match (kind, value) {
        (_, Value::Null) => true,
        (ColumnKind::Integer, Value::Int(_)) => true,
        (ColumnKind::Text, Value::Text(_)) => true,
        (ColumnKind::Date, Value::Day(_)) => true,
        _ => false,
    }
}

fn is_null(value: &Value) -> bool
    ensures { result ≡ is_null value.now }
{
    matches!(value, Value::Null)
}

/// A check of one value against its column.
pub trait ValueCheck {
    ghost use Rattle.std.specs.Prelude.{List};
    ghost use Rattle.hippo_values.specs.declared.values.Value.{Value as CellValue};
    ghost use Rattle.hippo_model.specs.declared.name_fault.NameFault.{NameFault as Fault};
    ghost use Rattle.hippo_model.specs.declared.schema.Column.{Column as TableColumn};
    ghost use Rattle.hippo_typing_catalog.specs.Refusals.{Resolves};

    ghost refusals: { TableColumn → CellValue → List Fault };

    fn check(alloc: Global, column: &Column, value: &Value) -> Result<(), NameFault>
        ensures { Resolves (refusals column.now value.now) tt result };
}

/// The value must be of its column's kind.
pub struct KindCheck;

impl ValueCheck for KindCheck {
    ghost use Rattle.hippo_typing_catalog.specs.ChangesRefused.{kind_refused};

    ghost refusals = { kind_refused };

    fn check(_alloc: Global, column: &Column, value: &Value) -> Result<(), NameFault> {
        if may_have_kind(column.kind, value) {
            return Ok(());
        }
        Err(NameFault::TypeMismatch)
    }
}

/// The value must not be NULL if its column is NOT NULL.
pub struct NullCheck;

impl ValueCheck for NullCheck {
    ghost use Rattle.hippo_typing_catalog.specs.ChangesRefused.{null_refused};

    ghost refusals = { null_refused };

    fn check(alloc: Global, column: &Column, value: &Value) -> Result<(), NameFault> {
        if is_null(value) && column.not_null {
            return Err(column_faults::null_not_allowed(alloc, &column.name));
        }
        Ok(())
    }
}

/// The value must not be a text that is too long or has a control character.
pub struct TextCheck;

impl ValueCheck for TextCheck {
    ghost use Rattle.hippo_typing_catalog.specs.ChangesRefused.{text_refused};

    ghost refusals = { text_refused };

    fn check(_alloc: Global, _column: &Column, value: &Value) -> Result<(), NameFault> {
        if is_bad_text(value) {
            return Err(NameFault::BadText);
        }
        Ok(())
    }
}

fn check_row<C: ValueCheck>(
    alloc: Global,
    columns: &[Column],
    values: &[Value],
) -> Result<(), NameFault>
    ensures { Resolves (row_refused C.refusals columns.now values.now) tt result }
{
    for (column, value) in columns.iter().zip(values) {
        C::check(alloc, column, value)?;
    }
    Ok(())
}

fn check_named<C: ValueCheck>(
    alloc: Global,
    table: &IndexedTable,
    name: &Name,
    value: &Value,
) -> Result<(), NameFault>
    ensures { Resolves (in_column table.now name.now (λ column. C.refusals column value.now)) tt
        result }
{
    match column_named(table, name) {
        Some(column) => C::check(alloc, column, value),
        None => Ok(()),
    }
}

fn check_assigned<C: ValueCheck>(
    alloc: Global,
    table: &IndexedTable,
    names: &[Name],
    values: &[Value],
) -> Result<(), NameFault>
    ensures { Resolves (assigned_refused C.refusals table.now (zip names.now values.now)) tt
        result }
{
    for (name, value) in names.iter().zip(values) {
        check_named::<C>(alloc, table, name, value)?;
    }
    Ok(())
}

fn check_count(schema: &Schema, values: &[Value]) -> Result<(), NameFault>
    ensures { Resolves (count_refused schema.now values.now) tt result }
{
    let count = schema.columns.len();
    if values.len() == count {
        return Ok(());
    }
    Err(NameFault::WrongCount(count as u64))
}

/// Checks the values of a new row.
pub fn check_new_row(alloc: Global, schema: &Schema, values: &[Value]) -> Result<(), NameFault>
    ensures { Resolves (insert_refused values.now schema.now) tt result }
{
    check_count(schema, values)?;
    let columns = schema.columns.as_slice();
    check_row::<KindCheck>(alloc, columns, values)?;
    check_row::<NullCheck>(alloc, columns, values)?;
    check_row::<TextCheck>(alloc, columns, values)
}

/// Values that are assigned to columns by their names.
#[derive(Clone, Copy)]
pub struct Assigned<'a> {
    pub names: &'a [Name],
    pub values: &'a [Value],
}

fn check_both<C: ValueCheck>(
    alloc: Global,
    table: &IndexedTable,
    one: Assigned,
    other: Assigned,
) -> Result<(), NameFault>
    ensures { Resolves (assigned_refused C.refusals table.now
        (zip one.entry.names.now one.entry.values.now
        ++ zip other.entry.names.now other.entry.values.now)) tt result }
{
    check_assigned::<C>(alloc, table, one.names, one.values)?;
    check_assigned::<C>(alloc, table, other.names, other.values)
}

/// Checks the values of two lists of assignments.
pub fn check_assignments(
    alloc: Global,
    table: &IndexedTable,
    one: Assigned,
    other: Assigned,
) -> Result<(), NameFault>
    ensures { Resolves (assignments_refused table.now
        (zip one.entry.names.now one.entry.values.now
        ++ zip other.entry.names.now other.entry.values.now)) tt result }
{
    check_both::<KindCheck>(alloc, table, one, other)?;
    check_both::<NullCheck>(alloc, table, one, other)?;
    check_both::<TextCheck>(alloc, table, one, other)
}
