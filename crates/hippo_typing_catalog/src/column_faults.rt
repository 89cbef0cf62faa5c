//! Faults that name a column. If there is no memory to copy the name, the fault is out of memory.
ghost use Rattle.std.specs.Prelude.{◌≡◌, ◌∷◌, [], ◌++◌, codes, IfOk};
ghost use Rattle.hippo_model.specs.declared.name_fault.NameFault.TheVariants as faults;
ghost use Rattle.hippo_typing_catalog.specs.Refusals.{IsFirstOf};
ghost use Rattle.hippo_typing_catalog.specs.WrittenColumns.{column_text};

use crate::name_faults::boxed_name;
use hippo_model::NameFault;
use hippo_stmt_ast::RawColumn;
use hippo_values::{Memory, Name, Txt};
use std::alloc::Global;

// A column as it is written: qualified by its table and a dot, or unqualified.
fn column_text(alloc: Global, written: &RawColumn) -> Result<Txt, Memory>
    ensures { IfOk result (λ text. text ≡ column_text written.now) }
{
    match &written.table {
        None => Txt::from_str(alloc, written.column.as_str()),
        Some(table) => qualified(alloc, table, written.column.as_str()),
    }
}

// A text qualified by a table and a dot.
fn qualified(alloc: Global, table: &Name, text: &str) -> Result<Txt, Memory>
    ensures { IfOk result (λ made. made ≡ table.now ++ codes "." ++ text.now) }
{
    let mut made = Txt::from_str(alloc, table.as_str())?;
    made.append(".")?;
    made.append(text)?;
    Ok(made)
}

/// The fault that no table of the statement has this column.
pub fn unknown_column(alloc: Global, written: &RawColumn) -> NameFault
    ensures { IsFirstOf (faults.UnknownColumn (column_text written.now) ∷ []) result }
{
    match column_text(alloc, written) {
        Ok(text) => NameFault::UnknownColumn(text),
        Err(_) => NameFault::Memory,
    }
}

/// The fault that the one table of a change has no column of this name.
pub fn no_such_column(alloc: Global, column: &Name) -> NameFault
    ensures { IsFirstOf (faults.UnknownColumn column.now ∷ []) result }
{
    match Txt::from_str(alloc, column.as_str()) {
        Ok(column) => NameFault::UnknownColumn(column),
        Err(_) => NameFault::Memory,
    }
}

fn star_text(alloc: Global, table: &Name) -> Result<Txt, Memory>
    ensures { IfOk result (λ made. made ≡ table.now ++ codes ".*") }
{
    let mut made = Txt::from_str(alloc, table.as_str())?;
    made.append(".*")?;
    Ok(made)
}

/// The fault of `t.*` for a table that is not in the statement.
pub fn unknown_star(alloc: Global, table: &Name) -> NameFault
    ensures { IsFirstOf (faults.UnknownColumn (table.now ++ codes ".*") ∷ []) result }
{
    match star_text(alloc, table) {
        Ok(text) => NameFault::UnknownColumn(text),
        Err(_) => NameFault::Memory,
    }
}

/// The fault that several tables of the statement have this column.
pub fn ambiguous_column(alloc: Global, column: &Name) -> NameFault
    ensures { IsFirstOf (faults.AmbiguousColumn column.now ∷ []) result }
{
    match boxed_name(alloc, column) {
        Ok(column) => NameFault::AmbiguousColumn(column),
        Err(_) => NameFault::Memory,
    }
}

/// The fault of a column that is selected and not in GROUP BY, or the other way round.
pub fn not_grouped(alloc: Global, column: &Name) -> NameFault
    ensures { IsFirstOf (faults.NotGrouped column.now ∷ []) result }
{
    match boxed_name(alloc, column) {
        Ok(column) => NameFault::NotGrouped(column),
        Err(_) => NameFault::Memory,
    }
}

/// The fault that NULL is given to a NOT NULL column.
pub fn null_not_allowed(alloc: Global, column: &Name) -> NameFault
    ensures { IsFirstOf (faults.NullNotAllowed column.now ∷ []) result }
{
    match boxed_name(alloc, column) {
        Ok(column) => NameFault::NullNotAllowed(column),
        Err(_) => NameFault::Memory,
    }
}

/// The fault that a column of the key is changed.
pub fn key_changed(alloc: Global, column: &Name) -> NameFault
    ensures { IsFirstOf (faults.KeyChanged column.now ∷ []) result }
{
    match boxed_name(alloc, column) {
        Ok(column) => NameFault::KeyChanged(column),
        Err(_) => NameFault::Memory,
    }
}
