//! The types of the database. `specs/` defines what a history means.
#![tactic(auto)]

mod audit;
mod born_row;
mod cells;
mod combo;
mod entry;
mod lent;
mod name_fault;
mod naming;
mod operands;
mod policy;
mod query;
mod schema;
mod stored;
mod table_fault;
mod wanted;

pub use audit::{Audit, Flag, Flags, Pair, Pairs, SharedRow, SharedTuple};
pub use born_row::BornRow;
pub use cells::{Answer, Cell, CellRow, Cells, copied_key};
pub use combo::{ChoiceView, Combo, Plan};
pub use entry::{Act, Entry, History, ItemKind};
pub use lent::{Lent, LentSchemas};
pub use name_fault::NameFault;
pub use naming::{names_column, table_name};
pub use operands::{Change, OperandTest, any_operand, changed_condition};
pub use policy::{Authorization, Gate, Gates, RuleAt, RulesInForce, TableRules, Verdict};
pub use query::{
    CondOf, Expr, Exprs, Form, Guard, Guards, Masked, Operand, Operands, Out, Outs, Query, Ref,
    Refs, Shape,
};
pub use schema::{Column, ColumnKind, Columns, Names, Places, Schema};
pub use stored::{StoredEntry, StoredList};
pub use table_fault::TableFault;
pub use wanted::Wanted;
