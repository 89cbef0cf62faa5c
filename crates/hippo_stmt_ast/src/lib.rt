//! The syntax tree of statements, before a history resolves their names.
#![tactic(auto)]

mod statement;

pub use statement::{
    RawAudit, RawColumn, RawColumns, RawCond, RawForm, RawItem, RawItems, RawOperand, RawOut,
    RawOuts, RawSelect, Stmt,
};
