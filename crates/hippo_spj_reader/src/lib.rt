//! Reads conditions, selects and the lists in them from the tokens of a statement.
#![tactic(auto)]

mod conditions;
mod front;
mod lists;
mod pairs;
mod selects;

pub use conditions::{ColumnPart, column, condition, read_condition};
pub use front::{
    after_keyword, after_symbol, after_word, expect_keyword, expect_symbol, expect_word, literal,
    name, split,
};
pub use lists::{Commas, NamePart, Part, Separator, list, whole};
pub use selects::{after_where, read_select, select, whole_condition};
