//! Join equalities and IN lists among the parts of a condition, and the lookup of rows by a value.
#![tactic(auto)]

mod known;
mod lists;
mod lookups;
mod ties;

pub use known::{is_chosen, is_open, knows, knows_expr, slot_at};
pub use lists::{count_listed, find_list, places_listed};
pub use lookups::{Index, index_by_column, is_null, value_at, with_value};
pub use ties::{Tie, column_of, find_tie, outer_parts, shows_column};
