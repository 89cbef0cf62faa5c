//! The names that statements may use. The definitions in `specs/` say why a statement is refused
//! and what it means.
#![tactic(auto)]

mod catalog;
pub mod column_faults;
mod indexed_table;
mod kinds;
mod known_names;
mod literals;
pub mod name_faults;
mod name_spaces;
mod period;
mod repeats;

pub use catalog::{Catalog, Newest};
pub use indexed_table::{IndexedTable, StatementTables};
pub use kinds::check_kinds;
pub use known_names::check_pair;
pub use literals::{check_texts, is_bad_text};
pub use name_spaces::NameSpaces;
pub use period::Period;
pub use repeats::check_repeats;
