//! An entry of a history, the rule of a column, an authorization, and what a question saw of a
//! patient's row, as a line of text, of JSON (RFC 8259) or of CSV (RFC 4180).
#![tactic(auto)]

mod access;
mod access_objects;
mod access_records;
mod accesses;
mod grants;
mod members;
mod objects;
mod questions;
mod records;
mod ruled;
mod rulings;
mod told;

pub use access::{Access, DeniedCell, SeenCell};
pub use accesses::{access_header, append_access};
pub use grants::{Grant, append_grant};
pub use questions::{Question, question_of};
pub use ruled::append_rule_line;
pub use rulings::{ColumnRule, ruling_number};
pub use told::{append_entry, append_moment};
