//! Rows as CSV records (RFC 4180), for loading and extracting.
#![tactic(auto)]

mod extracts;
mod faults;
mod fields;
mod laws;
mod values;

pub use extracts::{extract_line, extract_lines};
pub use faults::CsvFault;
pub use fields::{Fields, read_fields};
pub use laws::field_round_trip;
pub use values::field_values;
