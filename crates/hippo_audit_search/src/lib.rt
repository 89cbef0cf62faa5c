//! The first rows that a query and an audit share.
#![tactic(auto)]

mod audited;
mod candidates;
pub mod laws;
mod marks;
mod searching;
mod sharing;
mod sides;
mod told;
mod tuples;

pub use audited::{Audited, Compared};
pub use candidates::{audit_has_any, first_of};
pub use marks::{Mark, row_places};
pub use sharing::{first_shared, know_order};
