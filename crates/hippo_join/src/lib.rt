//! Planned joins, and tests for whether some combination of rows qualifies.
#![tactic(auto)]

mod existence;
mod finding;
mod gathering;
mod joins;
mod orders;
mod planned;
mod settling;
mod visiting;
mod walking;

pub use existence::has;
pub use gathering::gather_joined;
pub use joins::{blank_row, run};
pub use orders::{order_after, plan};
pub use planned::{visit_by_plan, visit_planned};
pub use settling::{few_places, has_joined, settled};
pub use visiting::walk_joined;
