//! Evaluates a query, with the policy written into it, over unmasked rows. This is the definition,
//! executed directly.
#![tactic(auto)]

mod answers;
mod audit_conditions;
mod cells;
mod conditions;
mod gathering;
mod queries;
mod walks;

pub use answers::{ANSWER_LIMIT, EvalFault, Every, evaluate};
pub use audit_conditions::unmasked_condition;
pub use cells::{LentCell, cell, raw_value};
pub use conditions::test;
pub use gathering::{Gatherer, RowFinder};
pub use queries::{is_shown, passes, project, refill};
pub use walks::{Onward, Visitor, walk};
