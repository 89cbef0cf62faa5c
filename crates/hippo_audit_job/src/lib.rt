//! Audits of past queries: the tests for a candidate, the examiner of one logged query, and jobs
//! that examine the logged queries of a history in steps.
#![tactic(auto)]

mod candidates;
mod examiner;
mod jobs;
mod laws;
mod past;
mod questions;
mod reading;

pub use candidates::{in_period, is_exempt, names_all};
pub use examiner::Examiner;
pub use jobs::Job;
pub use laws::{
    meanings_last, no_questions_no_flags, questions_mean, stretches_last, unrefused_are_audits,
};
pub use past::Past;
