//! Laws over the definitions of `hippo_model`. Each law is the contract of a function that does
//! nothing. Worked examples of the definitions are in `proofs/`.
#![tactic(auto)]

pub mod answers;
pub mod audits;
pub mod conditions;
pub mod flags;
pub mod histories;
pub mod hits;
pub mod kept_rows;
pub mod stores;
