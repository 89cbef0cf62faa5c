//! Decides what to do for a line, or finds its first refusal.
#![tactic(auto)]

mod asking;
mod audits;
mod changes;
mod console_checks;
mod deeds;
mod entries;
mod judging;
mod loading;
mod refusals;
mod requests;
mod session_checks;
mod statements;

pub use asking::{AnswerForm, Asking, Delivery, WrittenQuestion};
pub use deeds::{Deed, Question, Unjudged};
pub use judging::{judge, who_commands};
